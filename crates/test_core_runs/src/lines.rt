// What a destination of a run must have: the numbers of its entries, kept from the answers of the calls alone.
use crate::entries::{MadeOffer, short};
use sg_machine::Verdict;
use std::alloc::{AllocError, Global};
use std::collections::VecDeque;

/// The entries of a destination.
#[derive(Drop)]
pub(crate) struct DestLine {
    /// Those that went to its disk, in order.
    spooled: Vec<u32>,
    /// So many of them are settled.
    settled: usize,
    /// Those that are left and aren't on its disk.
    waiting: VecDeque<u32>,
    /// What it tried to append as its store failed.
    tried: Option<Vec<u32>>,
}

impl DestLine {
    pub(crate) fn new(alloc: Global) -> DestLine {
        DestLine {
            spooled: Vec::new(alloc),
            settled: 0,
            waiting: VecDeque::new(alloc),
            tried: None,
        }
    }

    /// A destination that begins with these on its disk.
    pub(crate) fn over(alloc: Global, spooled: Vec<u32>) -> DestLine {
        DestLine {
            spooled,
            settled: 0,
            waiting: VecDeque::new(alloc),
            tried: None,
        }
    }

    /// An offer gets its verdict.
    pub(crate) fn take(&mut self, number: u32, verdict: Verdict) -> Result<(), AllocError> {
        match verdict {
            Verdict::Spooled => self.spooled.push(number)?,
            Verdict::Queued | Verdict::Waits => self.waiting.push_back(number)?,
            Verdict::DroppedFull | Verdict::DroppedDisk => {}
        }
        Ok(())
    }

    // The first entry that is left goes.
    fn settle_one(&mut self) -> Option<u32> {
        match self.spooled.get(self.settled) {
            Some(number) => {
                let number = *number;
                self.settled = self.settled.saturating_add(1);
                Some(number)
            }
            None => self.waiting.pop_front(),
        }
    }

    /// The first n entries that are left are settled.
    pub(crate) fn settle(&mut self, n: u32, made: &mut [MadeOffer]) {
        for _entry in 0..n {
            if let Some(number) = self.settle_one() {
                if (number as usize) < made.len() {
                    made[number as usize].settled = true;
                }
            }
        }
    }

    /// The first n that wait go to its disk.
    pub(crate) fn refill(&mut self, n: u32) -> Result<(), AllocError> {
        for _entry in 0..n {
            if let Some(number) = self.waiting.pop_front() {
                self.spooled.push(number)?;
            }
        }
        Ok(())
    }

    /// Those on its disk that are left.
    pub(crate) fn on_disk(&self) -> &[u32] {
        self.spooled.get(self.settled..).unwrap_or(&[])
    }

    /// Those that wait.
    pub(crate) fn waiting(&self, alloc: Global) -> Result<Vec<u32>, AllocError> {
        let mut numbers = Vec::new(alloc);
        for number in &self.waiting {
            numbers.push(*number)?;
        }
        Ok(numbers)
    }

    /// Those that are left.
    pub(crate) fn left(&self, alloc: Global) -> Result<Vec<u32>, AllocError> {
        let mut numbers = Vec::from_slice(alloc, self.on_disk())?;
        for number in &self.waiting {
            numbers.push(*number)?;
        }
        Ok(numbers)
    }

    /// Which of the offers from that number on its disk-buffer of this capacity takes, while its store works: an
    /// entry takes 5 bytes besides its own, and the list one more.
    pub(crate) fn would_spool(
        &self,
        alloc: Global,
        made: &[MadeOffer],
        first: usize,
        dest: u32,
        capacity: u64,
    ) -> Result<Vec<u32>, AllocError> {
        let mut numbers = Vec::new(alloc);
        let mut used = used(made, self.on_disk());
        let mut waits = !self.waiting.is_empty();
        for number in first..made.len() {
            let offer = made[number];
            if offer.dest == dest && !waits {
                let then = used.saturating_add(5).saturating_add(offer.size as u64);
                if then < capacity {
                    numbers.push(short(number))?;
                    used = then;
                } else {
                    waits = offer.flow;
                }
            }
        }
        Ok(numbers)
    }

    /// Its store has failed, in a call that tried to append these.
    pub(crate) fn fail(&mut self, tried: Vec<u32>) {
        if self.tried.is_none() {
            self.tried = Some(tried);
        }
    }

    /// Whether a core may find this list there: all on its disk that are left; or, where its store has failed,
    /// with settled ones before them and, behind them, the first of those that it tried to append.
    pub(crate) fn may_find(&self, list: &[u32]) -> bool {
        let Some(tried) = &self.tried else {
            return list == self.on_disk();
        };
        for gone in 0..=self.settled {
            let kept = self.spooled.get(gone..).unwrap_or(&[]);
            if let Some(more) = list.strip_prefix(kept) {
                if tried.starts_with(more) {
                    return true;
                }
            }
        }
        false
    }
}

// What these entries take of a disk-buffer.
fn used(made: &[MadeOffer], numbers: &[u32]) -> u64 {
    let mut used = 0u64;
    for number in numbers {
        if let Some(offer) = made.get(*number as usize) {
            used = used.saturating_add(5).saturating_add(offer.size as u64);
        }
    }
    used
}
