// Memory for offers.
ghost use Rattle.std.specs.Prelude.{◌≡◌, ◌≤◌, ◌+◌, ◌<◌, ◌^◌, IfOk, OnOk, OnErr};
ghost use Rattle.sg_sinks.specs.Fitting.{space};
ghost use Rattle.sg_sinks.specs.Offers.{given};
ghost use Rattle.sg_sinks.specs.States.{recovered};

use crate::Sink;
use std::alloc::AllocError;

impl Sink {
    /// Takes memory for so many offers more at least. It is lack of memory too where all that the
    /// destination was given would pass 2^64 - 1 with them. An error leaves all that is seen, and the
    /// memory for as many offers as before.
    pub fn reserve(&mut self, n: usize) -> Result<(), AllocError>
        ensures seen { self.new.seen ≡ self.old.seen }
        ensures room { OnOk result (n ≤ self.new.room) }
        ensures spare { self.old.room ≤ self.new.room }
    {
        if n <= self.room {
            return Ok(());
        }
        self.count_with(n)?;
        self.queue.reserve(n)?;
        self.blocks.reserve(n)?;
        self.lengths.reserve(sum(self.queue.len(), n)?)?;
        self.room = n;
        Ok(())
    }

    // All that it was given, with n more, stays below 2^64.
    fn count_with(&self, n: usize) -> Result<(), AllocError>
        ensures { OnOk result (given self.now.seen + n < 2 ^ 64) }
    {
        let held = self.taken + self.lengths.len() as u64 + self.queue.len() as u64;
        match (held + self.dropped_full + self.dropped_disk).checked_add(n as u64) {
            Some(_) => Ok(()),
            None => Err(AllocError),
        }
    }

    /// Adds an entry of this length behind those on its disk, as an opening finds it.
    #[tactic(auto, using(crate::proofs::SpaceLemmas::space_push))]
    pub fn recover(&mut self, length: u64) -> Result<(), AllocError>
        requires room { self.old.room ≡ 0 }
        requires sum { space self.old.seen.lengths + 5 + length < 2 ^ 64 }
        ensures ok { OnOk result (self.new.seen ≡ recovered length self.old.seen) }
        ensures err { OnErr result (self.new.seen ≡ self.old.seen) }
        ensures room { self.new.room ≡ 0 }
    {
        self.count_with(1)?;
        self.lengths.reserve(sum(self.queue.len(), 1)?)?;
        self.lengths.push_back_reserved(length);
        self.used += 5 + length;
        Ok(())
    }
}

// A count that would pass the end of a number is lack of memory.
fn sum(waiting: usize, more: usize) -> Result<usize, AllocError>
    ensures { IfOk result (λ n. n ≡ waiting + more) }
{
    match waiting.checked_add(more) {
        Some(n) => Ok(n),
        None => Err(AllocError),
    }
}
