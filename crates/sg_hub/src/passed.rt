// What has passed a seat so far.
ghost use Rattle.std.specs.Prelude.{◌≡◌, ◌≤◌, ◌<◌, ◌++◌, OnOk, OnErr, ℕ, length, map, option_copied, option_map};
ghost use Rattle.sg_hub.specs.Counts.{none_offered, offered_to, counted, CountsOffer, CountsOffers, dests_of, HasPassedNone, HasBegun, HasEnded, HasAsked, HasStored, HasShown, CountsSettled, shown_by};

use sg_counter::{CoreFront, Settled, Stored};
use sg_device::NoMemory;
use sg_machine::{Admission, Verdict};
use sg_msg::{Message, Offer};
use std::alloc::Global;

/// What became of the offers to a destination so far.
#[derive(Clone, Copy, PartialEq, Eq, Drop)]
pub struct Offered {
    pub kept: u64,
    pub dropped_full: u64,
    pub dropped_disk: u64,
}

impl Offered {
    /// Nothing was offered.
    pub fn none() -> Offered
        ensures { result ≡ none_offered }
    {
        Offered {
            kept: 0,
            dropped_full: 0,
            dropped_disk: 0,
        }
    }
}

/// What came in through a source's seat, or was taken through a destination's.
#[derive(Drop)]
pub struct SeatCounts {
    pub records: u64,
    /// How many were brought in last. Who lends the seat for a turn may set it to 0 before.
    pub brought: usize,
    /// The window was full when the credit was asked for last.
    pub full: bool,
    /// How often it wasn't.
    pub eased: u64,
    /// The position that was stored last.
    pub stored: Option<u64>,
    /// The destinations of the offers that came in last, in order.
    dests: Vec<u32>,
    /// What became of all offers, by destination.
    pub offered: Vec<Offered>,
    pub taken: u64,
    /// When the first of the entries that were shown last was received, or the last one, where all were taken.
    pub oldest: Option<i64>,
    /// When the last of them was, and how many they were.
    newest: Option<i64>,
    shown: usize,
}

impl SeatCounts {
    /// Nothing has. Takes no memory.
    pub fn new(alloc: Global) -> SeatCounts
        ensures none { HasPassedNone result }
    {
        SeatCounts {
            records: 0,
            brought: 0,
            full: false,
            eased: 0,
            stored: None,
            dests: Vec::new(alloc),
            offered: Vec::new(alloc),
            taken: 0,
            oldest: None,
            newest: None,
            shown: 0,
        }
    }

    /// Notes how many records there are, and the destinations of their offers, none where there is no memory.
    pub(crate) fn begin(&mut self, records: &[Admission])
        ensures { HasBegun records.now self.old self.new }
    {
        self.brought = records.len();
        self.dests.clear();
        if list_dests(records, &mut self.dests).is_err() {
            self.dests.clear();
        }
    }

    /// Counts these records, and what became of their offers.
    pub(crate) fn end(&mut self, verdicts: &[Verdict])
        ensures { HasEnded verdicts.now self.old self.new }
    {
        self.records = self.records.saturating_add(self.brought as u64);
        count_all(&self.dests, verdicts, &mut self.offered);
    }

    /// Counts a question for the credit.
    pub(crate) fn ask(&mut self, credit: u64)
        ensures { HasAsked credit self.old self.new }
    {
        self.full = credit == 0;
        if credit > 0 {
            self.eased = self.eased.saturating_add(1);
        }
    }

    /// Takes note of a position that was written.
    pub(crate) fn store(&mut self, stored: Stored)
        ensures { HasStored stored self.old self.new }
    {
        if let Stored::Wrote(position) = stored {
            self.stored = Some(position);
        }
    }

    /// Takes note of the first entries that are left.
    pub(crate) fn show(&mut self, front: &Result<CoreFront, NoMemory>)
        ensures { HasShown (shown_by front.now) self.old self.new }
    {
        let messages = messages_of(front);
        self.oldest = received_at(messages.first());
        self.newest = received_at(messages.last());
        self.shown = messages.len();
    }

    /// Counts entries that were settled.
    pub(crate) fn settle(&mut self, count: u32, settled: Settled)
        ensures { CountsSettled settled count self.old self.new }
    {
        if settled == Settled::NotFront {
            return;
        }
        self.taken = self.taken.saturating_add(u64::from(count));
        if count as usize >= self.shown {
            self.oldest = self.newest;
        }
    }
}

fn messages_of(front: &Result<CoreFront, NoMemory>) -> &[Message]
    ensures { result.now ≡ shown_by front.now }
{
    match front {
        Ok(CoreFront::Entries { place: _, messages }) => messages.as_slice(),
        _ => &[],
    }
}

// When it was received, in microseconds since 1970.
fn received_at(message: Option<&Message>) -> Option<i64>
    ensures { result ≡ option_map (λ m. m.received.at) (option_copied message.entry) }
{
    Some(message?.received().at)
}

fn list_offers(offers: &[Offer], dests: &mut Vec<u32>) -> Result<(), NoMemory>
    ensures { OnOk result (dests.new.items ≡ dests.old.items ++ map (λ o. o.dest) offers.now) }
{
    for offer in offers {
        dests.push(offer.dest)?;
    }
    Ok(())
}

fn list_dests(records: &[Admission], dests: &mut Vec<u32>) -> Result<(), NoMemory>
    ensures { OnOk result (dests.new.items ≡ dests.old.items ++ dests_of records.now) }
{
    for record in records {
        list_offers(record.offers.as_slice(), dests)?;
    }
    Ok(())
}

// With one more verdict.
fn counted(offered: Offered, verdict: Verdict) -> Offered
    ensures { result ≡ counted offered verdict }
{
    match verdict {
        Verdict::DroppedFull => Offered {
            kept: offered.kept,
            dropped_full: offered.dropped_full.saturating_add(1),
            dropped_disk: offered.dropped_disk,
        },
        Verdict::DroppedDisk => Offered {
            kept: offered.kept,
            dropped_full: offered.dropped_full,
            dropped_disk: offered.dropped_disk.saturating_add(1),
        },
        _ => Offered {
            kept: offered.kept.saturating_add(1),
            dropped_full: offered.dropped_full,
            dropped_disk: offered.dropped_disk,
        },
    }
}

// A place for this destination, where it may have one and there is memory.
fn place_for(dest: usize, offered: &mut Vec<Offered>) -> Result<(), NoMemory>
    ensures place { OnOk result (dest < 128 → dest < length offered.new.items) }
    ensures none { OnErr result (length offered.new.items ≤ dest) }
    ensures longer { length offered.old.items ≤ length offered.new.items }
    ensures same { (d : ℕ)
        → offered_to d offered.new.items ≡ offered_to d offered.old.items }
{
    for _more in offered.len()..dest.saturating_add(1).min(128) {
        offered.push(Offered::none())?;
    }
    Ok(())
}

// With the verdict on one more offer to this destination. It isn't counted where it may have no place, or
// where there is no memory for one.
fn count(dest: usize, verdict: Verdict, offered: &mut Vec<Offered>) -> Result<(), NoMemory>
    ensures counts { CountsOffer dest verdict offered.old.items offered.new.items }
    ensures place { OnOk result (dest < 128 → dest < length offered.new.items) }
{
    place_for(dest, offered)?;
    if dest < offered.len() {
        offered[dest] = counted(offered[dest], verdict);
    }
    Ok(())
}

// With the verdicts on offers to these destinations, one after another.
fn count_all(dests: &[u32], verdicts: &[Verdict], offered: &mut Vec<Offered>)
    ensures { CountsOffers dests.now verdicts.now offered.old.items offered.new.items }
{
    for at in 0..dests.len().min(verdicts.len()) {
        let _ = count(dests[at] as usize, verdicts[at], offered);
    }
}
