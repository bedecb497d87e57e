// A source of the core.
ghost use Rattle.std.specs.Prelude.{◌≡◌, ◌<◌, ◌↔◌, ◌-◌, IsTrue, true, [], ◌∷◌, length, slice_get};
ghost use Rattle.sg_list.specs.Lists.{change};
ghost use Rattle.sg_window.specs.declared.tracker.BegunRecord.{BegunRecord};
ghost use Rattle.sg_standing.specs.Sources.{credit_of, mark_at, HasCredit, CanAck, begun_at, begun_all, acked_at, acks, after_rewind};

use sg_counter::Stored;
use sg_list::Seq;
use sg_machine::SourceSetup;
use sg_queue::Entry;
use sg_window::Tracker;

/// A source: its setup, the place that it began at, and its window, which counts from place 0.
#[derive(Drop)]
pub struct Source {
    pub setup: SourceSetup,
    /// A byte offset in what the inlet gives.
    pub opening: u64,
    pub tracker: Tracker,
}

impl Source {
    /// How many records may come in.
    pub fn credit(&self) -> u64
        ensures { result ≡ credit_of self.now }
    {
        self.tracker.credit()
    }

    /// The end of the last record of the longest acknowledged prefix; where that is empty, the place
    /// that the source began at.
    pub fn mark(&self) -> u64
        requires { self.now.tracker.limit ≡ self.now.setup.window }
        ensures { result ≡ mark_at self.now }
    {
        let outstanding = u64::from(self.setup.window) - self.tracker.credit();
        if outstanding == self.tracker.begun() {
            self.opening
        } else {
            self.tracker.mark()
        }
    }
}

/// Begins a record, which needs so many acknowledgements.
pub fn begin_at(sources: &mut Seq<Source>, i: u32, end: u64, left: u32)
    requires inlet { i < length sources.old }
    requires credit { HasCredit (slice_get sources.old i) 1 }
    ensures { sources.new ≡ change sources.old i (begun_at end left) }
{
    let source = sources.at_mut(i as usize);
    let _number = source.tracker.begin(end, left);
}

fn ack_at(sources: &mut Seq<Source>, i: u32, number: u64)
    requires { CanAck (slice_get sources.old i) number }
    ensures { sources.new ≡ change sources.old i (acked_at number) }
{
    let source = sources.at_mut(i as usize);
    source.tracker.ack(number);
}

/// Acknowledges the record of an entry that is settled or moved, where the record waits for it.
pub fn acknowledge(sources: &mut Seq<Source>, entry: &Entry)
    requires { entry.now.flow ≡ true
        → CanAck (slice_get sources.old entry.now.inlet) entry.now.number }
    ensures { sources.new ≡ acks sources.old entry.now }
{
    if entry.flow {
        ack_at(sources, entry.inlet, entry.number);
    }
}

/// Begins anew at place 0, where that was written.
pub fn start_anew(sources: &mut Seq<Source>, i: u32, answer: Stored)
    requires { i < length sources.old }
    ensures { sources.new ≡ after_rewind sources.old i answer }
{
    if let Stored::Wrote(_) = answer {
        sources.at_mut(i as usize).opening = 0;
    }
}
