// Entries that are settled.
ghost use Rattle.std.specs.Prelude.{◌≡◌, ◌≤◌, ◌<◌, ◌+◌, ◌^◌, ◌≢◌, None, length, slice_get, take};
ghost use Rattle.sg_list.specs.Lists.{change};
ghost use Rattle.sg_offers.specs.Rooms.{seen_in};
ghost use Rattle.sg_standing.specs.States.{counted};
ghost use Rattle.sg_standing.specs.Standing.{DoesAct};
ghost use Rattle.sg_core.specs.Answers.{settle_act, AnswersSettle, OnNotFront, can_settle, can_settle_at, broken_at, buffer_at};
ghost use Rattle.sg_core.specs.Parts.{HasLeft, CanAckAll, settling_at, lengths_at};
ghost use Rattle.sg_core.specs.Steps.{CanTakeOff, TakesOff};
ghost use Rattle.sg_sinks.specs.Fitting.{space};
ghost use Rattle.sg_sinks.specs.Settling.{settled_first};
ghost use Rattle.sg_standing.specs.Sources.{acks_all};
ghost use Rattle.sg_counter.specs.declared.answers.Settled.{Settled as Answer};

use crate::flow::Core;
use crate::parts::{break_at, settle_waiting};
use sg_counter::Settled;
use sg_device::Disk;
use sg_list::Seq;
use sg_machine::BufferSetup;
use sg_sinks::Sink;
use sg_standing::Source;
use sg_stores::Stores;

// Whether the first entry that is left has this place, and so many are left.
fn is_front(sink: &Sink, place: u64, n: u32) -> bool
    ensures { result ≡ can_settle sink.now.seen place n }
{
    place == sink.taken() && (n as usize).saturating_sub(sink.spooled()) <= sink.waiting()
}

// Settles the first n, those on the destination's disk before those that wait, and acknowledges the
// latter. Answers what the former take of the disk.
fn settle_first(sinks: &mut Seq<Sink>, sources: &mut Seq<Source>, d: u32, n: usize) -> u64
    requires waits { HasLeft (slice_get (seen_in sinks.old) d) n }
    requires acks { CanAckAll sources.old (settling_at (seen_in sinks.old) d n) }
    ensures sinks { seen_in sinks.new ≡ change (seen_in sinks.old) d (settled_first n) }
    ensures sources { sources.new ≡ acks_all sources.old (settling_at (seen_in sinks.old) d n) }
    ensures size { result ≡ space (take n (lengths_at (seen_in sinks.old) d)) }
{
    let sink = sinks.at_mut(d as usize);
    let spooled = sink.spooled().min(n);
    let size = sink.settle_spooled(spooled);
    settle_waiting(sinks, sources, d, n - spooled);
    size
}

// Takes the first n entries off a disk-buffer whose store works. Whether it does then; without a
// disk-buffer there is no store that could fail.
fn take_off<D: Disk>(
    stores: &mut Stores<D>,
    buffer: Option<BufferSetup>,
    broken: bool,
    n: u64,
    size: u64,
) -> bool
    requires { CanTakeOff stores.old buffer broken n size }
    ensures { TakesOff stores.old stores.new buffer broken n size result }
{
    let Some(buffer) = buffer else {
        return true;
    };
    if broken {
        return false;
    }
    if n == 0 {
        return true;
    }
    stores.advance(buffer.store, n, size)
}

impl<D: Disk> Core<D> {
    /// Settles the first n entries that are left, which the destination's outlet has taken, and of which
    /// the first has that place; else nothing changes. Those on its disk go off it. Takes no memory, and
    /// constant time for each of them and for each record that waits for nothing any more.
    pub fn settle(&mut self, d: u32, place: u64, n: u32) -> Settled
        requires dest { d < length self.old.sinks }
        requires some { 0 < n }
        requires few { self.old.calls + 1 < 2 ^ 54 }
        ensures does { DoesAct self.old self.new (settle_act d n result) }
        ensures answer { AnswersSettle (can_settle_at self.old.sinks d place n)
            (broken_at self.new.sinks d) result }
        ensures same { OnNotFront result (self.new ≡ counted self.old) }
        ensures queue { buffer_at self.old.sinks d ≡ None → result ≢ Answer.DiskFailed }
    {
        self.calls += 1;
        let sink = self.sinks.at(d as usize);
        if !is_front(sink, place, n) {
            return Settled::NotFront;
        }
        let buffer = sink.setup().buffer;
        let broken = sink.is_broken();
        let spooled = sink.spooled().min(n as usize) as u64;
        let size = settle_first(&mut self.sinks, &mut self.sources, d, n as usize);
        if !take_off(&mut self.stores, buffer, broken, spooled, size) {
            break_at(&mut self.sinks, d);
            return Settled::DiskFailed;
        }
        Settled::Done
    }
}
