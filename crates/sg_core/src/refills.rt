// Entries that wait and go to the disk.
ghost use Rattle.std.specs.Prelude.{◌≡◌, ◌≤◌, ◌<◌, ◌+◌, ◌^◌, ℕ, None, Some, length, slice_get};
ghost use Rattle.sg_offers.specs.Rooms.{seen_in};
ghost use Rattle.sg_sinks.specs.Trials.{refill_of};
ghost use Rattle.sg_standing.specs.States.{counted};
ghost use Rattle.sg_standing.specs.Standing.{DoesAct};
ghost use Rattle.sg_core.specs.Answers.{refill_act, RefillsAt, fitting, buffer_at};
ghost use Rattle.sg_core.specs.Parts.{FitSome};
ghost use Rattle.sg_core.specs.Steps.{AppendsAt};
ghost use Rattle.sg_sinks.specs.Fitting.{space};
ghost use Rattle.sg_counter.specs.declared.answers.Refill.{Refill as Answer};

use crate::flow::Core;
use crate::parts::{break_at, move_waiting};
use sg_counter::Refill;
use sg_device::Disk;
use sg_machine::BufferSetup;
use sg_sinks::Sink;
use sg_stores::Stores;

// So many entries are moved in one commit at most.
const MOST: u32 = 1000;

// How many of the first that wait fit, each behind the ones before.
fn fitting(sink: &Sink, buffer: BufferSetup) -> u32
    ensures value { result ≡ fitting 1000 (refill_of buffer sink.now.seen) sink.now.seen.entries }
    ensures few { result ≤ 1000 }
    ensures fits { FitSome result buffer.capacity (space sink.now.seen.lengths)
        sink.now.seen.entries }
{
    let mut trial = sink.refill(buffer);
    let mut n = 0;
    while n < MOST {
        let Some(entry) = sink.get(n as usize) else {
            return n;
        };
        if !trial.take(true, &entry.message) {
            return n;
        }
        n += 1;
    }
    n
}

// Puts the first n that wait into the disk-buffer, in one commit. Whether its store works then.
fn spool_waiting<D: Disk>(sink: &Sink, stores: &mut Stores<D>, store: u32, n: u32) -> bool
    requires { store < length stores.old }
    ensures { AppendsAt stores.old stores.new store sink.now.seen.blocks n result }
{
    for k in 0..n as usize {
        if let Some(block) = sink.block(k) {
            stores.stage(store, block);
        }
    }
    stores.commit(store)
}

impl<D: Disk> Core<D> {
    /// Moves the first entries that wait into the destination's disk-buffer: as many as fit, one behind
    /// another, and at most 1,000, in one commit. Takes no memory.
    pub fn refill(&mut self, d: u32) -> Refill
        requires dest { d < length self.old.sinks }
        requires few { self.old.calls + 1 < 2 ^ 54 }
        ensures does { DoesAct self.old self.new (refill_act d result) }
        ensures answer { RefillsAt (slice_get self.old.sinks d) (slice_get self.new.sinks d)
            result }
        ensures none { buffer_at self.old.sinks d ≡ None → result ≡ Answer.NoneWaits }
        ensures queue { buffer_at self.old.sinks d ≡ None → self.new ≡ counted self.old }
    {
        self.calls += 1;
        let sink = self.sinks.at(d as usize);
        let Some(buffer) = sink.setup().buffer else {
            return Refill::NoneWaits;
        };
        if sink.is_broken() {
            return Refill::Broken;
        }
        if sink.waiting() == 0 {
            return Refill::NoneWaits;
        }
        let n = fitting(sink, buffer);
        if n == 0 {
            return Refill::NoRoom;
        }
        if !spool_waiting(sink, &mut self.stores, buffer.store, n) {
            break_at(&mut self.sinks, d);
            return Refill::Broken;
        }
        move_waiting(&mut self.sinks, &mut self.sources, d, buffer, n as usize);
        Refill::Moved(n)
    }
}
