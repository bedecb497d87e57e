// A core lends its calls.
ghost use Rattle.std.specs.Prelude.{◌≡◌, ◌≤◌, ◌<◌, ◌+◌, ◌-◌, ◌^◌, List, length, map};
ghost use Rattle.sg_device.specs.Outlet.{count_of};
ghost use Rattle.sg_machine.specs.declared.event.Event.{Event};
ghost use Rattle.sg_machine.specs.declared.state.State.{State};
ghost use Rattle.sg_counter.specs.Exchanges.{Exchange, Makes};
ghost use Rattle.sg_counter.specs.declared.calls.CoreCall.{CoreCall as ACall};
ghost use Rattle.sg_counter.specs.declared.calls.CoreReply.{CoreReply as AReply};
ghost use Rattle.sg_standing.specs.States.{CoreState, setup_of};
ghost use Rattle.sg_standing.specs.Standing.{StandsFor, StandsOn};
ghost use Rattle.sg_core.specs.Calls.{Serves, acts_of};

use crate::flow::Core;
use sg_counter::{CoreFront, Counter, Refill, Refused, Settled, Settler, Stored};
use sg_device::{Disk, NoMemory, Outlet, Taken};
use sg_machine::{Admission, Verdict};
use std::alloc::Global;
use std::sync::Wait;

/// A core lends its calls itself, and never waits.
impl<D: Disk> Counter for Core<D> {
    ghost setup = { setup_of };

    ghost left = { λ core. 2 ^ 54 - 1 - core.calls };

    ghost step = { Serves };

    fn credit<T: Wait>(&mut self, _rt: &T, i: u32) -> u64 {
        Core::credit(self, i)
    }

    fn admit<T: Wait>(
        &mut self,
        _rt: &T,
        alloc: Global,
        i: u32,
        records: Vec<Admission>,
    ) -> Result<Vec<Verdict>, Refused> {
        Core::admit(self, alloc, i, records)
    }

    fn front<T: Wait>(
        &mut self,
        _rt: &T,
        alloc: Global,
        d: u32,
        most: u32,
    ) -> Result<CoreFront, NoMemory> {
        Core::front(self, alloc, d, most)
    }

    fn refill<T: Wait>(&mut self, _rt: &T, d: u32) -> Refill {
        Core::refill(self, d)
    }

    fn store<T: Wait>(&mut self, _rt: &T, i: u32) -> Stored {
        Core::store(self, i)
    }
}

/// It settles what any outlet has taken.
impl<D: Disk, O: Outlet> Settler<O> for Core<D> {
    fn settle<T: Wait>(&mut self, _rt: &T, d: u32, place: u64, n: u32, taken: Taken<O>) -> Settled
        requires left { 0 < 2 ^ 54 - 1 - self.old.calls }
        requires dest { d < length (setup_of self.old).dests }
        requires some { 0 < n }
        ensures step { Serves self.old (ACall.Settle d place n (count_of taken))
            (AReply.Settled result) self.new }
        ensures setup { setup_of self.new ≡ setup_of self.old }
        ensures left { 2 ^ 54 - 1 - self.old.calls ≤ (2 ^ 54 - 1 - self.new.calls) + 1 }
    {
        Core::settle(self, d, place, n)
    }
}

/// A law: the calls of a core, one after another, are the events of their acts, and the timetable keeps
/// the rows that it had. The function does nothing.
pub fn calls_are_events()
    ensures { (old new : CoreState) (made : List Exchange) (start : State) (events : List Event)
        → Makes Serves old made new → (stood : StandsFor old start events)
        → (more : List Event) × (map (λ event. event.act) more ≡ acts_of made)
        × StandsOn new start events more stood.moments.rows }
{}
