// The calls of a core, lent to whoever feeds it or empties it.
ghost use Rattle.std.specs.Prelude.{◌≡◌, ◌≤◌, ◌<◌, ◌+◌, ℕ, Ok, Err, MatchResult, IfErr, IsSome, length};
ghost use Rattle.sg_device.specs.Outlet.{count_of};
ghost use Rattle.sg_machine.specs.declared.setup.Setup.{Setup};
ghost use Rattle.sg_counter.specs.Bringing.{IsBatch, store_in, records_back};
ghost use Rattle.sg_counter.specs.declared.calls.CoreCall.{CoreCall};
ghost use Rattle.sg_counter.specs.declared.calls.CoreReply.{CoreReply};

use crate::answers::{CoreFront, Refill, Refused, Settled, Stored};
use sg_device::{NoMemory, Outlet, Taken};
use sg_machine::{Admission, Verdict};
use std::alloc::Global;
use std::sync::Wait;

/// Lends the calls of a core, one at a time. Between two calls of one holder the core may have served
/// others. A call may wait for its turn, and takes one of those that are left. What a destination has
/// taken is settled by a [`Settler`].
pub trait Counter {
    // The sources and destinations.
    ghost setup: { Self → Setup };

    // How many calls are left.
    ghost left: { Self → ℕ };

    // From the first counter the call gets this reply, and leaves the second counter.
    ghost step: { Self → CoreCall → CoreReply → Self → Type 0 };

    /// How many records of the source may come in now.
    fn credit<T: Wait>(&mut self, rt: &T, i: u32) -> u64
        requires left { 0 < left self.old }
        requires inlet { i < length (setup self.old).sources }
        ensures step { step self.old (CoreCall.Credit i) (CoreReply.Credit result) self.new }
        ensures setup { setup self.new ≡ setup self.old }
        ensures left { left self.old ≤ left self.new + 1 };

    /// Brings in 1 to 1,000 records of the source, all or none: the verdicts of all their offers, in
    /// order. Refused, the records come back and all stays.
    fn admit<T: Wait>(
        &mut self,
        rt: &T,
        alloc: Global,
        i: u32,
        records: Vec<Admission>,
    ) -> Result<Vec<Verdict>, Refused>
        requires left { 0 < left self.old }
        requires inlet { i < length (setup self.old).sources }
        requires batch { IsBatch (setup self.old) records.items }
        ensures step { MatchResult result (λ verdicts. step self.old
            (CoreCall.Admit i records.items) (CoreReply.Admitted (Ok verdicts.items)) self.new)
            (λ refused. step self.old (CoreCall.Admit i records.items)
            (CoreReply.Admitted (Err refused)) self.new) }
        ensures back { IfErr result (λ refused. records_back refused ≡ records.items) }
        ensures setup { setup self.new ≡ setup self.old }
        ensures left { left self.old ≤ left self.new + 1 };

    /// The first entries that are left at the destination, at most `most`, which is 1 to 1,000.
    fn front<T: Wait>(
        &mut self,
        rt: &T,
        alloc: Global,
        d: u32,
        most: u32,
    ) -> Result<CoreFront, NoMemory>
        requires left { 0 < left self.old }
        requires dest { d < length (setup self.old).dests }
        requires some { 0 < most }
        requires few { most ≤ 1000 }
        ensures step { step self.old (CoreCall.Front d most) (CoreReply.Front result) self.new }
        ensures setup { setup self.new ≡ setup self.old }
        ensures left { left self.old ≤ left self.new + 1 };

    /// Moves the first entries that wait into the destination's disk-buffer, as many as fit and at most
    /// 1,000.
    fn refill<T: Wait>(&mut self, rt: &T, d: u32) -> Refill
        requires left { 0 < left self.old }
        requires dest { d < length (setup self.old).dests }
        ensures step { step self.old (CoreCall.Refill d) (CoreReply.Refilled result) self.new }
        ensures setup { setup self.new ≡ setup self.old }
        ensures left { left self.old ≤ left self.new + 1 };

    /// Stores how far the source's records are acknowledged, where that isn't stored yet. The source
    /// has a position store.
    fn store<T: Wait>(&mut self, rt: &T, i: u32) -> Stored
        requires left { 0 < left self.old }
        requires inlet { i < length (setup self.old).sources }
        requires store { IsSome (store_in (setup self.old).sources i) }
        ensures step { step self.old (CoreCall.Store i) (CoreReply.Stored result) self.new }
        ensures setup { setup self.new ≡ setup self.old }
        ensures left { left self.old ≤ left self.new + 1 };
}

/// A counter that settles what outlets of the type `O` have taken.
pub trait Settler<O: Outlet>: Counter {
    /// The destination has taken so many of its first entries, the first of which has that place among
    /// all that it was given: its outlet told how many frames it had taken in all.
    fn settle<T: Wait>(&mut self, rt: &T, d: u32, place: u64, n: u32, taken: Taken<O>) -> Settled
        requires left { 0 < Self.left self.old }
        requires dest { d < length (Self.setup self.old).dests }
        requires some { 0 < n }
        ensures step { Self.step self.old (CoreCall.Settle d place n (count_of taken))
            (CoreReply.Settled result) self.new }
        ensures setup { Self.setup self.new ≡ Self.setup self.old }
        ensures left { Self.left self.old ≤ Self.left self.new + 1 };
}
