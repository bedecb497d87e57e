// When a source stores its position.
ghost use Rattle.std.specs.Prelude.{◌≡◌, ◌<◌, ◌≤◌, ◌+◌, ◌&&◌, not, length, true, Some, IsSome};
ghost use Rattle.sg_counter.specs.Bringing.{store_in};
ghost use Rattle.sg_actor.specs.Positions.{is_same_credit, is_due, StoresPosition};

use crate::SourceSpec;
use sg_counter::{Counter, Stored};
use std::sync::Wait;

/// A source asks for its position to be stored once the end of its last record is so many bytes
/// above where it was when it asked last.
const STRIDE: u64 = 262_144;

/// What a source knows of its credit, and of its position store.
#[derive(Clone, Copy, PartialEq, Eq, Drop)]
pub struct Position {
    /// The credit of the turn before, once there was one.
    pub(crate) credit: Option<u64>,
    /// The end of the last record admitted when the core was asked last to store, at first the
    /// place where reading began.
    pub(crate) asked: u64,
    /// The store has failed.
    pub(crate) broken: bool,
}

impl Position {
    /// Takes note of the turn's credit. Tells whether it is that of the turn before.
    pub(crate) fn note(&mut self, credit: u64) -> bool
        ensures same { result ≡ is_same_credit self.old.credit credit }
        ensures noted { self.new ≡ record self.old { credit = Some credit } }
    {
        let before = self.credit;
        self.credit = Some(credit);
        match before {
            Some(before) => before == credit,
            None => false,
        }
    }

    fn is_due(&self, rests: bool, end: u64) -> bool
        ensures { result ≡ is_due self.now rests end }
    {
        if self.broken {
            return false;
        }
        rests || end.saturating_sub(self.asked) >= STRIDE
    }
}

/// Stores the position where that is due: in a turn that did nothing else, and where records enough
/// were admitted. Tells whether it was written, or its store failed. `end` is that of the last
/// record.
pub(crate) fn store_position<T: Wait, C: Counter>(
    rt: &T,
    counter: &mut C,
    spec: &SourceSpec,
    position: &mut Position,
    rests: bool,
    end: u64,
) -> bool
    requires left { 0 < C.left counter.old }
    requires inlet { spec.now.inlet < length (C.setup counter.old).sources }
    requires store { spec.now.stored ≡ true
        → IsSome (store_in (C.setup counter.old).sources spec.now.inlet) }
    ensures stores { StoresPosition spec.now C.step counter.old counter.new rests end
        position.old position.new result }
    ensures setup { C.setup counter.new ≡ C.setup counter.old }
    ensures left { C.left counter.old ≤ C.left counter.new + 1 }
{
    if !spec.stored || !position.is_due(rests, end) {
        return false;
    }
    position.asked = end;
    match counter.store(rt, spec.inlet) {
        Stored::Wrote(_) => true,
        Stored::Unchanged => false,
        Stored::Broken => {
            position.broken = true;
            true
        }
    }
}
