// A file or a slot in memory that is read.
ghost use Rattle.std.specs.Prelude.{true, false, [], ◌≡◌, ◌≤◌, ◌<◌, ◌+◌, ◌^◌, ◌≤ℤ◌, pos, is_some, length, IfOk};
ghost use Rattle.sg_memory.specs.Part.{left_of, size_of};

use crate::{MemoryPart, MemoryParts};
use sg_device::{Inlet, InletFault, NoMemory, Pull};
use sg_memory_disk::FaultPlan;
use std::alloc::Global;
use std::collections::VecDeque;

/// An inlet that gives at most a piece at a pull, all bytes with one moment. It tells its content. A
/// file is one part from the start, and ends where it is hung up; a slot has a part for each
/// connection.
pub struct MemoryInlet {
    parts: MemoryParts,
    from: u64,
    piece: usize,
    at: i64,
    once: bool,
    single: bool,
    /// The calls that fail.
    pub plan: FaultPlan,
    pulls: u64,
    idles: u64,
    faults: u64,
    ended: bool,
    hung: bool,
    ghost some: { 0 < piece },
    ghost early: { pos 0 ≤ℤ at },
    ghost late: { at ≤ℤ pos 250000000000000000 },
    ghost start: { single ≡ false → from ≡ 0 },
    ghost short: { from + size_of parts.present < 2 ^ 63 },
    ghost whole: { single ≡ true → is_some parts.present ≡ true },
    ghost alone: { single ≡ true → parts.waiting.items ≡ [] },
    ghost idle: { idles ≤ pulls },
    ghost over: { ended ≡ true → hung ≡ false → left_of parts.present ≡ [] },
}

impl Drop for MemoryInlet {
    fn drop(self) {
        let MemoryInlet {
            parts: _parts,
            from: _from,
            piece: _piece,
            at: _at,
            once: _once,
            single: _single,
            plan: _plan,
            pulls: _pulls,
            idles: _idles,
            faults: _faults,
            ended: _ended,
            hung: _hung,
        } = self;
    }
}

/// How an inlet in memory gives its bytes.
#[derive(Clone, Copy, PartialEq, Eq)]
pub struct Pace {
    /// The most bytes of a pull, at least 1.
    pub piece: usize,
    /// The moment of all bytes: microseconds since 1970-01-01T00:00:00Z, 0 to
    /// 250,000,000,000,000,000.
    pub at: i64,
    pub ghost some: { 0 < piece },
    pub ghost early: { pos 0 ≤ℤ at },
    pub ghost late: { at ≤ℤ pos 250000000000000000 },
}

impl MemoryInlet {
    ghost use Rattle.sg_memory.specs.Inlet.{inlet_of, file_start, slot_start, GoesBy};
    ghost use Rattle.sg_memory_disk.specs.Plan.{failing};

    /// A file that is read from this place on, where it has these bytes left. With `once` it ends
    /// behind them, else it is idle there.
    pub fn file(
        alloc: Global,
        bytes: Vec<u8>,
        from: u64,
        pace: Pace,
        once: bool,
        plan: FaultPlan,
    ) -> Result<MemoryInlet, NoMemory>
        requires { from + length bytes.items < 2 ^ 63 }
        ensures opened { IfOk result (λ inlet. inlet_of inlet ≡ file_start from bytes.items) }
        ensures goes { IfOk result (λ inlet. GoesBy inlet pace once (failing plan)) }
    {
        let part = MemoryPart::new(alloc, b"localhost", bytes)?;
        Ok(MemoryInlet {
            parts: MemoryParts::whole(alloc, part),
            from,
            piece: pace.piece,
            at: pace.at,
            once,
            single: true,
            plan,
            pulls: 0,
            idles: 0,
            faults: 0,
            ended: false,
            hung: false,
        })
    }

    /// A slot to which these connections will be made, in order. With `once` it ends behind the first
    /// one, else it is idle behind the last one.
    pub fn slot(
        alloc: Global,
        connections: VecDeque<MemoryPart>,
        pace: Pace,
        once: bool,
        plan: FaultPlan,
    ) -> Result<MemoryInlet, NoMemory>
        ensures opened { IfOk result (λ inlet. inlet_of inlet ≡ slot_start) }
        ensures goes { IfOk result (λ inlet. GoesBy inlet pace once (failing plan)) }
        ensures waiting { IfOk result (λ inlet. inlet.parts.waiting ≡ connections) }
    {
        Ok(MemoryInlet {
            parts: MemoryParts::waiting(alloc, connections)?,
            from: 0,
            piece: pace.piece,
            at: pace.at,
            once,
            single: false,
            plan,
            pulls: 0,
            idles: 0,
            faults: 0,
            ended: false,
            hung: false,
        })
    }
}

impl Inlet for MemoryInlet {
    ghost use Rattle.sg_device.specs.Inlet.{PullFills, PullTells, PullMoves, PullLeaves, PullAdds};
    ghost use Rattle.sg_memory.specs.Inlet.{inlet_of, PullsByPlan};

    ghost state = { inlet_of };

    fn pull(&mut self, into: &mut [u8]) -> Result<Pull, InletFault>
        requires { 0 < length into.old }
        ensures fills { PullFills into.old into.new result }
        ensures told { PullTells (inlet_of self.old) (inlet_of self.new) into.new result }
        ensures place { PullMoves (inlet_of self.old) (inlet_of self.new) result }
        ensures left { PullLeaves (inlet_of self.old) (inlet_of self.new) into.new result }
        ensures adds { PullAdds (inlet_of self.old) (inlet_of self.new) result }
        ensures planned { PullsByPlan self.old self.new (length into.old) result }
    {
        if self.plan.next() || self.pulls == u64::MAX {
            self.faults = self.faults.saturating_add(1);
            return Err(InletFault);
        }
        self.pulls += 1;
        if self.ended {
            return Ok(Pull::End);
        }
        if !self.hung && self.parts.left() > 0 {
            let len = self.parts.give(self.piece, into);
            return Ok(Pull::Bytes { len, at: self.at });
        }
        if self.parts.has_begun() && (self.once || (self.single && self.hung)) {
            self.ended = true;
            return Ok(Pull::End);
        }
        if self.parts.begin() {
            self.hung = false;
            return Ok(Pull::Next);
        }
        self.idles += 1;
        Ok(Pull::Idle)
    }

    fn peer(&self) -> &[u8] {
        self.parts.peer()
    }

    fn hangup(&mut self) {
        self.hung = true;
    }
}
