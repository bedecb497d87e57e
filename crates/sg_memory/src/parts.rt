// What the peers of an inlet in memory send, in parts.
ghost use Rattle.std.specs.Prelude.{◌≡◌, ◌≤◌, ◌+◌, [], Some, None, is_some, min, take, length, vec_len, vec_capacity, IfOk};
ghost use Rattle.std.specs.Option.{option_map};
ghost use Rattle.sg_memory.specs.Part.{given_of, left_of, more, peer_of, size_of};

use crate::MemoryPart;
use sg_device::NoMemory;
use std::alloc::Global;
use std::collections::VecDeque;

/// The parts of an inlet: those that are over, the present one and those to come.
#[derive(Drop)]
pub struct MemoryParts {
    past: Vec<MemoryPart>,
    present: Option<MemoryPart>,
    waiting: VecDeque<MemoryPart>,
    ghost room: { vec_len past + length waiting.items ≤ vec_capacity past },
    ghost within: { given_of present ≤ size_of present },
}

impl MemoryParts {
    ghost use Rattle.sg_memory.specs.Parts.{BeginsPart};

    /// One part, which is there from the start.
    pub fn whole(alloc: Global, part: MemoryPart) -> MemoryParts
        requires { part.given ≡ 0 }
        ensures past { result.past.items ≡ [] }
        ensures present { result.present ≡ Some part }
        ensures waiting { result.waiting.items ≡ [] }
    {
        MemoryParts {
            past: Vec::new(alloc),
            present: Some(part),
            waiting: VecDeque::new(alloc),
        }
    }

    /// These parts, of which none has begun.
    pub fn waiting(alloc: Global, waiting: VecDeque<MemoryPart>) -> Result<MemoryParts, NoMemory>
        ensures past { IfOk result (λ parts. parts.past.items ≡ []) }
        ensures present { IfOk result (λ parts. parts.present ≡ None) }
        ensures waiting { IfOk result (λ parts. parts.waiting ≡ waiting) }
    {
        let past = Vec::with_capacity(alloc, waiting.len())?;
        Ok(MemoryParts {
            past,
            present: None,
            waiting,
        })
    }

    /// The peer of the present part, empty where none has begun.
    pub fn peer(&self) -> &[u8]
        ensures { result.now ≡ peer_of self.now.present }
    {
        match &self.present {
            Some(part) => part.peer.bytes(),
            None => b"",
        }
    }

    /// Whether a part has begun.
    pub fn has_begun(&self) -> bool
        ensures { result ≡ is_some self.now.present }
    {
        self.present.is_some()
    }

    /// The number of bytes left of the present part.
    pub fn left(&self) -> usize
        ensures { result ≡ length (left_of self.now.present) }
    {
        match &self.present {
            Some(part) => part.bytes.len() - part.given,
            None => 0,
        }
    }

    /// Gives at most a piece of the present part, and says how many bytes.
    pub fn give(&mut self, piece: usize, into: &mut [u8]) -> usize
        ensures size { length into.new ≡ length into.old }
        ensures value { result
            ≡ min (min (length (left_of self.old.present)) piece) (length into.old) }
        ensures front { take result into.new ≡ take result (left_of self.old.present) }
        ensures present { self.new.present ≡ option_map (more result) self.old.present }
        ensures past { self.new.past ≡ self.old.past }
        ensures waiting { self.new.waiting ≡ self.old.waiting }
    {
        match &mut self.present {
            Some(part) => part.give(piece, into),
            None => 0,
        }
    }

    /// Begins the next part, where there is one. What the present one had left is dropped.
    pub fn begin(&mut self) -> bool
        ensures { BeginsPart self.old self.new result }
    {
        let Some(mut next) = self.waiting.pop_front() else {
            return false;
        };
        next.given = 0;
        if let Some(part) = self.present.take() {
            let _ = self.past.push(part);
        }
        self.present = Some(next);
        true
    }
}
