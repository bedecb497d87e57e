// What a peer of an inlet in memory sends.
ghost use Rattle.std.specs.Prelude.{◌≡◌, ◌≤◌, Some, min, take, length, IfOk};
ghost use Rattle.sg_memory.specs.Part.{left_of, more};

use crate::copying::copy_front;
use sg_device::{Name, NoMemory};
use std::alloc::Global;

/// What a peer sends in one part.
#[derive(Drop)]
pub struct MemoryPart {
    pub peer: Name,
    pub bytes: Vec<u8>,
    /// The number of bytes given.
    pub(crate) given: usize,
}

impl MemoryPart {
    /// These bytes, of which none was given.
    pub fn new(alloc: Global, peer: &[u8], bytes: Vec<u8>) -> Result<MemoryPart, NoMemory>
        ensures peer { IfOk result (λ part. part.peer ≡ peer.now) }
        ensures bytes { IfOk result (λ part. part.bytes ≡ bytes) }
        ensures given { IfOk result (λ part. part.given ≡ 0) }
    {
        Ok(MemoryPart {
            peer: Name::new(alloc, peer)?,
            bytes,
            given: 0,
        })
    }

    /// Gives at most a piece of what is left, and says how many bytes.
    pub fn give(&mut self, piece: usize, into: &mut [u8]) -> usize
        requires { self.old.given ≤ length self.old.bytes.items }
        ensures size { length into.new ≡ length into.old }
        ensures value { result
            ≡ min (min (length (left_of (Some self.old))) piece) (length into.old) }
        ensures front { take result into.new ≡ take result (left_of (Some self.old)) }
        ensures more { self.new ≡ more result self.old }
    {
        let left = self.bytes.len() - self.given;
        let len = left.min(piece).min(into.len());
        copy_front(into, &self.bytes[self.given..self.given + len]);
        self.given += len;
        len
    }
}
