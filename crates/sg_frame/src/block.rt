// The bytes that a framer keeps.
ghost use Rattle.std.specs.Prelude.{◌≡◌, ◌≤◌, ◌<◌, ◌^◌, ◌++◌, [], length, take, drop, IfOk, OnOk, OnErr};

use bytes::Bytes;
use std::alloc::{AllocError, AllocFailed, Global};
use std::marker::Model;
use std::mem::replace;

/// Where they stand.
#[derive(Drop)]
pub enum KeptPart {
    /// In a list that grows, as long as no item of them is known.
    Fed(Vec<u8>),
    /// In a block that its items share.
    Shared(Bytes),
}

/// The bytes that a framer keeps. Those that were fed stand in a list, until the first item of them is
/// known: then they are a block, which its items share. What is left of a block when more is fed goes
/// to the front of the next list.
pub(crate) struct KeptBytes {
    alloc: Global,
    part: KeptPart,
}

impl Drop for KeptBytes {
    fn drop(self) {
        let KeptBytes {
            alloc: _alloc,
            part: _part,
        } = self;
    }
}

impl Model for KeptBytes {
    ghost use Rattle.std.specs.Prelude.{ℕ, List};
    ghost use Rattle.sg_frame.specs.Kept.{part_items};

    ghost Value = { List ℕ };

    ghost view = { λ k. part_items k.part };
}

impl KeptBytes {
    /// No bytes. It takes no memory.
    pub(crate) fn new(alloc: Global) -> KeptBytes
        ensures { result ≡ [] }
    {
        KeptBytes {
            alloc,
            part: KeptPart::Fed(Vec::new(alloc)),
        }
    }

    pub(crate) fn as_slice(&self) -> &[u8]
        ensures { result.now ≡ self.now }
    {
        match &self.part {
            KeptPart::Fed(list) => list.as_slice(),
            KeptPart::Shared(block) => block.as_slice(),
        }
    }

    pub(crate) fn len(&self) -> usize
        ensures value { result ≡ length self.now }
        ensures bound { result < 2 ^ 63 }
    {
        self.as_slice().len()
    }

    /// Adds bytes at the end.
    pub(crate) fn extend_from_slice(&mut self, piece: &[u8]) -> Result<(), AllocError>
        ensures ok { OnOk result (self.new ≡ self.old ++ piece.now) }
        ensures err { OnErr result (self.new ≡ self.old) }
    {
        let list = match &mut self.part {
            KeptPart::Fed(list) => return list.extend_from_slice(piece),
            KeptPart::Shared(block) => joined(self.alloc, block.as_slice(), piece)?,
        };
        self.part = KeptPart::Fed(list);
        Ok(())
    }

    // Takes so many bytes off the front of this block, which is what is kept then.
    fn split(&mut self, block: Bytes, n: usize) -> Result<Bytes, AllocError>
        requires { n ≤ length block }
        ensures front { IfOk result (λ front. front ≡ take n block) }
        ensures rest { OnOk result (self.new ≡ drop n block) }
        ensures err { OnErr result (self.new ≡ block) }
    {
        let mut rest = block;
        let front = rest.split_to(n);
        self.part = KeptPart::Shared(rest);
        front
    }

    /// Takes so many bytes off the front.
    pub(crate) fn freeze_to(&mut self, n: usize) -> Result<Bytes, AllocError>
        requires { n ≤ length self.old }
        ensures front { IfOk result (λ front. front ≡ take n self.old) }
        ensures rest { OnOk result (self.new ≡ drop n self.old) }
        ensures err { OnErr result (self.new ≡ self.old) }
    {
        match replace(&mut self.part, KeptPart::Shared(Bytes::new())) {
            KeptPart::Shared(block) => self.split(block, n),
            KeptPart::Fed(list) => match Bytes::from_vec(list) {
                Ok(block) => self.split(block, n),
                Err(AllocFailed { value }) => {
                    self.part = KeptPart::Fed(value);
                    Err(AllocError)
                }
            },
        }
    }

    pub(crate) fn clear(&mut self)
        ensures { self.new ≡ [] }
    {
        self.part = KeptPart::Fed(Vec::new(self.alloc));
    }
}

// Both, one behind the other, with room for no more.
fn joined(alloc: Global, front: &[u8], piece: &[u8]) -> Result<Vec<u8>, AllocError>
    ensures { IfOk result (λ list. list.items ≡ front.now ++ piece.now) }
{
    let mut list = Vec::with_capacity(alloc, front.len().saturating_add(piece.len()))?;
    list.extend_from_slice(front)?;
    list.extend_from_slice(piece)?;
    Ok(list)
}
