// What an opening finds.
ghost use Rattle.std.specs.Prelude.{◌≡◌, ◌≤◌, ◌^◌, [], false, ◌++◌, ◌∷◌, OnOk};
ghost use Rattle.sg_msg.specs.Length.{encoded_len};
ghost use Rattle.sg_buffer.specs.Heads.{head_of};

use sg_codec::{Kept, encoded_len};
use std::alloc::{AllocError, Global};

/// An entry without its message: what a core keeps of one that stands on the disk.
#[derive(Clone, Copy, PartialEq, Eq, Drop)]
pub struct EntryHead {
    /// The number of the inlet that its record came by.
    pub source: u32,
    /// The place behind its record at that inlet, below 2^63.
    pub end: u64,
    /// Flow-controlled: the source waits for it.
    pub flow: bool,
    /// The length of the entry in format 2, in bytes.
    pub length: u64,
}

/// The entries of a disk-buffer.
#[derive(Drop)]
pub struct BufferEntries {
    /// In the order of the list.
    pub heads: Vec<EntryHead>,
    /// Whether one of them is spelled in format 1.
    pub older: bool,
    /// What they take in format 2, 5 bytes and its length for each; 2^64 - 1 where that is more.
    pub size: u64,
}

impl EntryHead {
    pub(crate) fn of(kept: &Kept) -> EntryHead
        requires { encoded_len kept.now.message ≤ 2 ^ 62 }
        ensures { result ≡ head_of kept.now }
    {
        EntryHead {
            source: kept.source,
            end: kept.end,
            flow: kept.flow,
            length: encoded_len(kept),
        }
    }
}

impl BufferEntries {
    // Nothing yet.
    pub(crate) fn none(alloc: Global) -> BufferEntries
        ensures heads { result.heads.items ≡ [] }
        ensures older { result.older ≡ false }
        ensures size { result.size ≡ 0 }
    {
        BufferEntries {
            heads: Vec::new(alloc),
            older: false,
            size: 0,
        }
    }

    pub(crate) fn push(&mut self, head: EntryHead) -> Result<(), AllocError>
        ensures heads { OnOk result (self.new.heads.items ≡ self.old.heads.items ++ head ∷ []) }
        ensures older { self.new.older ≡ self.old.older }
        ensures size { self.new.size ≡ self.old.size }
    {
        self.heads.push(head)?;
        Ok(())
    }
}
