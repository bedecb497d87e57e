// The peer of the last record.
ghost use Rattle.std.specs.Prelude.{◌≡◌, OnOk};

use bytes::Bytes;
use sg_msg::is_same;
use std::alloc::{AllocError, Global};

/// The peer of the last record, whose memory is shared with the next ones of the same.
#[derive(Drop)]
pub(crate) struct Peer {
    pub(crate) name: Bytes,
}

impl Peer {
    pub(crate) fn none() -> Peer {
        Peer { name: Bytes::new() }
    }

    /// Makes it this one.
    pub(crate) fn keep(&mut self, alloc: Global, name: &[u8]) -> Result<(), AllocError>
        ensures { OnOk result (self.new.name ≡ name.now) }
    {
        if is_same(self.name.as_slice(), name) {
            return Ok(());
        }
        self.name = Bytes::copy_from_slice(alloc, name)?;
        Ok(())
    }
}
