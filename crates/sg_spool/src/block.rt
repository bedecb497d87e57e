// An entry, ready to be written.
ghost use Rattle.std.specs.Prelude.{◌≡◌, ◌+◌, ◌≤◌, ◌^◌, ◌∷◌, List, ℕ, length, take, drop, IfOk};
ghost use Rattle.std.specs.Int.{to_be_bytes, w32};
ghost use Rattle.sg_spool.specs.Ring.{IsPayload, block_of, payload_of};

use sg_device::NoMemory;
use std::alloc::{AllocError, Global};
use std::marker::Model;

/// An entry's bytes, ready to be written: an open gate, the length of the payload, the payload, and a
/// closed gate. Contracts see it as the payload.
#[derive(Drop)]
pub struct Block {
    bytes: Vec<u8>,
}

impl Model for Block {
    ghost Value = { List ℕ };

    ghost view = { λ b. payload_of b.bytes.items };

    ghost invariant = { λ b. IsPayload (payload_of b.bytes.items)
        × (b.bytes.items ≡ 1 ∷ block_of (payload_of b.bytes.items)) };
}

impl Block {
    /// The block of this payload, which has 1 to 2^30 + 64 bytes.
    pub fn new(alloc: Global, payload: Vec<u8>) -> Result<Block, NoMemory>
        requires some { 1 ≤ length payload.items }
        requires limit { length payload.items ≤ 2 ^ 30 + 64 }
        ensures { IfOk result (λ block. block ≡ payload.items) }
    {
        let bytes = spell(alloc, &payload)?;
        Ok(Block { bytes })
    }

    /// The length of the payload, in bytes.
    pub fn size(&self) -> u64
        ensures size { result ≡ length self.now }
        ensures payload { IsPayload self.now }
    {
        self.bytes.len() as u64 - 6
    }

    // The bytes, from the open gate on.
    pub(crate) fn bytes(&self) -> &[u8]
        ensures bytes { result.now ≡ 1 ∷ block_of self.now }
        ensures payload { IsPayload self.now }
    {
        &self.bytes
    }
}

// A payload between its gates.
fn spell(alloc: Global, payload: &[u8]) -> Result<Vec<u8>, AllocError>
    requires { length payload.now ≤ 2 ^ 30 + 64 }
    ensures { IfOk result (λ bytes. bytes.items ≡ 1 ∷ block_of payload.now) }
{
    let size = (payload.len() as u32).to_be_bytes();
    let mut bytes = Vec::with_capacity(alloc, payload.len() + 6)?;
    bytes.push(1)?;
    bytes.extend_from_slice(&size)?;
    bytes.extend_from_slice(payload)?;
    bytes.push(0)?;
    Ok(bytes)
}
