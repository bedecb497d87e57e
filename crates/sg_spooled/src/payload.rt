// The entry that a payload spells.
ghost use Rattle.std.specs.Prelude.{◌≡◌, IfOk};
ghost use Rattle.sg_spooled.specs.Entries.{is_beyond};
ghost use Rattle.sg_spooled.specs.Walking.{IsRead};

use sg_codec::{CodecRefusal, Kept, decode};
use sg_device::NoMemory;
use std::alloc::{AllocError, Global};

// Whether the payload begins as an entry of format 1, and is longer than one in a store.
fn is_beyond(payload: &[u8]) -> bool
    ensures { result ≡ is_beyond payload.now }
{
    matches!(payload, [1, ..]) && payload.len() > 1 << 30
}

/// What a payload in a store is.
#[derive(Drop)]
pub(crate) enum SpooledPayload {
    /// An entry of a flow core.
    Entry(Kept),
    /// A frame that is held back.
    Frame,
    /// Neither.
    Other,
}

// What a payload in a store is.
pub(crate) fn read_payload(alloc: Global, payload: &[u8]) -> Result<SpooledPayload, NoMemory>
    ensures { IfOk result (IsRead payload.now) }
{
    if matches!(payload, [3, ..]) {
        return Ok(SpooledPayload::Frame);
    }
    if is_beyond(payload) {
        return Ok(SpooledPayload::Other);
    }
    match decode(alloc, payload) {
        Ok(kept) => Ok(SpooledPayload::Entry(kept)),
        Err(CodecRefusal::Damage(_)) => Ok(SpooledPayload::Other),
        Err(CodecRefusal::NoMemory) => Err(AllocError),
    }
}
