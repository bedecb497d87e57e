// A frame as an entry of the store: the byte 3, and the frame.
ghost use Rattle.std.specs.Prelude.{◌≡◌, ◌≤◌, ◌+◌, ◌^◌, length, IfOk};
ghost use Rattle.sg_overflow.specs.Payload.{tagged, untagged, is_tagged};

use sg_device::NoMemory;
use sg_spool::Block;
use std::alloc::Global;

/// The entry of a frame.
pub(crate) fn block_of(alloc: Global, frame: &[u8]) -> Result<Block, NoMemory>
    requires { length frame.now + 1 ≤ 2 ^ 30 }
    ensures { IfOk result (λ block. block ≡ tagged frame.now) }
{
    let mut payload = Vec::with_capacity(alloc, frame.len() + 1)?;
    payload.push(3)?;
    payload.extend_from_slice(frame)?;
    Block::new(alloc, payload)
}

/// The frame of a payload, which is all behind its first byte.
pub(crate) fn frame_of(payload: &[u8]) -> &[u8]
    ensures { result.now ≡ untagged payload.now }
{
    match payload {
        [_, frame @ ..] => frame,
        [] => payload,
    }
}

/// Whether it is the payload of a frame.
pub(crate) fn is_tagged(payload: &[u8]) -> bool
    ensures { result ≡ is_tagged payload.now }
{
    match payload {
        [first, ..] => *first == 3,
        [] => false,
    }
}
