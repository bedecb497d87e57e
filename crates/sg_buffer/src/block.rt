// Entries as blocks of a spool.
ghost use Rattle.std.specs.Prelude.{◌≡◌, ◌≤◌, ◌<◌, ◌+◌, ◌^◌, IfOk};
ghost use Rattle.sg_msg.specs.Length.{encoded_len};
ghost use Rattle.sg_codec.specs.Spelling.{IsSpellable, spelling2};

use sg_codec::{Kept, encode};
use sg_device::NoMemory;
use sg_spool::Block;
use std::alloc::Global;

/// The entry in format 2, ready to be written. Its length there is at most 2^30 + 64 bytes.
pub fn entry_block(alloc: Global, kept: &Kept) -> Result<Block, NoMemory>
    requires len { encoded_len kept.now.message ≤ 2 ^ 30 + 64 }
    requires end { kept.now.end < 2 ^ 63 }
    ensures spelled { IfOk result (λ block. block ≡ spelling2 kept.now) }
    ensures kept { IfOk result (λ _. IsSpellable kept.now) }
{
    let payload = encode(alloc, kept)?;
    Ok(Block::new(alloc, payload)?)
}
