// The block of an offer's entry.
ghost use Rattle.std.specs.Prelude.{◌≡◌, ◌<◌, ◌^◌, IfOk, IsSome};
ghost use Rattle.sg_codec.specs.Spelling.{IsSpellable};
ghost use Rattle.sg_sinks.specs.Blocks.{is_short_entry, block_of_offer, kept_of_offer};

use sg_buffer::entry_block;
use sg_codec::Kept;
use sg_device::NoMemory;
use sg_machine::BufferSetup;
use sg_msg::{Message, Offer, less_entry};
use sg_spool::Block;
use std::alloc::Global;

fn is_short(message: &Message) -> bool
    ensures { result ≡ is_short_entry message.now }
{
    less_entry((1 << 30) + 64, message).is_some()
}

/// The block of an offer's entry, of the record of that inlet with that end: where there is a
/// disk-buffer, and the entry isn't longer than one may be.
pub fn offer_block(
    alloc: Global,
    buffer: Option<BufferSetup>,
    inlet: u32,
    end: u64,
    offer: &Offer,
) -> Result<Option<Block>, NoMemory>
    requires { end < 2 ^ 63 }
    ensures block { IfOk result (λ block. block ≡ block_of_offer buffer inlet end offer.now) }
    ensures kept { IfOk result
        (λ block. IsSome block → IsSpellable (kept_of_offer inlet end offer.now)) }
{
    if buffer.is_none() || !is_short(&offer.message) {
        return Ok(None);
    }
    let kept = Kept {
        source: inlet,
        end,
        flow: offer.flow,
        message: offer.message.share()?,
    };
    Ok(Some(entry_block(alloc, &kept)?))
}
