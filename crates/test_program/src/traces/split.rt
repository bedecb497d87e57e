// Offers that a message's text decides.
ghost use Rattle.std.specs.Prelude.{◌≡◌, ◌≤◌, ◌≤ℤ◌, pos, length, IfOk};
ghost use Rattle.sg_msg.specs.Offers.{AllWithin};

use bytes::Bytes;
use sg_msg::{Message, Offer};
use sg_r3164::{ReadOpts, read};
use sg_route::Router;
use std::alloc::{AllocError, Global};

const OPTS: ReadOpts = ReadOpts {
    pri: 13,
    zone: 0,
    keep_hostname: true,
    keep_timestamp: true,
    parse: false,
};

#[derive(Clone, Copy, Drop)]
pub(crate) struct SplitTrace {
    pub(crate) count: u64,
}

fn offer(dest: u32, message: &Message, flow: bool) -> Result<Offer, AllocError>
    ensures { IfOk result (λ offer. offer.dest ≡ dest) }
{
    Ok(Offer {
        dest,
        message: message.share()?,
        flow,
    })
}

// The message of a record.
fn message(alloc: Global, item: Bytes, at: i64, peer: &[u8]) -> Result<Message, AllocError>
    requires { (pos 0 ≤ℤ at) × (at ≤ℤ pos 250_000_000_000_000_000) }
{
    let peer = Bytes::copy_from_slice(alloc, peer)?;
    read(alloc, item, at, &peer, &OPTS)
}

fn offers_of(alloc: Global, message: &Message, both: bool) -> Result<Vec<Offer>, AllocError>
    ensures bound { IfOk result (λ offers. length offers.items ≤ 1024) }
    ensures within { IfOk result (λ offers. AllWithin 2 offers.items) }
{
    let mut offers = Vec::new(alloc);
    offers.push(offer(0, message, false)?)?;
    if !both {
        return Ok(offers);
    }
    offers.push(offer(1, message, true)?)?;
    Ok(offers)
}

impl Router for SplitTrace {
    ghost inlets = { λ _. 1 };

    ghost dests = { λ _. 2 };

    ghost offers = { λ _ _ _ _. Unit {0} };

    fn route(
        &mut self,
        alloc: Global,
        _inlet: u32,
        item: Bytes,
        at: i64,
        peer: &[u8],
    ) -> Result<Vec<Offer>, AllocError> {
        if item.as_slice().contains(&b'x') {
            return Ok(Vec::new(alloc));
        }
        let both = item.as_slice().contains(&b'b');
        let message = message(alloc, item, at, peer)?;
        offers_of(alloc, &message, both)
    }
}
