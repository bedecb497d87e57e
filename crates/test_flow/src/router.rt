// A router that gives each record to one of two destinations.
ghost use Rattle.std.specs.Prelude.{◌≡◌};

use bytes::Bytes;
use sg_msg::{Message, Offer};
use sg_route::Router;
use sg_time::Stamp;
use std::alloc::{AllocError, Global};

const STAMP: Stamp = Stamp { at: 0, offset: 0 };

/// A message of this text.
pub fn message(alloc: Global, text: &[u8]) -> Result<Message, AllocError> {
    let mut message = Message::new(alloc, 13, STAMP, STAMP)?;
    match message.set(b"MESSAGE", text) {
        Ok(()) => Ok(message),
        Err(_) => Err(AllocError),
    }
}

/// A record that begins with 1 goes to destination 1, another one to destination 0, as it is.
#[derive(Drop)]
pub struct ByDigit {
    pub routed: u64,
}

impl Router for ByDigit {
    ghost inlets = { λ _. 2 };

    ghost dests = { λ _. 2 };

    ghost offers = { λ _ _ _ _. Unit {0} };

    fn route(
        &mut self,
        alloc: Global,
        _inlet: u32,
        item: Bytes,
        _at: i64,
        _peer: &[u8],
    ) -> Result<Vec<Offer>, AllocError> {
        self.routed = self.routed.saturating_add(1);
        let message = message(alloc, item.as_slice())?;
        let mut offers = Vec::new(alloc);
        let dest = if item.as_slice().first() == Some(&b'1') {
            1
        } else {
            0
        };
        offers.push(Offer {
            dest,
            message,
            flow: true,
        })?;
        Ok(offers)
    }
}
