// Who gives the offers of a record.
ghost use Rattle.std.specs.Prelude.{◌<◌, ◌≤◌, ◌≤ℤ◌, ℕ, List, pos, length, IfOk};
ghost use Rattle.sg_msg.specs.declared.offer.Offer.{Offer as AnOffer};
ghost use Rattle.sg_frame.specs.Records.{Record};
ghost use Rattle.sg_route.specs.Offers.{SameRouter, record_at};
ghost use Rattle.sg_msg.specs.Offers.{AllWithin};

use bytes::Bytes;
use sg_msg::Offer;
use std::alloc::{AllocError, Global};

/// Gives the offers of records, each of an inlet.
pub trait Router {
    // How many inlets it knows.
    ghost inlets: { Self → ℕ };

    // How many destinations its offers may go to.
    ghost dests: { Self → ℕ };

    // The offers that a record of the inlet may have.
    ghost offers: { Self → ℕ → Record → List AnOffer → Type 0 };

    /// The offers of a record, in order: at most 1,024, each to a destination. Messages may share the
    /// item's memory.
    ///
    /// `at` is the moment of the pull, in microseconds since 1970-01-01T00:00:00Z, 0 to
    /// 250,000,000,000,000,000, and `peer` the name of who sent the record.
    fn route(
        &mut self,
        alloc: Global,
        inlet: u32,
        item: Bytes,
        at: i64,
        peer: &[u8],
    ) -> Result<Vec<Offer>, AllocError>
        requires inlet { inlet < inlets self.old }
        requires moment { (pos 0 ≤ℤ at) × (at ≤ℤ pos 250_000_000_000_000_000) }
        ensures offers { IfOk result
            (λ found. offers self.old inlet (record_at peer.now item at) found.items) }
        ensures bound { IfOk result (λ found. length found.items ≤ 1024) }
        ensures within { IfOk result (λ found. AllWithin (dests self.old) found.items) }
        ensures same { SameRouter (offers self.old) (offers self.new) (inlets self.old)
            (inlets self.new) (dests self.old) (dests self.new) };
}
