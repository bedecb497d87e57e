// Items that become records, and the lines of their offers.
ghost use Rattle.std.specs.Prelude.{◌≡◌, ◌≤◌, ◌<◌, ◌≤ℤ◌, ◌+◌, ◌++◌, ◌^◌, pos, length, List, IfOk, OnOk};
ghost use Rattle.sg_msg.specs.declared.offer.Offer.{Offer as AnOffer};
ghost use Rattle.sg_frame.specs.Framing.{fed};
ghost use Rattle.sg_route.specs.Offers.{record_at, SameRouter};
ghost use Rattle.sg_trace.specs.Rows.{offers_text};
ghost use Rattle.sg_trace.specs.Taking.{TakesAllItems};
ghost use Rattle.sg_frame.specs.Timely.{AreTimely};

use crate::lines::append_offers;
use crate::tracer::Tracer;
use crate::{FileReading, SentForm};
use bytes::Bytes;
use sg_device::NoMemory;
use sg_frame::Framed;
use sg_route::Router;
use std::alloc::{AllocError, Global};

// Appends the lines of a record's offers.
fn trace_record<R: Router>(
    alloc: Global,
    router: &mut R,
    inlet: u32,
    targets: &[SentForm],
    peer: &[u8],
    item: Bytes,
    at: i64,
    tracer: &mut Tracer,
) -> Result<(), NoMemory>
    requires inlet { inlet < R.inlets router.old }
    requires dests { R.dests router.old ≡ length targets.now }
    requires moment { (pos 0 ≤ℤ at) × (at ≤ℤ pos 250_000_000_000_000_000) }
    ensures traced { OnOk result ((offers : List AnOffer)
        × (R.offers router.old inlet (record_at peer.now item at) offers
        × (tracer.new.text.items ≡ tracer.old.text.items
        ++ offers_text targets.now tracer.old.number offers))) }
    ensures rest { (tracer.new.framer ≡ tracer.old.framer)
        × (tracer.new.number ≡ tracer.old.number) }
    ensures router { SameRouter (R.offers router.old) (R.offers router.new) (R.inlets router.old)
        (R.inlets router.new) (R.dests router.old) (R.dests router.new) }
{
    let offers = router.route(alloc, inlet, item, at, peer)?;
    let number = tracer.number;
    append_offers(
        alloc,
        number,
        &offers,
        targets,
        &mut tracer.bytes,
        &mut tracer.text,
    )?;
    Ok(())
}

/// Takes the whole items that are left, and appends the lines of their offers. Tells whether a bad count
/// stands behind them.
pub(crate) fn take_items<R: Router>(
    alloc: Global,
    router: &mut R,
    reader: FileReading,
    targets: &[SentForm],
    peer: &[u8],
    tracer: &mut Tracer,
) -> Result<bool, NoMemory>
    requires inlet { reader.inlet < R.inlets router.old }
    requires dests { R.dests router.old ≡ length targets.now }
    requires timely { AreTimely tracer.old.framer.held }
    requires room { tracer.old.number ≤ tracer.old.framer.place }
    requires range { fed tracer.old.framer < 2 ^ 63 }
    ensures takes { IfOk result
        (TakesAllItems (R.offers router.old reader.inlet) targets.now peer.now tracer.old tracer.new) }
    ensures router { SameRouter (R.offers router.old) (R.offers router.new) (R.inlets router.old)
        (R.inlets router.new) (R.dests router.old) (R.dests router.new) }
{
    'items: for _item in 0..u64::MAX {
        match tracer.framer.next()? {
            Framed::Item { bytes, at, .. } => {
                trace_record(
                    alloc,
                    router,
                    reader.inlet,
                    targets,
                    peer,
                    bytes,
                    at,
                    tracer,
                )?;
                tracer.number += 1;
            }
            Framed::More => return Ok(false),
            Framed::BadFrame(_) => return Ok(true),
        }
    }
    Err(AllocError)
}
