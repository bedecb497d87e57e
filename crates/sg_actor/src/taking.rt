// Items that become records to be admitted.
ghost use Rattle.std.specs.Prelude.{◌≡◌, ◌≤◌, ◌<◌, ◌+◌, ◌^◌, length, max};
ghost use Rattle.sg_route.specs.Offers.{SameRouter};
ghost use Rattle.sg_actor.specs.Sources.{source};
ghost use Rattle.sg_actor.specs.Steps.{IsSafe, KeepsAll, HasTakenRecords, TakesOne, TakesHeld, end_at};

use crate::SourceSpec;
use crate::reader::{Reader, look};
use sg_device::{Inlet, NoMemory};
use sg_frame::Framed;
use sg_list::Seq;
use sg_machine::Admission;
use sg_route::Router;
use std::alloc::Global;

/// The end of a record, by the place behind its item.
fn end_at(spec: &SourceSpec, end: u64) -> u64
    requires { spec.now.from + end < 2 ^ 63 }
    ensures { result ≡ end_at spec.now.stored spec.now.from end }
{
    if spec.stored { spec.from + end } else { 0 }
}

/// Holds the record of the item ahead, where there is one. Tells whether there was. Without memory
/// the item stays ahead.
fn take_item<R: Router, I: Inlet>(
    alloc: Global,
    spec: &SourceSpec,
    router: &mut R,
    inlet: &I,
    reader: &mut Reader,
) -> Result<bool, NoMemory>
    requires ready { IsSafe (R.dests router.old) spec.now (I.state inlet.now) reader.old }
    requires inlet { spec.now.inlet < R.inlets router.old }
    requires room { length reader.old.held < spec.now.fetch }
    ensures keeps { KeepsAll (R.offers router.old) (R.dests router.old) spec.now
        (I.state inlet.now) reader.old reader.new }
    ensures takes { TakesOne reader.old reader.new result }
    ensures taken { HasTakenRecords reader.old reader.new }
    ensures router { SameRouter (R.offers router.old) (R.offers router.new) (R.inlets router.old)
        (R.inlets router.new) (R.dests router.old) (R.dests router.new) }
{
    look(reader)?;
    let Framed::Item { bytes, end, at } = &reader.ahead else {
        return Ok(false);
    };
    let offers = router.route(alloc, spec.inlet, bytes.clone()?, *at, inlet.peer())?;
    let end = end_at(spec, *end);
    reader.held.push(Admission {
        end,
        offers: Seq::new(offers),
    })?;
    reader.ahead = Framed::More;
    Ok(true)
}

/// Holds the records of whole items until so many are held.
pub(crate) fn take_items<R: Router, I: Inlet>(
    alloc: Global,
    spec: &SourceSpec,
    router: &mut R,
    inlet: &I,
    reader: &mut Reader,
    most: usize,
) -> Result<(), NoMemory>
    requires ready { IsSafe (R.dests router.old) spec.now (I.state inlet.now) reader.old }
    requires inlet { spec.now.inlet < R.inlets router.old }
    requires most { most ≤ spec.now.fetch }
    ensures keeps { KeepsAll (R.offers router.old) (R.dests router.old) spec.now
        (I.state inlet.now) reader.old reader.new }
    ensures takes { TakesHeld most reader.new result }
    ensures few { length reader.new.held ≤ max (length reader.old.held) most }
    ensures taken { HasTakenRecords reader.old reader.new }
    ensures router { SameRouter (R.offers router.old) (R.offers router.new) (R.inlets router.old)
        (R.inlets router.new) (R.dests router.old) (R.dests router.new) }
{
    for _count in reader.held.len()..most {
        if !take_item(alloc, spec, router, inlet, reader)? {
            return Ok(());
        }
    }
    Ok(())
}
