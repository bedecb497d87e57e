// The trace of an open file.
ghost use Rattle.std.specs.Prelude.{◌≡◌, ◌≤◌, ◌<◌, ◌^◌, [], length, true, IfOk};
ghost use Rattle.sg_frame.specs.Framing.{fed, fresh};
ghost use Rattle.sg_route.specs.Offers.{SameRouter};
ghost use Rattle.sg_trace.specs.Pulling.{PullsTraced};
ghost use Rattle.sg_trace.specs.Traces.{TracesTo};
ghost use Rattle.sg_trace.specs.Opened.{IsTraceBegun};

use crate::saying::say_piece;
use crate::taking::take_items;
use crate::tracer::Tracer;
use crate::{FileReading, SentForm, Untraced};
use sg_device::{Inlet, NoMemory, Pull};
use sg_frame::Framer;
use sg_route::Router;
use sg_world::World;
use std::alloc::Global;

/// The bytes that a pull brings at most.
const PIECE: usize = 65_536;

/// The pulls that a trace makes at most.
const PULLS: u64 = 68_719_476_736;

/// Room for what a pull brings. A function of its own: the list of 65,536 zeros is kept out of the other
/// proofs.
pub(crate) fn make_buffer(alloc: Global) -> Result<Vec<u8>, NoMemory>
    ensures { IfOk result (λ buffer. 0 < length buffer.items) }
{
    vec![in alloc; 0u8; PIECE]
}

pub(crate) fn make_tracer(alloc: Global, reader: FileReading) -> Result<Tracer, NoMemory>
    requires { 0 < reader.limit }
    ensures { IfOk result (λ tracer. (tracer.framer ≡ fresh reader.kind reader.limit)
        × (tracer.number ≡ 0) × (tracer.text.items ≡ [])) }
{
    Ok(Tracer {
        framer: Framer::new(alloc, reader.kind, reader.limit)?,
        number: 0,
        bytes: Vec::new(alloc),
        text: Vec::new(alloc),
    })
}

// Pulls once, and feeds the framer. Tells whether the file has ended.
fn pull_once<I: Inlet>(
    feed: &mut I,
    framer: &mut Framer,
    buffer: &mut [u8],
) -> Result<bool, Untraced>
    requires room { 0 < length buffer.old }
    requires single { (I.state feed.old).single ≡ true }
    requires place { (I.state feed.old).place ≡ fed framer.old }
    ensures pulls { PullsTraced (I.state feed.old) (I.state feed.new) framer.old framer.new result }
    ensures later { (I.state feed.old).faults ≤ (I.state feed.new).faults }
    ensures size { length buffer.new ≡ length buffer.old }
{
    match feed.pull(buffer) {
        Ok(Pull::Bytes { len, at }) => {
            framer.feed(&buffer[..len], at)?;
            Ok(false)
        }
        Ok(Pull::Next) => Ok(false),
        Ok(Pull::Idle) => Ok(false),
        Ok(Pull::End) => Ok(true),
        Err(_) => Err(Untraced::InletFault),
    }
}

/// Says a line and a frame for each offer of the records that the file has. What isn't said yet is the
/// tracer's text.
pub(crate) fn trace_opened<W: World, R: Router>(
    alloc: Global,
    feed: &mut W::Feed,
    router: &mut R,
    reader: FileReading,
    targets: &[SentForm],
    tracer: &mut Tracer,
    buffer: &mut [u8],
    world: &mut W,
) -> Result<(), Untraced>
    requires room { 0 < length buffer.old }
    requires inlet { reader.inlet < R.inlets router.old }
    requires dests { R.dests router.old ≡ length targets.now }
    requires begun { IsTraceBegun reader.kind reader.limit (W.Feed.state feed.old) tracer.old }
    ensures traces { TracesTo (R.offers router.old reader.inlet) targets.now reader.kind
        reader.limit (W.Feed.state feed.old) (W.Feed.state feed.new) (W.state world.old)
        (W.state world.new) tracer.new.text.items result }
    ensures router { SameRouter (R.offers router.old) (R.offers router.new) (R.inlets router.old)
        (R.inlets router.new) (R.dests router.old) (R.dests router.new) }
{
    for _pull in 0..PULLS {
        if pull_once(feed, &mut tracer.framer, buffer)? {
            return Ok(());
        }
        let bad = take_items(alloc, router, reader, targets, feed.peer(), tracer)?;
        say_piece(alloc, &mut tracer.text, world)?;
        if bad {
            return Ok(());
        }
    }
    Err(Untraced::RoundsSpent)
}
