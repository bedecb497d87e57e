// A file traced through what a router offers for its records.
ghost use Rattle.std.specs.Prelude.{◌≡◌, ◌<◌, ◌++◌, length, OnOk};
ghost use Rattle.sg_route.specs.Offers.{SameRouter};
ghost use Rattle.sg_trace.specs.Traces.{EndsTracing, Traces, end_text};

use crate::opened::{make_buffer, make_tracer, trace_opened};
use crate::saying::say;
use crate::{FileReading, SentForm, Untraced};
use sg_device::{Name, NoMemory, OpenRefusal};
use sg_outside::InletSpec;
use sg_report::unopened_text;
use sg_route::Router;
use sg_world::World;
use std::alloc::Global;

// Appends what tells how a trace ended.
fn append_end(
    alloc: Global,
    traced: Result<(), Untraced>,
    text: &mut Vec<u8>,
) -> Result<(), NoMemory>
    ensures { OnOk result (text.new.items ≡ text.old.items ++ end_text traced) }
{
    match traced {
        Ok(()) => Ok(()),
        Err(Untraced::NotOpened) => unopened_text(alloc, "inlet", 0, text),
        Err(Untraced::InletFault) => text.extend_from_slice(b"inlet 0 failed\n"),
        Err(Untraced::RoundsSpent) => Ok(()),
        Err(Untraced::SayFault) => Ok(()),
        Err(Untraced::NoMemory) => Ok(()),
    }
}

// Says the rest of the text and how the trace ended, but where saying has failed or memory ran out.
fn end<W: World>(
    alloc: Global,
    traced: Result<(), Untraced>,
    text: &mut Vec<u8>,
    world: &mut W,
) -> Result<(), Untraced>
    ensures { EndsTracing (W.state world.old) (W.state world.new) text.old.items traced result }
{
    if let Err(Untraced::SayFault) = traced {
        return Err(Untraced::SayFault);
    }
    if let Err(Untraced::NoMemory) = traced {
        return Err(Untraced::NoMemory);
    }
    append_end(alloc, traced, text)?;
    say(alloc, text, world)?;
    match traced {
        Ok(()) => Ok(()),
        Err(untraced) => Err(untraced),
    }
}

/// Says a line and its destination's frame for each offer of the records of the file INPUT, in order, as
/// the inlet of the reader's number would take them in. The file is read from its beginning up to its end
/// or to a bad octet count, and by at most 68,719,476,736 pulls. A refusal is said behind the offers
/// before it; where a text couldn't be said, or memory ran out, nothing more is. About 16 KiB of text
/// and the frames of one pull are kept at a time.
pub fn trace_file<W: World, R: Router>(
    alloc: Global,
    input: &[u8],
    router: &mut R,
    reader: FileReading,
    targets: &[SentForm],
    world: &mut W,
) -> Result<(), Untraced>
    requires inlet { reader.inlet < R.inlets router.old }
    requires dests { R.dests router.old ≡ length targets.now }
    requires limit { 0 < reader.limit }
    ensures { Traces (R.offers router.old reader.inlet) targets.now reader.kind reader.limit
        (W.state world.old) (W.state world.new) input.now result }
{
    let spec = InletSpec::File {
        path: Name::new(alloc, input)?,
        once: true,
        limit: reader.limit,
    };
    let mut tracer = make_tracer(alloc, reader)?;
    let mut buffer = make_buffer(alloc)?;
    match world.open_inlet(alloc, &spec, 0) {
        Ok((feed, _place)) => {
            let mut feed = feed;
            let traced = trace_opened(
                alloc,
                &mut feed,
                router,
                reader,
                targets,
                &mut tracer,
                &mut buffer,
                world,
            );
            let result = end(alloc, traced, &mut tracer.text, world);
            world.close_inlet(feed);
            result
        }
        Err(OpenRefusal::Failed) => {
            end(alloc, Err(Untraced::NotOpened), &mut tracer.text, world)
        }
        Err(OpenRefusal::NoMemory) => Err(Untraced::NoMemory),
    }
}
