// A file traced through the log paths of a configuration.
ghost use Rattle.std.specs.Prelude.{◌≡◌};
ghost use Rattle.sg_daemon.specs.Tracing.{status_untraced, TracesCommand};

use crate::say::tell_unloaded;
use crate::status::Status;
use sg_run::{Device, End};
use sg_trace::{Unshown, Untraced, trace_input};
use sg_world::World;
use std::alloc::Global;

fn status_of(untraced: Untraced) -> Status
    ensures { result ≡ status_untraced untraced }
{
    match untraced {
        Untraced::NotOpened => Status::Ended(End::OpenFault(Device::Inlet(0))),
        Untraced::InletFault => Status::Ended(End::InletFault(0)),
        Untraced::RoundsSpent => Status::Ended(End::RoundsSpent),
        Untraced::SayFault => Status::SayFault,
        Untraced::NoMemory => Status::NoMemory,
    }
}

/// Says the offers of INPUT's records, read as the first driver of the source statement SOURCE would read
/// them, through the log paths of the configuration FILE, or what is wrong with that.
pub fn trace<W: World>(
    alloc: Global,
    file: &[u8],
    source: &[u8],
    input: &[u8],
    world: &mut W,
) -> Status
    ensures { TracesCommand (W.state world.old) (W.state world.new) file.now source.now input.now
        result }
{
    match trace_input(alloc, file, source, input, world) {
        Ok(()) => Status::Ended(End::Clean),
        Err(Unshown::Untraced(untraced)) => status_of(untraced),
        Err(Unshown::Unloaded(unloaded)) => tell_unloaded(alloc, file, unloaded, false, world),
    }
}
