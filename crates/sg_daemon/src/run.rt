// A configuration run.
ghost use Rattle.std.specs.Prelude.{◌≤◌, ◌<◌, ◌^◌};
ghost use Rattle.sg_daemon.specs.Running.{RunsCommand};
ghost use Rattle.sg_daemon.specs.Said.{ConcludesCommand};
ghost use Rattle.sg_daemon.specs.declared.status.Status.TheVariants.{Ended};
ghost use Rattle.sg_serve.specs.Exits.{way_of};

use crate::say::{conclude, tell_unloaded};
use crate::status::Status;
use sg_run::{Outcome, run_file};
use sg_world::World;
use std::alloc::Global;
use std::sync::Wait;
use std::thread::Threads;

/// Says what a run came to.
pub(crate) fn tell_outcome<W: World>(alloc: Global, outcome: Outcome, world: &mut W) -> Status
    ensures { ConcludesCommand (W.state world.old) (W.state world.new) (Ended outcome.end)
        outcome.text.items result }
{
    conclude(alloc, Status::Ended(outcome.end), &outcome.text, world)
}

/// Runs the configuration FILE, so many rounds at most, and says how that ended.
pub fn run<T: Threads + Wait + Eprint + Sync, W: World>(
    rt: &T,
    alloc: Global,
    file: &[u8],
    once: bool,
    rounds: u64,
    world: &mut W,
) -> Status
    requires some { 0 < rounds }
    requires rounds { rounds ≤ 2 ^ 36 }
    ensures { RunsCommand W.Feed.state (way_of W.Drain.state W.Paths.state W.Store.state)
        (W.state world.old) (W.state world.new)
        file.now once rounds result }
{
    match run_file(rt, alloc, file, once, rounds, world) {
        Ok(outcome) => tell_outcome(alloc, outcome, world),
        Err(unloaded) => tell_unloaded(alloc, file, unloaded, false, world),
    }
}
