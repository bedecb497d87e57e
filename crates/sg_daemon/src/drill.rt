// A drill.
ghost use Rattle.std.specs.Prelude.{◌≤◌};
ghost use Rattle.sg_daemon.specs.Drilling.{DrillsCommand};

use crate::drilled::run_drill;
use crate::run::tell_outcome;
use crate::status::Status;
use sg_world::World;
use std::alloc::Global;
use std::sync::Wait;
use std::thread::Threads;

/// Runs a fixed configuration on so many records over a machine in memory, and says how that ended.
pub fn drill<T: Threads + Wait + Eprint + Sync, W: World>(
    rt: &T,
    alloc: Global,
    records: u64,
    world: &mut W,
) -> Status
    requires records { records ≤ 100000 }
    ensures { DrillsCommand (W.state world.old) (W.state world.new) records result }
{
    match run_drill(rt, alloc, records) {
        Ok(outcome) => tell_outcome(alloc, outcome, world),
        Err(_) => Status::NoMemory,
    }
}
