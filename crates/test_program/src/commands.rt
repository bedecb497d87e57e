// Commands over a machine in memory, whose configuration is the file `c`.
ghost use Rattle.std.specs.Prelude.{◌≤◌, ◌<◌, ◌^◌};

use sg_daemon::{Unchecked, check_file};
use sg_loaded::Unloaded;
use sg_run::{Outcome, run_file};
use sg_world::MemoryMachine;
use std::alloc::Global;
use std::sync::Wait;
use std::thread::Threads;

/// What `check` comes to.
pub(crate) fn check(alloc: Global, machine: &mut MemoryMachine) -> Result<(), Unchecked> {
    check_file(alloc, b"c", machine)
}

/// What a run of so many rounds with `--once` comes to.
pub(crate) fn run<T: Threads + Wait + Eprint + Sync>(
    rt: &T,
    alloc: Global,
    rounds: u64,
    machine: &mut MemoryMachine,
) -> Result<Outcome, Unloaded>
    requires some { 0 < rounds }
    requires rounds { rounds ≤ 2 ^ 36 }
{
    run_file(rt, alloc, b"c", true, rounds, machine)
}
