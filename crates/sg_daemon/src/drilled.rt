// What a drill does.
ghost use Rattle.std.specs.Prelude.{◌≤◌, IfOk};
ghost use Rattle.sg_memory.specs.World.{world_of};
ghost use Rattle.sg_daemon.specs.Drilled.{AreDrillFiles, RunsClean, Drills};

use sg_device::NoMemory;
use sg_drill::drill_input;
use sg_memory::{MemoryFile, MemoryWorld, Pace};
use sg_run::{End, Outcome, run_file};
use sg_words::MOST_ROUNDS;
use sg_world::MemoryMachine;
use std::alloc::{AllocError, Global};
use std::sync::Wait;
use std::thread::Threads;

const CONFIG: &[u8] =
    b"@version: 4.2\nsource s { file(\"drill\"); };\ndestination hot { file(\"hot\" disk-buffer(reliable(yes) disk-buf-size(1048576))); };\ndestination rest { file(\"rest\"); };\nlog { source(s); filter { level(err .. emerg); }; destination(hot); flags(final flow-control); };\nlog { source(s); destination(rest); flags(flow-control); };\n";

// The moment of all bytes, in microseconds since 1970: 2026-02-05T17:32:21Z.
const MOMENT: i64 = 1_770_312_741_000_000;

// The bytes of a piece.
const PIECE: usize = 4_096;

// The input and the configuration.
fn drill_files(alloc: Global, records: u64) -> Result<Vec<MemoryFile>, NoMemory>
    requires { records ≤ 100000 }
    ensures { IfOk result (λ files. AreDrillFiles records files.items) }
{
    let input = drill_input(alloc, records)?;
    let mut files = Vec::new(alloc);
    files.push(MemoryFile::new(alloc, b"drill", &input)?)?;
    files.push(MemoryFile::new(alloc, b"drill.conf", CONFIG)?)?;
    Ok(files)
}

// Runs the configuration over this machine, which ends clean or for lack of memory.
fn run_clean<T: Threads + Wait + Eprint + Sync>(
    rt: &T,
    alloc: Global,
    machine: &mut MemoryMachine,
) -> Result<Outcome, NoMemory>
    ensures { RunsClean (world_of machine.old.world) (world_of machine.new.world) result }
{
    match run_file(rt, alloc, b"drill.conf", true, MOST_ROUNDS, machine) {
        Ok(outcome) => match outcome.end {
            End::Clean => Ok(outcome),
            _ => Err(AllocError),
        },
        Err(_) => Err(AllocError),
    }
}

/// Makes the input of so many records, 1 to 100,000, runs the configuration of a drill on it over devices in
/// memory, with `--once`, and answers the report. A machine in memory of which no call is to fail ends a
/// run otherwise for lack of memory alone.
pub fn run_drill<T: Threads + Wait + Eprint + Sync>(
    rt: &T,
    alloc: Global,
    records: u64,
) -> Result<Outcome, NoMemory>
    requires { records ≤ 100000 }
    ensures { Drills records result }
{
    let files = drill_files(alloc, records)?;
    let pace = Pace {
        piece: PIECE,
        at: MOMENT,
    };
    let mut machine = MemoryMachine {
        world: MemoryWorld::new(alloc, files, pace),
    };
    run_clean(rt, alloc, &mut machine)
}
