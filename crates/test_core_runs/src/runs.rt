// Runs of cores, step after step against their events.
ghost use Rattle.std.specs.Prelude.{◌≡◌, ◌≤◌, ◌<◌, ◌+◌, ◌^◌, length};
ghost use Rattle.test_core_runs.specs.Cores.{IsTried, IsSomewhere};

use crate::cores::{FIFO, FIRST, SECOND, WINDOW, open, setup};
use crate::draws::Draws;
use crate::steps::{RunSoFar, step};
use sg_core::{Core, CoreRefusal};
use sg_machine::{SourceTally, Tally, replay};
use sg_memory_disk::MemoryDisk;
use std::alloc::{AllocError, Global};

/// The positions of a source that a core may find in its store.
#[derive(Clone, Copy, Drop)]
pub(crate) struct Positions {
    pub(crate) stored: u64,
    /// The one that was to be stored as its store failed.
    pub(crate) tried: Option<u64>,
}

/// How a run ended.
#[derive(Drop)]
pub(crate) struct EndedRun {
    pub(crate) run: RunSoFar,
    pub(crate) positions: [Positions; 3],
    /// The core was opened.
    pub(crate) opened: bool,
    /// After so many steps.
    pub(crate) steps: u64,
    /// Whether each step was right.
    pub(crate) right: bool,
}

fn found_at(stored: u64) -> Positions {
    Positions {
        stored,
        tried: None,
    }
}

/// A run that has made no step, over stores of these positions.
pub(crate) fn unbegun(run: RunSoFar, positions: [u64; 3]) -> EndedRun {
    EndedRun {
        run,
        positions: [
            found_at(positions[0]),
            found_at(positions[1]),
            found_at(positions[2]),
        ],
        opened: true,
        steps: 0,
        right: true,
    }
}

// The replay counts so many records more.
fn is_source(source: Option<&SourceTally>, replayed: Option<&SourceTally>, brought: u64) -> bool {
    let (Some(source), Some(replayed)) = (source, replayed) else {
        return false;
    };
    source.records.saturating_add(brought) == replayed.records
        && source.mark == replayed.mark
        && source.stored == replayed.stored
}

fn are_sources(tally: &Tally, replayed: &Tally, brought: &[u64; 3]) -> bool {
    let mut same = tally.sources.len() == 3 && replayed.sources.len() == 3;
    for i in 0..3usize {
        let replayed = replayed.sources.get(i);
        same = same & is_source(tally.sources.get(i), replayed, brought[i]);
    }
    same
}

fn same(tally: &Tally, replayed: &Option<Tally>, brought: &[u64; 3]) -> bool {
    match replayed {
        Some(replayed) => {
            are_sources(tally, replayed, brought)
                && tally.dests.as_slice() == replayed.dests.as_slice()
        }
        None => false,
    }
}

// Whether the tally is that of the run's events.
fn is_replayed(alloc: Global, tally: &Tally, run: &RunSoFar) -> Result<bool, AllocError> {
    if run.events.len() > 10_000 {
        return Ok(false);
    }
    let setup = setup(alloc, WINDOW, FIFO, FIRST, SECOND)?;
    let replayed = replay(alloc, &setup, &run.events)?;
    Ok(same(tally, &replayed, &run.brought))
}

// What a core may find in the store of a source. Where it fails now, its mark was to be stored, or 0 by a source
// that was to begin anew.
fn positions_of(tally: &SourceTally, failed: bool, before: Positions) -> Positions {
    Positions {
        stored: tally.stored.unwrap_or(0),
        tried: match before.tried {
            None if failed && tally.records == 0 => Some(0),
            None if failed => Some(tally.mark),
            tried => tried,
        },
    }
}

fn look_at(tally: &Tally, run: &RunSoFar, positions: &mut [Positions; 3]) {
    for i in 0..3usize {
        if let Some(source) = tally.sources.get(i) {
            let failed = run.failed.contains(&(i as u32));
            positions[i] = positions_of(source, failed, positions[i]);
        }
    }
}

/// Makes so many steps, or stops behind the first one in which a store fails, where that is asked. Records end behind
/// that place.
pub(crate) fn run(
    alloc: Global,
    core: &mut Core<MemoryDisk>,
    begun: EndedRun,
    from: u64,
    seed: u64,
    steps: u64,
    brief: bool,
) -> Result<EndedRun, AllocError>
    requires tried { IsTried core.old }
    requires at { IsSomewhere core.old }
    requires from { from ≤ 20000 }
    requires steps { steps ≤ 1000 }
    requires few { core.old.calls + 2000 < 2 ^ 54 }
{
    let mut ended = begun;
    let mut draws = Draws::new(seed);
    for k in 0..steps {
        step(alloc, core, from + 10 * k + 10, &mut draws, &mut ended.run)?;
        let tally = core.tally(alloc)?;
        look_at(&tally, &ended.run, &mut ended.positions);
        ended.steps = k + 1;
        ended.right = ended.run.right & is_replayed(alloc, &tally, &ended.run)?;
        if !ended.right || (brief && !ended.run.failed.is_empty()) {
            return Ok(ended);
        }
    }
    Ok(ended)
}

/// A core over these disks, so many steps of a run that begins as that one, and the disks then. Where the core isn't
/// opened, that is to be for a disk that fails.
pub(crate) fn run_over(
    alloc: Global,
    disks: Vec<MemoryDisk>,
    begun: EndedRun,
    from: u64,
    seed: u64,
    steps: u64,
    brief: bool,
) -> Result<(EndedRun, Vec<MemoryDisk>), AllocError>
    requires disks { length disks.items ≡ 5 }
    requires from { from ≤ 20000 }
    requires steps { steps ≤ 1000 }
{
    let mut core = match open(alloc, WINDOW, FIFO, FIRST, SECOND, disks) {
        Ok(core) => core,
        Err((_, CoreRefusal::NoMemory)) => return Err(AllocError),
        Err((disks, refusal)) => {
            let mut ended = begun;
            ended.opened = false;
            ended.right = matches!(refusal, CoreRefusal::DiskFault(_));
            return Ok((ended, disks));
        }
    };
    let ended = run(alloc, &mut core, begun, from, seed, steps, brief);
    let disks = core.into_stores();
    Ok((ended?, disks))
}
