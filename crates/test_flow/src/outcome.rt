// What a run of two files came to.
ghost use Rattle.std.specs.Prelude.{◌≡◌};
ghost use Rattle.sg_standing.specs.States.{setup_of};
ghost use Rattle.test_flow.specs.Runs.{two_files};

use crate::lists::close_sources;
use crate::router::ByDigit;
use sg_actor::DestActor;
use sg_core::Core;
use sg_device::NoMemory;
use sg_engine::{Ended, Served};
use sg_memory::{MemoryInlet, MemoryOutlet};
use sg_memory_disk::MemoryDisk;
use std::alloc::{AllocError, Global};
use std::collections::VecDeque;

/// How a run ended, what its destinations took, with `| ` behind the frames of each, and the stored
/// position of each file.
#[derive(Drop)]
pub struct FlowOutcome {
    pub end: &'static str,
    pub frames: Vec<u8>,
    pub positions: (u64, u64),
}

impl FlowOutcome {
    /// Whether these are the positions, parted by a space.
    pub fn has_positions(&self, words: &str) -> bool {
        match words.split_once(' ') {
            Some((first, second)) => {
                is_number(first, self.positions.0) && is_number(second, self.positions.1)
            }
            None => false,
        }
    }
}

fn is_number(word: &str, number: u64) -> bool {
    match word.parse::<u64>() {
        Ok(read) => read == number,
        Err(_) => false,
    }
}

fn name(ended: Ended) -> &'static str {
    match ended {
        Ended::Quiet => "quiet",
        Ended::RoundsSpent => "spent",
        Ended::NoMemory => "memory",
    }
}

fn add_frames(frames: &mut Vec<u8>, outlet: &MemoryOutlet) -> bool {
    frames.extend_from_slice(outlet.frames().bytes()).is_ok()
        && frames.extend_from_slice(b"| ").is_ok()
}

fn taken(alloc: Global, dests: Vec<DestActor<MemoryOutlet>>) -> Result<Vec<u8>, NoMemory> {
    let mut frames = Vec::new(alloc);
    let mut fits = true;
    let mut rest = VecDeque::from(dests);
    while let Some(dest) = rest.pop_front() {
        let outlet = dest.into_outlet();
        fits = add_frames(&mut frames, &outlet) && fits;
    }
    rest.destroy_empty();
    if fits { Ok(frames) } else { Err(AllocError) }
}

fn positions(core: Core<MemoryDisk>) -> (u64, u64)
    requires { setup_of core ≡ two_files }
{
    let first = core.position(0);
    let second = core.position(1);
    let _disks = core.into_stores();
    (first, second)
}

/// Ends a run, and says what came of it.
pub fn finish(
    alloc: Global,
    served: Served<ByDigit, MemoryInlet, MemoryOutlet, MemoryDisk>,
) -> Result<FlowOutcome, NoMemory>
    requires { setup_of served.core ≡ two_files }
{
    let Served {
        ended,
        core,
        sources,
        dests,
    } = served;
    close_sources(sources);
    let positions = positions(core);
    Ok(FlowOutcome {
        end: name(ended),
        frames: taken(alloc, dests)?,
        positions,
    })
}
