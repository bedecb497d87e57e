// The rounds of a run.
ghost use Rattle.std.specs.Prelude.{◌≡◌, ◌≤◌, ◌<◌, ◌*◌, length};
ghost use Rattle.sg_booth.specs.Desks.{first_desk};
ghost use Rattle.sg_standing.specs.States.{setup_of};
ghost use Rattle.sg_turns.specs.Actors.{AreFewActors, AreSources, AreDests, SourceTook, DestTook};
ghost use Rattle.sg_crew.specs.Workers.{actors_of, AreCrew};
ghost use Rattle.sg_crew.specs.Crews.{HasServed, IsFirstSeat};

use crate::meeting::WORTH;
use crate::phase::{MOST, Phase, take_phase};
use crate::watch::{Watch, look_if_due};
use crate::worker::Worker;
use sg_actor::{DestActor, SourceActor};
use sg_device::{Disk, Inlet, Outlet};
use sg_hub::{Hub, Seat};
use sg_outside::Machine;
use sg_route::Router;
use sg_turns::Ended;
use std::alloc::Global;
use std::sync::Wait;
use std::thread::Threads;

// In how many phases threads aren't tried again that couldn't be had, at first and at most.
const SHORTEST: u64 = 1_000;

const LONGEST: u64 = 1_000_000;

// How long threads that couldn't be had aren't tried again.
#[derive(Clone, Copy, Drop)]
struct Pause {
    // The phases that are left.
    left: u64,
    // How many they are where threads can't be had the next time.
    next: u64,
}

impl Pause {
    fn none() -> Pause {
        Pause {
            left: 0,
            next: SHORTEST,
        }
    }

    // Behind a phase. Each pause is twice as long as the one before, until threads can be had.
    fn after(self, phase: Phase) -> Pause {
        if phase.alone {
            return Pause {
                left: self.next,
                next: self.next.saturating_mul(2).min(LONGEST),
            };
        }
        if self.left > 0 {
            return Pause {
                left: self.left - 1,
                next: self.next,
            };
        }
        if phase.beside { Pause::none() } else { self }
    }
}

// On how many threads the turns behind a phase are taken, where there may be so many: on this one where too few records
// were spread over sources, unless the phase ended for its length alone.
fn threads_after(phase: Phase, threads: usize, pause: Pause) -> usize {
    if pause.left > 0 || (phase.spread < WORTH && phase.rounds < MOST) {
        1
    } else {
        threads
    }
}

// How many rounds a phase has at most where so many are left: one on this thread, and on threads all but one, so that
// the last round is a phase of its own; and no more than the watch lets pass between two looks.
fn rounds_of(left: u64, threads: usize, most: u64) -> u64
    requires left { 0 < left }
    requires most { 0 < most }
    ensures some { 0 < result }
    ensures left { result ≤ left }
    ensures last { 1 < result → result < left }
{
    if threads < 2 {
        return 1;
    }
    if left < 3 {
        return 1;
    }
    (left - 1).min(MOST).min(most)
}

/// Runs so many rounds at most. The first quiet one is the last, and so is one in which a turn finds no
/// memory.
pub(crate) fn run_rounds<
    T: Threads + Wait + Eprint + Sync,
    R: Router + Send + Drop,
    I: Inlet + Send,
    O: Outlet + Send,
    D: Disk + Send,
    W: Machine,
    V: Watch<W>,
>(
    rt: &T,
    alloc: Global,
    hub: &Hub<D>,
    first: &mut Seat<D>,
    sources: &mut Vec<Worker<SourceActor<R, I>, D>>,
    dests: &mut Vec<Worker<DestActor<O>, D>>,
    rounds: u64,
    threads: usize,
    watch: &mut V,
    world: &mut W,
) -> Ended
    requires some { 0 < rounds }
    requires first { first.old ≡ first_desk hub.now }
    requires few { AreFewActors (length sources.old.items) (length dests.old.items) }
    requires turns { 196608 * rounds < hub.now.turns }
    requires sources { AreSources I.state R.inlets R.dests (setup_of hub.now.made)
        (actors_of sources.old.items) }
    requires dests { AreDests O.state (setup_of hub.now.made) (actors_of dests.old.items) }
    ensures first { IsFirstSeat hub.entry.now hub.entry.now.turns 1 first.new }
    ensures served { HasServed (SourceTook I.state R.offers R.inlets R.dests) (DestTook O.state)
        first.new (actors_of sources.old.items) (actors_of sources.new.items)
        (actors_of dests.old.items) (actors_of dests.new.items) rounds result }
    ensures crew { AreCrew I.state R.inlets R.dests O.state hub.entry.now sources.old.items
        sources.new.items dests.old.items dests.new.items }
    ensures world { W.state world.new ≡ W.state world.old }
{
    let mut left = rounds;
    let mut pause = Pause::none();
    let mut beside = threads;
    while left > 0 {
        look_if_due(alloc, sources, dests, watch, world);
        let most = rounds_of(left, beside, watch.most().max(1));
        let phase = take_phase(rt, alloc, hub, first, sources, dests, beside, most);
        if phase.starved {
            return Ended::NoMemory;
        }
        if phase.busy == 0 {
            return Ended::Quiet;
        }
        left -= phase.rounds;
        pause = pause.after(phase);
        beside = threads_after(phase, threads, pause);
    }
    Ended::RoundsSpent
}
