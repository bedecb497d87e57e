// A phase: all actors take their turns in some rounds, with no step of the first seat between them.
ghost use Rattle.std.specs.Prelude.{◌≡◌, ◌≤◌, ◌<◌, ◌+◌, ◌-◌, ◌^◌, ◌||◌, true, length};
ghost use Rattle.sg_booth.specs.Desks.{IsDeskOf, ArePlacesOrdered, places};
ghost use Rattle.sg_standing.specs.States.{setup_of};
ghost use Rattle.sg_turns.specs.Actors.{AreFewActors, AreSources, AreDests, SourceTakes, DestTakes};
ghost use Rattle.sg_crew.specs.Workers.{actors_of, AreCrew};
ghost use Rattle.sg_crew.specs.Crews.{HasPhase, IsPhase, IsFirstSeat};

use crate::gather::{PhaseSum, deal, gather, spread_of};
use crate::hold::hold;
use crate::together::{RoundsTaken, take_turns};
use crate::worker::{TURNS, Worker};
use sg_actor::{DestActor, SourceActor};
use sg_device::{Disk, Inlet, Outlet};
use sg_hub::{Hub, Seat};
use sg_route::Router;
use std::alloc::Global;
use std::sync::Wait;
use std::thread::Threads;

/// How many rounds a phase has at most.
pub(crate) const MOST: u64 = TURNS;

/// What a phase came to.
#[derive(Clone, Copy, Drop)]
pub(crate) struct Phase {
    /// How many rounds were taken.
    pub(crate) rounds: u64,
    /// How many turns did something, or were idle.
    pub(crate) busy: u64,
    /// A turn of the last round found no memory.
    pub(crate) starved: bool,
    /// How many records were brought in in the last round beside those of the source that brought most.
    pub(crate) spread: u64,
    /// Threads took the turns.
    pub(crate) beside: bool,
    /// Threads couldn't be had.
    pub(crate) alone: bool,
}

// The turns of sources and those of destinations are as many as there were rounds.
fn is_even(read: PhaseSum, sent: PhaseSum) -> bool
    ensures { result ≡ true → (read.even ≡ true) × (sent.even ≡ true) }
{
    read.even && sent.even
}

// What both kinds came to.
fn joined(taken: RoundsTaken, read: PhaseSum, sent: PhaseSum, spread: u64) -> Phase
    requires { read.busy + sent.busy < 2 ^ 64 }
    ensures rounds { result.rounds ≡ taken.rounds }
    ensures busy { result.busy ≡ read.busy + sent.busy }
    ensures starved { result.starved ≡ (read.starved || sent.starved) }
{
    Phase {
        rounds: taken.rounds,
        busy: read.busy + sent.busy,
        starved: read.starved || sent.starved,
        spread,
        beside: taken.beside,
        alone: taken.alone,
    }
}

// Whether the turns are those of a phase of so many rounds at most: as many are busy as there are rounds, but for one
// round, or one in which a turn found no memory.
fn is_phase(phase: Phase, most: u64) -> bool
    requires { phase.busy < 2 ^ 32 }
    ensures { result ≡ true → IsPhase most phase.rounds phase.busy phase.starved }
{
    if phase.rounds == 0 {
        return false;
    }
    if phase.rounds > most {
        return false;
    }
    if phase.starved {
        return phase.rounds <= phase.busy + 1;
    }
    if phase.rounds == 1 {
        return true;
    }
    phase.rounds <= phase.busy
}

/// A phase of so many rounds at most, on so many threads. Behind it the first seat has seen all its calls.
pub(crate) fn take_phase<
    T: Threads + Wait + Eprint + Sync,
    R: Router + Send,
    I: Inlet + Send,
    O: Outlet + Send,
    D: Disk + Send,
>(
    rt: &T,
    alloc: Global,
    hub: &Hub<D>,
    first: &mut Seat<D>,
    sources: &mut Vec<Worker<SourceActor<R, I>, D>>,
    dests: &mut Vec<Worker<DestActor<O>, D>>,
    threads: usize,
    most: u64,
) -> Phase
    requires first { IsDeskOf hub.now first.old }
    requires seat { ArePlacesOrdered first.old × (196608 < first.old.left) }
    requires few { AreFewActors (length sources.old.items) (length dests.old.items) }
    requires sources { AreSources I.state R.inlets R.dests (setup_of hub.now.made)
        (actors_of sources.old.items) }
    requires dests { AreDests O.state (setup_of hub.now.made) (actors_of dests.old.items) }
    ensures first { IsFirstSeat hub.entry.now (length (places first.old) + first.old.left)
        (first.old.left - 196608) first.new }
    ensures took { HasPhase (SourceTakes I.state R.offers R.inlets R.dests) (DestTakes O.state)
        first.old first.new (actors_of sources.old.items) (actors_of sources.new.items)
        (actors_of dests.old.items) (actors_of dests.new.items) result.rounds result.busy
        result.starved }
    ensures phase { IsPhase most result.rounds result.busy result.starved }
    ensures crew { AreCrew I.state R.inlets R.dests O.state hub.entry.now sources.old.items
        sources.new.items dests.old.items dests.new.items }
{
    deal(hub, first, sources);
    deal(hub, first, dests);
    let taken = take_turns(rt, alloc, hub, threads, most, sources, dests);
    let spread = spread_of(sources);
    let read = gather(hub, first, sources, taken.rounds);
    let sent = gather(hub, first, dests, taken.rounds);
    let _left = first.left();
    let phase = joined(taken, read, sent, spread);
    hold(rt, is_even(read, sent));
    hold(rt, is_phase(phase, most));
    phase
}
