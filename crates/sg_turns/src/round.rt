// The turns of a round.
ghost use Rattle.std.specs.Prelude.{◌≡◌, ◌≤◌, ◌+◌, ◌*◌, length};
ghost use Rattle.sg_counter.specs.Exchanges.{OfSource, OfDest};
ghost use Rattle.sg_turns.specs.Turns.{answer_of};
ghost use Rattle.sg_turns.specs.Actors.{AreSources, AreDests, SourceTakes, DestTakes};
ghost use Rattle.sg_turns.specs.Rounds.{noted, both, TookAll, TookRound};

use sg_actor::{DestActor, SourceActor, Turned};
use sg_counter::{Counter, Settler};
use sg_device::{Inlet, NoMemory, Outlet};
use sg_route::Router;
use std::alloc::Global;
use std::sync::Wait;

/// What the turns of a round, or of a part of one, came to.
#[derive(Clone, Copy, PartialEq, Eq, Drop)]
pub struct Round {
    /// A turn did something, or was idle.
    pub busy: bool,
    /// A turn found no memory.
    pub starved: bool,
}

// Takes note of what a turn came to.
fn note(round: Round, turn: Result<Turned, NoMemory>) -> Round
    ensures { result ≡ noted round (answer_of turn) }
{
    match turn {
        Ok(turned) => Round {
            busy: round.busy || (turned.did || turned.idle),
            starved: round.starved,
        },
        Err(_) => Round {
            busy: round.busy,
            starved: true,
        },
    }
}

// Each source takes a turn.
fn take_sources<T: Wait, R: Router, I: Inlet, C: Counter>(
    rt: &T,
    alloc: Global,
    counter: &mut C,
    sources: &mut Vec<SourceActor<R, I>>,
) -> Round
    requires fits { AreSources I.state R.inlets R.dests (C.setup counter.old) sources.old.items }
    requires left { 4 * length sources.old.items ≤ C.left counter.old }
    ensures took { TookAll (SourceTakes I.state R.offers R.inlets R.dests) OfSource C.step
        counter.old counter.new sources.old.items sources.new.items result }
    ensures fits { AreSources I.state R.inlets R.dests (C.setup counter.new) sources.new.items }
    ensures setup { C.setup counter.new ≡ C.setup counter.old }
    ensures left { C.left counter.old ≤ C.left counter.new + 4 * length sources.old.items }
{
    let mut round = Round {
        busy: false,
        starved: false,
    };
    for i in 0..sources.len() {
        let turn = sources[i].turn(rt, alloc, counter);
        round = note(round, turn);
    }
    round
}

// Each destination takes a turn.
fn take_dests<T: Wait, O: Outlet, C: Settler<O>>(
    rt: &T,
    alloc: Global,
    counter: &mut C,
    dests: &mut Vec<DestActor<O>>,
) -> Round
    requires fits { AreDests O.state (C.setup counter.old) dests.old.items }
    requires left { 4 * length dests.old.items ≤ C.left counter.old }
    ensures took { TookAll (DestTakes O.state) OfDest C.step counter.old counter.new dests.old.items
        dests.new.items result }
    ensures fits { AreDests O.state (C.setup counter.new) dests.new.items }
    ensures setup { C.setup counter.new ≡ C.setup counter.old }
    ensures left { C.left counter.old ≤ C.left counter.new + 4 * length dests.old.items }
{
    let mut round = Round {
        busy: false,
        starved: false,
    };
    for d in 0..dests.len() {
        let turn = dests[d].turn(rt, alloc, counter);
        round = note(round, turn);
    }
    round
}

// What two parts of a round came to together.
fn join(read: Round, sent: Round) -> Round
    ensures { result ≡ both read sent }
{
    Round {
        busy: read.busy || sent.busy,
        starved: read.starved || sent.starved,
    }
}

/// A round: each source takes a turn, in the order of their numbers, then each destination.
pub fn take_round<T: Wait, R: Router, I: Inlet, O: Outlet, C: Settler<O>>(
    rt: &T,
    alloc: Global,
    counter: &mut C,
    sources: &mut Vec<SourceActor<R, I>>,
    dests: &mut Vec<DestActor<O>>,
) -> Round
    requires sources { AreSources I.state R.inlets R.dests (C.setup counter.old) sources.old.items }
    requires dests { AreDests O.state (C.setup counter.old) dests.old.items }
    requires left { 4 * length sources.old.items + 4 * length dests.old.items ≤ C.left counter.old }
    ensures took { TookRound (SourceTakes I.state R.offers R.inlets R.dests) (DestTakes O.state)
        C.step counter.old counter.new sources.old.items sources.new.items dests.old.items
        dests.new.items result }
    ensures sources { AreSources I.state R.inlets R.dests (C.setup counter.new) sources.new.items }
    ensures dests { AreDests O.state (C.setup counter.new) dests.new.items }
    ensures setup { C.setup counter.new ≡ C.setup counter.old }
    ensures left { C.left counter.old
        ≤ C.left counter.new + (4 * length sources.old.items + 4 * length dests.old.items) }
{
    let read = take_sources(rt, alloc, counter, sources);
    let sent = take_dests(rt, alloc, counter, dests);
    join(read, sent)
}
