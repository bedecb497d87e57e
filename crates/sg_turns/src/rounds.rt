// The rounds of a run, over any counter.
ghost use Rattle.std.specs.Prelude.{◌≡◌, ◌≤◌, ◌<◌, ◌+◌, ◌*◌, length};
ghost use Rattle.sg_turns.specs.Actors.{AreFewActors, AreSources, AreDests, SourceTook, DestTook};
ghost use Rattle.sg_turns.specs.Serving.{ServesRounds};

use crate::ended::Ended;
use crate::round::take_round;
use sg_actor::{DestActor, SourceActor};
use sg_counter::Settler;
use sg_device::{Inlet, Outlet};
use sg_route::Router;
use std::alloc::Global;
use std::sync::Wait;

/// Runs so many rounds at most. The first quiet one is the last, and so is one in which a turn finds no
/// memory.
pub fn run_rounds<T: Wait, R: Router, I: Inlet, O: Outlet, C: Settler<O>>(
    rt: &T,
    alloc: Global,
    counter: &mut C,
    sources: &mut Vec<SourceActor<R, I>>,
    dests: &mut Vec<DestActor<O>>,
    rounds: u64,
) -> Ended
    requires some { 0 < rounds }
    requires sources { AreSources I.state R.inlets R.dests (C.setup counter.old) sources.old.items }
    requires dests { AreDests O.state (C.setup counter.old) dests.old.items }
    requires few { AreFewActors (length sources.old.items) (length dests.old.items) }
    requires left { 768 * rounds ≤ C.left counter.old }
    ensures serves { ServesRounds (SourceTook I.state R.offers R.inlets R.dests) (DestTook O.state)
        C.step
        counter.old counter.new sources.old.items sources.new.items dests.old.items dests.new.items
        rounds result }
    ensures sources { AreSources I.state R.inlets R.dests (C.setup counter.new) sources.new.items }
    ensures dests { AreDests O.state (C.setup counter.new) dests.new.items }
    ensures setup { C.setup counter.new ≡ C.setup counter.old }
{
    for _round in 0..rounds {
        let round = take_round(rt, alloc, counter, sources, dests);
        if round.starved {
            return Ended::NoMemory;
        }
        if !round.busy {
            return Ended::Quiet;
        }
    }
    Ended::RoundsSpent
}
