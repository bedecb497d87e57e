// A run over a flow core.
ghost use Rattle.std.specs.Prelude.{◌≡◌, ◌≤◌, ◌<◌, ◌^◌, length};
ghost use Rattle.sg_standing.specs.States.{setup_of};
ghost use Rattle.sg_core.specs.Calls.{Serves as CoreServes};
ghost use Rattle.sg_turns.specs.Actors.{AreFewActors, AreSources, AreDests, SourceTook, DestTook};
ghost use Rattle.sg_turns.specs.Serving.{ServesRounds};

use sg_actor::{DestActor, SourceActor};
use sg_core::Core;
use sg_device::{Disk, Inlet, Outlet};
use sg_route::Router;
use sg_turns::{Ended, run_rounds};
use std::alloc::Global;
use std::sync::Wait;

/// What a run leaves.
pub struct Served<R, I, O, D: Disk> {
    pub ended: Ended,
    pub core: Core<D>,
    pub sources: Vec<SourceActor<R, I>>,
    pub dests: Vec<DestActor<O>>,
}

/// Moves what the sources' inlets give through the core to the destinations' outlets, so many rounds at
/// most, 1 to 2^36. In a round each source and each destination takes one turn. The first quiet round, in
/// which no turn does anything and none is idle, is the last, and so is one in which a turn finds no memory.
///
/// There is one source for each inlet of the core, and one destination for each of its destinations, in
/// the order of their numbers.
pub fn serve<T: Wait, R: Router, I: Inlet, O: Outlet, D: Disk>(
    rt: &T,
    alloc: Global,
    core: Core<D>,
    sources: Vec<SourceActor<R, I>>,
    dests: Vec<DestActor<O>>,
    rounds: u64,
) -> Served<R, I, O, D>
    requires some { 0 < rounds }
    requires rounds { rounds ≤ 2 ^ 36 }
    requires calls { core.calls ≤ 2 ^ 50 }
    requires few { AreFewActors (length sources.items) (length dests.items) }
    requires sources { AreSources I.state R.inlets R.dests (setup_of core) sources.items }
    requires dests { AreDests O.state (setup_of core) dests.items }
    ensures serves { ServesRounds (SourceTook I.state R.offers R.inlets R.dests) (DestTook O.state)
        CoreServes core result.core sources.items result.sources.items dests.items
        result.dests.items rounds result.ended }
    ensures sources { AreSources I.state R.inlets R.dests (setup_of result.core)
        result.sources.items }
    ensures dests { AreDests O.state (setup_of result.core) result.dests.items }
    ensures setup { setup_of result.core ≡ setup_of core }
{
    let mut core = core;
    let mut sources = sources;
    let mut dests = dests;
    let ended = run_rounds(rt, alloc, &mut core, &mut sources, &mut dests, rounds);
    Served {
        ended,
        core,
        sources,
        dests,
    }
}
