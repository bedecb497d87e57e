// A run over a flow core.
ghost use Rattle.std.specs.Prelude.{◌≡◌, ◌≤◌, ◌<◌, ◌+◌, ◌*◌, ◌-◌, ◌^◌, [], IfOk, length};
ghost use Rattle.sg_booth.specs.Desks.{first_desk};
ghost use Rattle.sg_standing.specs.States.{setup_of};
ghost use Rattle.sg_core.specs.Calls.{Serves as CoreServes};
ghost use Rattle.sg_turns.specs.Actors.{AreFewActors, AreSources, AreDests, SourceTook, DestTook};
ghost use Rattle.sg_turns.specs.Serving.{ServesRounds};
ghost use Rattle.sg_crew.specs.Rooms.{IsRoom};

use crate::rounds::run_rounds;
use crate::watch::{Watch, look_last};
use crate::worker::{Worker, free_all, seat_all};
use sg_actor::{DestActor, SourceActor};
use sg_core::Core;
use sg_device::{Disk, Inlet, Outlet};
use sg_engine::Served;
use sg_hub::{Hub, Seat};
use sg_outside::Machine;
use sg_route::Router;
use std::alloc::{AllocError, Global};
use std::sync::Wait;
use std::thread::{Threads, available_parallelism};

// The memory of a run: where the actors sit, and where they come back.
struct CrewRoom<A, D: Disk> {
    workers: Vec<Worker<A, D>>,
    actors: Vec<A>,
}

// Room for so many actors.
fn make_room<A, D: Disk>(alloc: Global, count: usize) -> Result<CrewRoom<A, D>, AllocError>
    ensures { IfOk result (λ room. IsRoom count room) }
{
    let workers = Vec::with_capacity(alloc, count)?;
    match Vec::with_capacity(alloc, count) {
        Ok(actors) => Ok(CrewRoom { workers, actors }),
        Err(e) => {
            workers.destroy_empty();
            Err(e)
        }
    }
}

// Gives the memory back.
fn leave<A, D: Disk>(room: CrewRoom<A, D>)
    requires { (room.workers.items ≡ []) × (room.actors.items ≡ []) }
{
    let CrewRoom { workers, actors } = room;
    workers.destroy_empty();
    actors.destroy_empty();
}

// How many threads may take turns: as many as there are processors, and no more than sources or destinations, whichever
// are more.
fn threads<T: Threads>(rt: &T, sources: usize, dests: usize) -> usize {
    match available_parallelism(rt) {
        Ok(count) => count.get().min(sources.max(dests)),
        Err(_) => 1,
    }
}

// The run, once there is memory for it.
fn serve_at<
    T: Threads + Wait + Eprint + Sync,
    R: Router + Send + Drop,
    I: Inlet + Send,
    O: Outlet + Send,
    D: Disk + Send,
    W: Machine,
    V: Watch<W>,
>(
    rt: &T,
    alloc: Global,
    hub: Hub<D>,
    first: Seat<D>,
    sources: Vec<SourceActor<R, I>>,
    dests: Vec<DestActor<O>>,
    sources_room: CrewRoom<SourceActor<R, I>, D>,
    dests_room: CrewRoom<DestActor<O>, D>,
    rounds: u64,
    watch: &mut V,
    world: &mut W,
) -> Served<R, I, O, D>
    requires first { first ≡ first_desk hub }
    requires turns { (0 < rounds) × (196608 * rounds < hub.turns) }
    requires few { AreFewActors (length sources.items) (length dests.items) }
    requires sources { AreSources I.state R.inlets R.dests (setup_of hub.made) sources.items }
    requires dests { AreDests O.state (setup_of hub.made) dests.items }
    requires rooms { (IsRoom (length sources.items) sources_room)
        × (IsRoom (length dests.items) dests_room) }
    ensures serves { ServesRounds (SourceTook I.state R.offers R.inlets R.dests) (DestTook O.state)
        CoreServes hub.made result.core sources.items result.sources.items dests.items
        result.dests.items rounds result.ended }
    ensures sources { AreSources I.state R.inlets R.dests (setup_of result.core)
        result.sources.items }
    ensures dests { AreDests O.state (setup_of result.core) result.dests.items }
    ensures setup { setup_of result.core ≡ setup_of hub.made }
    ensures world { W.state world.new ≡ W.state world.old }
{
    let mut first = first;
    let CrewRoom {
        workers: readers,
        actors: sources_back,
    } = sources_room;
    let CrewRoom {
        workers: senders,
        actors: dests_back,
    } = dests_room;
    let mut readers = seat_all(alloc, &hub, &mut first, sources, readers);
    let mut senders = seat_all(alloc, &hub, &mut first, dests, senders);
    let count = threads(rt, readers.len(), senders.len());
    let ended = run_rounds(
        rt,
        alloc,
        &hub,
        &mut first,
        &mut readers,
        &mut senders,
        rounds,
        count,
        watch,
        world,
    );
    look_last(alloc, &readers, &senders, watch, world);
    let core = hub.close(rt, first);
    Served {
        ended,
        core,
        sources: free_all(readers, sources_back),
        dests: free_all(senders, dests_back),
    }
}

// The run, once there is room for the actors.
fn serve_in<
    T: Threads + Wait + Eprint + Sync,
    R: Router + Send + Drop,
    I: Inlet + Send,
    O: Outlet + Send,
    D: Disk + Send,
    W: Machine,
    V: Watch<W>,
>(
    rt: &T,
    alloc: Global,
    core: Core<D>,
    sources: Vec<SourceActor<R, I>>,
    dests: Vec<DestActor<O>>,
    sources_room: CrewRoom<SourceActor<R, I>, D>,
    dests_room: CrewRoom<DestActor<O>, D>,
    rounds: u64,
    watch: &mut V,
    world: &mut W,
) -> Served<R, I, O, D>
    requires rounds { (0 < rounds) × (rounds ≤ 2 ^ 36) }
    requires calls { core.calls ≤ 2 ^ 50 }
    requires few { AreFewActors (length sources.items) (length dests.items) }
    requires sources { AreSources I.state R.inlets R.dests (setup_of core) sources.items }
    requires dests { AreDests O.state (setup_of core) dests.items }
    requires rooms { (IsRoom (length sources.items) sources_room)
        × (IsRoom (length dests.items) dests_room) }
    ensures serves { ServesRounds (SourceTook I.state R.offers R.inlets R.dests) (DestTook O.state)
        CoreServes core result.core sources.items result.sources.items dests.items
        result.dests.items rounds result.ended }
    ensures sources { AreSources I.state R.inlets R.dests (setup_of result.core)
        result.sources.items }
    ensures dests { AreDests O.state (setup_of result.core) result.dests.items }
    ensures setup { setup_of result.core ≡ setup_of core }
    ensures world { W.state world.new ≡ W.state world.old }
{
    match Hub::new(alloc, core) {
        Ok((hub, first)) => serve_at(
            rt,
            alloc,
            hub,
            first,
            sources,
            dests,
            sources_room,
            dests_room,
            rounds,
            watch,
            world,
        ),
        Err((core, _)) => {
            leave(sources_room);
            leave(dests_room);
            sg_engine::serve(rt, alloc, core, sources, dests, rounds)
        }
    }
}

/// Moves what the sources' inlets give through the core to the destinations' outlets, so many rounds at
/// most, 1 to 2^36. In a round each source and each destination takes one turn, all at the same time, on
/// threads that stay for many rounds; where sources brought in few records beside each other's, one after
/// the other on this thread. The first quiet round, in which no turn does anything and none is idle, is the
/// last, and so is one in which a turn finds no memory.
///
/// There is one source for each inlet of the core, and one destination for each of its destinations, in
/// the order of their numbers. Where there is no memory for the threads' places, the turns are taken on this
/// thread, one after the other, and the watch doesn't look. Else it looks before a phase where it is due, and once behind the last one.
pub fn serve<
    T: Threads + Wait + Eprint + Sync,
    R: Router + Send + Drop,
    I: Inlet + Send,
    O: Outlet + Send,
    D: Disk + Send,
    W: Machine,
    V: Watch<W>,
>(
    rt: &T,
    alloc: Global,
    core: Core<D>,
    sources: Vec<SourceActor<R, I>>,
    dests: Vec<DestActor<O>>,
    rounds: u64,
    watch: &mut V,
    world: &mut W,
) -> Served<R, I, O, D>
    requires some { 0 < rounds }
    requires rounds { rounds ≤ 2 ^ 36 }
    requires calls { core.calls ≤ 2 ^ 50 }
    requires few { AreFewActors (length sources.items) (length dests.items) }
    requires sources { AreSources I.state R.inlets R.dests (setup_of core) sources.items }
    requires dests { AreDests O.state (setup_of core) dests.items }
    ensures serves { ServesRounds (SourceTook I.state R.offers R.inlets R.dests) (DestTook O.state)
        CoreServes core result.core sources.items result.sources.items dests.items
        result.dests.items rounds result.ended }
    ensures sources { AreSources I.state R.inlets R.dests (setup_of result.core)
        result.sources.items }
    ensures dests { AreDests O.state (setup_of result.core) result.dests.items }
    ensures setup { setup_of result.core ≡ setup_of core }
    ensures world { W.state world.new ≡ W.state world.old }
{
    let Ok(sources_room) = make_room(alloc, sources.len()) else {
        return sg_engine::serve(rt, alloc, core, sources, dests, rounds);
    };
    match make_room(alloc, dests.len()) {
        Ok(dests_room) => serve_in(
            rt,
            alloc,
            core,
            sources,
            dests,
            sources_room,
            dests_room,
            rounds,
            watch,
            world,
        ),
        Err(_) => {
            leave(sources_room);
            sg_engine::serve(rt, alloc, core, sources, dests, rounds)
        }
    }
}
