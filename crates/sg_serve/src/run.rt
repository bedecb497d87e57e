// The run of a plan.
ghost use Rattle.std.specs.Prelude.{◌≡◌, ◌≤◌, ◌<◌, ◌+◌, ◌^◌, ◌++◌, List, map, length, is_some, option_map, option_to_list, IfOk};
ghost use Rattle.sg_outside.specs.World.{WorldState};
ghost use Rattle.sg_overflow.specs.Buffered.{buffered_of};
ghost use Rattle.sg_standing.specs.States.{setup_of};
ghost use Rattle.sg_turns.specs.Actors.{AreFewActors, AreSources};
ghost use Rattle.sg_serve.specs.Exits.{Out, way_of, out_of, parts_out, AreLeft};
ghost use Rattle.sg_serve.specs.Overflows.{AreOverflowsWithin, CountsRests};
ghost use Rattle.sg_serve.specs.Plan.{IsRunnable, AllKnow};
ghost use Rattle.sg_serve.specs.Run.{early_of, ClosesHeld, RunsPlan, RunsOver, RunsDests};

use crate::counts::{Tallied, count_all};
use crate::held::{OpenDevices, close_all, hold_inlets, hold_stores};
use crate::outlets::{OpenDests, free_outlets, open_dests};
use crate::overflows::{finish_all, finish_from};
use crate::sending::send_held;
use crate::sources::open_sources;
use crate::stats::Stats;
use crate::stores::open_stores;
use crate::{Counts, Early, PlanEnded};
use sg_actor::SourceActor;
use sg_core::{Core, CoreRefusal};
use sg_crew::serve;
use sg_device::{Disk, NoMemory, Outlet};
use sg_engine::Served;
use sg_list::Seq;
use sg_overflow::Buffered;
use sg_route::Router;
use sg_run_plan::{OutletPlan, RunPlan};
use sg_world::World;
use std::alloc::Global;
use std::sync::Wait;
use std::thread::Threads;

// What a refused opening of the core is to the run.
fn refused(refusal: CoreRefusal) -> Early
    ensures { result ≡ early_of refusal }
{
    match refusal {
        CoreRefusal::Damage(store, at) => Early::Damage { store, at },
        CoreRefusal::DiskFault(store) => Early::DiskFault(store),
        CoreRefusal::NoMemory => Early::NoMemory,
    }
}

// For each destination whether frames are to be held back for it.
fn asked_of(alloc: Global, outlets: &[OutletPlan]) -> Result<Seq<bool>, NoMemory>
    ensures { IfOk result
        (λ asked. asked ≡ map (λ plan. is_some plan.overflow) outlets.now) }
{
    let mut asked = Seq::empty(alloc);
    for plan in outlets {
        asked.push(plan.overflow.is_some())?;
    }
    Ok(asked)
}

// What a run has come to, once its outlets are finished; none where memory ran out.
fn count_rests<O: Outlet, D: Disk>(
    alloc: Global,
    tallied: Option<Tallied>,
    ways: &mut Vec<Buffered<O, D>>,
    asked: &Seq<bool>,
    first: u32,
    once: bool,
) -> Option<Counts>
    requires few { length ways.old.items + first < 2 ^ 32 }
    ensures counts { CountsRests O.state D.state tallied ways.old.items ways.new.items asked.now
        first once result }
    ensures stay { map (buffered_of O.state D.state) ways.new.items
        ≡ map (buffered_of O.state D.state) ways.old.items }
{
    let Some(tallied) = tallied else {
        finish_from(ways, 0);
        return None;
    };
    match finish_all(
        alloc,
        ways,
        asked,
        &tallied.sinks,
        &tallied.stores,
        first,
        once,
    ) {
        Ok(rests) => Some(tallied.with_rests(rests)),
        Err(_) => None,
    }
}

// With the core and the inlets open: opens the outlets, runs the rounds, and finishes the outlets.
fn run_dests<T: Threads + Wait + Eprint + Sync, W: World, R: Router + Send + Drop>(
    rt: &T,
    alloc: Global,
    core: Core<W::Store>,
    stores: u32,
    sources: Vec<SourceActor<R, W::Feed>>,
    outlets: Vec<OutletPlan>,
    once: bool,
    rounds: u64,
    mut stats: Stats,
    world: &mut W,
) -> (
    OpenDevices<W::Store, R, W::Feed, W::Drain, W::Paths>,
    PlanEnded,
)
    requires rounds { (0 < rounds) × (rounds ≤ 2 ^ 36) }
    requires calls { core.calls ≤ 2 ^ 50 }
    requires counts { (stores ≡ length core.stores)
        × (length outlets.items ≡ length (setup_of core).dests) }
    requires few { AreFewActors (length sources.items) (length outlets.items) }
    requires capacities { (stores ≤ 192) × AreOverflowsWithin outlets.items }
    requires sources { AreSources W.Feed.state R.inlets R.dests (setup_of core) sources.items }
    ensures { RunsDests W.Feed.state (way_of W.Drain.state W.Paths.state W.Store.state) R.offers
        R.inlets R.dests (W.state world.old) (W.state world.new) once outlets.items rounds core
        sources.items (map W.Store.state result.0.stores.items)
        (map (λ a. W.Feed.state a.inlet) result.0.sources.items
        ++ option_to_list (option_map W.Feed.state result.0.feed))
        (map (out_of W.Drain.state W.Paths.state W.Store.state) result.0.ways.items
        ++ option_to_list (option_map (parts_out W.Drain.state W.Paths.state W.Store.state)
        result.0.last)) result.1 }
{
    let Ok(asked) = asked_of(alloc, &outlets) else {
        let held = hold_inlets(alloc, core.into_stores(), sources, None);
        return (held, PlanEnded::Before(Early::NoMemory));
    };
    let Ok(room) = Vec::with_capacity(alloc, outlets.len()) else {
        let held = hold_inlets(alloc, core.into_stores(), sources, None);
        return (held, PlanEnded::Before(Early::NoMemory));
    };
    let OpenDests { dests, last, early } = open_dests(alloc, outlets, once, stores, world);
    if let Some(early) = early {
        let held = OpenDevices {
            stores: core.into_stores(),
            sources,
            feed: None,
            ways: free_outlets(dests, room),
            last,
        };
        return (held, PlanEnded::Before(early));
    }
    let Served {
        ended,
        core,
        sources,
        dests,
    } = serve(rt, alloc, core, sources, dests, rounds, &mut stats, world);
    let tallied = count_all(alloc, &core, stores, &sources, &dests).ok();
    let mut ways = free_outlets(dests, room);
    send_held(&mut ways);
    let counts = count_rests(alloc, tallied, &mut ways, &asked, stores, once);
    let held = OpenDevices {
        stores: core.into_stores(),
        sources,
        feed: None,
        ways,
        last,
    };
    (held, PlanEnded::Ran(ended, counts))
}

// With the stores open: opens the core over them, and then the inlets.
fn run_core<T: Threads + Wait + Eprint + Sync, W: World, R: Router + Send + Drop>(
    rt: &T,
    alloc: Global,
    plan: RunPlan,
    stores: Vec<W::Store>,
    routers: Vec<R>,
    rounds: u64,
    freq: u32,
    world: &mut W,
) -> (
    OpenDevices<W::Store, R, W::Feed, W::Drain, W::Paths>,
    PlanEnded,
)
    requires some { 0 < rounds }
    requires rounds { rounds ≤ 2 ^ 36 }
    requires plan { IsRunnable plan }
    requires stores { length stores.items ≡ length plan.stores.items }
    requires routers { AllKnow R.inlets R.dests plan routers.items }
    ensures { (closed : List Out) → AreLeft
        (map (out_of W.Drain.state W.Paths.state W.Store.state) result.0.ways.items
        ++ option_to_list (option_map (parts_out W.Drain.state W.Paths.state W.Store.state)
        result.0.last)) closed
        → RunsOver W.Feed.state (way_of W.Drain.state W.Paths.state W.Store.state) R.offers R.inlets
        R.dests (W.state world.old) (W.state world.new) plan routers.items rounds
        (map W.Store.state stores.items) (map W.Store.state result.0.stores.items)
        (map (λ a. W.Feed.state a.inlet) result.0.sources.items
        ++ option_to_list (option_map W.Feed.state result.0.feed)) closed result.1 }
{
    let RunPlan {
        setup,
        inlets,
        outlets,
        stores: _,
        once,
    } = plan;
    let Ok(setups) = setup.sources.copy() else {
        return (
            hold_stores(alloc, stores),
            PlanEnded::Before(Early::NoMemory),
        );
    };
    let count = stores.len() as u32;
    let mut core = match Core::open(alloc, setup, stores) {
        Ok(core) => core,
        Err((stores, refusal)) => {
            return (
                hold_stores(alloc, stores),
                PlanEnded::Before(refused(refusal)),
            );
        }
    };
    let setups = setups.as_slice();
    match open_sources(alloc, &inlets, setups, once, routers, &mut core, world) {
        Ok(sources) => {
            let stats = Stats::new(alloc, freq, &inlets, &core.tally(alloc));
            run_dests(
                rt, alloc, core, count, sources, outlets, once, rounds, stats, world,
            )
        }
        Err((sources, feed, early)) => {
            let held = OpenDevices {
                stores: core.into_stores(),
                sources,
                feed,
                ways: Vec::new(alloc),
                last: None,
            };
            (held, PlanEnded::Before(early))
        }
    }
}

// Opens the stores, and runs what stands over them. What is left open comes back.
fn run_stores<T: Threads + Wait + Eprint + Sync, W: World, R: Router + Send + Drop>(
    rt: &T,
    alloc: Global,
    plan: RunPlan,
    routers: Vec<R>,
    rounds: u64,
    freq: u32,
    world: &mut W,
) -> (
    OpenDevices<W::Store, R, W::Feed, W::Drain, W::Paths>,
    PlanEnded,
)
    requires some { 0 < rounds }
    requires rounds { rounds ≤ 2 ^ 36 }
    requires plan { IsRunnable plan }
    requires routers { AllKnow R.inlets R.dests plan routers.items }
    ensures { (closed : WorldState) → ClosesHeld (W.state world.new) closed
        (map W.Store.state result.0.stores.items)
        (map (λ a. W.Feed.state a.inlet) result.0.sources.items
        ++ option_to_list (option_map W.Feed.state result.0.feed))
        (map (out_of W.Drain.state W.Paths.state W.Store.state) result.0.ways.items
        ++ option_to_list (option_map (parts_out W.Drain.state W.Paths.state W.Store.state)
        result.0.last))
        → RunsPlan W.Feed.state (way_of W.Drain.state W.Paths.state W.Store.state) R.offers R.inlets
        R.dests (W.state world.old) closed plan routers.items rounds result.1 }
{
    match open_stores(alloc, &plan.stores, world) {
        Ok(stores) => run_core(rt, alloc, plan, stores, routers, rounds, freq, world),
        Err((stores, early)) => (hold_stores(alloc, stores), PlanEnded::Before(early)),
    }
}

/// Opens the devices of a plan, stores, inlets and outlets, each in its order, and the flow core over
/// its stores; runs the rounds, so many at most, 1 to 2^36; and closes the devices, each kind in the order
/// in which it was opened. There is a router for each inlet. Every so many seconds what the sources and
/// destinations have come to is told, and again before the devices are closed; where that is 0, once a minute of
/// what drops and whose window stays full.
pub fn run_plan<T: Threads + Wait + Eprint + Sync, W: World, R: Router + Send + Drop>(
    rt: &T,
    alloc: Global,
    plan: RunPlan,
    routers: Vec<R>,
    rounds: u64,
    freq: u32,
    world: &mut W,
) -> PlanEnded
    requires some { 0 < rounds }
    requires rounds { rounds ≤ 2 ^ 36 }
    requires plan { IsRunnable plan }
    requires routers { AllKnow R.inlets R.dests plan routers.items }
    ensures { RunsPlan W.Feed.state (way_of W.Drain.state W.Paths.state W.Store.state) R.offers
        R.inlets R.dests (W.state world.old) (W.state world.new) plan routers.items rounds result }
{
    let (held, ending) = run_stores(rt, alloc, plan, routers, rounds, freq, world);
    close_all(held, world);
    ending
}
