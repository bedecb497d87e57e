// The inlets of a plan, each with the turns of its source.
ghost use Rattle.std.specs.Prelude.{◌≡◌, ◌≤◌, ◌<◌, ◌+◌, ◌^◌, ◌++◌, ◌∷◌, [], ℕ, List, IsSome, Some, true, map, length, slice_get, option_map, option_to_list, IfOk, IfErr};
ghost use Rattle.sg_device.specs.Disk.{DiskState};
ghost use Rattle.sg_device.specs.Inlet.{IsFresh};
ghost use Rattle.sg_actor.specs.SourceTurns.{actor};
ghost use Rattle.sg_standing.specs.States.{setup_of};
ghost use Rattle.sg_standing.specs.Sources.{store_at, begun_in};
ghost use Rattle.sg_core.specs.Opening.{IsOpen};
ghost use Rattle.sg_serve.specs.Devices.{inlet_asked, inlets_asked, IsFetching, AreFetching, ClosesInlets};
ghost use Rattle.sg_serve.specs.Early.{inlet_refusal, SourceFailsToOpen, SourcesFail};
ghost use Rattle.sg_serve.specs.declared.ending.Early.TheVariants.{DiskFault};
ghost use Rattle.sg_serve.specs.Rewinds.{position_at, places_of, rewinds_from, AreApartIn, BeginsSource, HasBegun};
ghost use Rattle.sg_serve.specs.Actors.{source_view, IsSourceFor, AreAllSources, OpensAt};

use crate::rewinds::begin;
use crate::{Device, Early};
use sg_actor::{SourceActor, SourceSpec};
use sg_core::Core;
use sg_device::{Inlet, NoMemory, OpenRefusal};
use sg_machine::SourceSetup;
use sg_outside::InletSpec;
use sg_route::Router;
use sg_run_plan::InletPlan;
use sg_world::World;
use std::alloc::Global;
use std::collections::VecDeque;

// What is asked for: with `--once` a file ends at its end, and a slot after its first connection.
fn asked(spec: &InletSpec, once: bool) -> Result<InletSpec, NoMemory>
    ensures { IfOk result (λ asked. asked ≡ inlet_asked once spec.now) }
{
    match spec.copy()? {
        InletSpec::File {
            path,
            once: _,
            limit,
        } => Ok(InletSpec::File { path, once, limit }),
        InletSpec::Slot {
            ip,
            port,
            slot,
            once: _,
        } => Ok(InletSpec::Slot {
            ip,
            port,
            slot,
            once,
        }),
    }
}

// Why an inlet isn't opened.
fn refused(i: u32, refusal: OpenRefusal) -> Early
    ensures { result ≡ inlet_refusal i refusal }
{
    match refusal {
        OpenRefusal::Failed => Early::OpenFault(Device::Inlet(i)),
        OpenRefusal::NoMemory => Early::NoMemory,
    }
}

// The store of a source that fails.
fn broken(setup: SourceSetup) -> Early
    requires { IsSome setup.store }
    ensures { (s : ℕ) → setup.store ≡ Some s → result ≡ DiskFault s }
{
    match setup.store {
        Some(s) => Early::DiskFault(s),
        None => unreachable!(),
    }
}

// What takes the turns of an inlet that gives from this place.
fn source_of<R: Router + Drop, I: Inlet>(
    alloc: Global,
    i: u32,
    plan: &InletPlan,
    setup: SourceSetup,
    router: R,
    feed: I,
    place: u64,
) -> Result<SourceActor<R, I>, (I, NoMemory)>
    requires fresh { IsFresh (I.state feed) }
    requires place { place ≡ (I.state feed).from }
    requires fetches { IsFetching plan.now }
    ensures source { IfOk result (λ made. IsSourceFor i plan.now setup.store
        (source_view made.spec
        (actor (I.state made.inlet) made.reader made.buffer.items made.position made.bad_frames)
        (R.dests made.router))) }
    ensures inlet { IfOk result (λ made. made.inlet ≡ feed) }
    ensures router { IfOk result (λ made. made.router ≡ router) }
    ensures back { IfErr result (λ e. e.0 ≡ feed) }
{
    let spec = SourceSpec {
        inlet: i,
        kind: plan.kind,
        limit: plan.limit,
        fetch: plan.fetch,
        from: place,
        stored: setup.store.is_some(),
    };
    match SourceActor::new(alloc, feed, router, spec) {
        Ok(made) => Ok(made),
        Err(back) => Err(back),
    }
}

// Opens the inlet of a source at the stored position, lets the source begin anew where that is past
// the inlet's place, and makes what takes its turns. A refusal gives back the inlet that was opened.
fn open_source<W: World, R: Router + Drop>(
    alloc: Global,
    i: u32,
    plan: &InletPlan,
    setup: SourceSetup,
    once: bool,
    router: R,
    core: &mut Core<W::Store>,
    world: &mut W,
) -> Result<SourceActor<R, W::Feed>, (Option<W::Feed>, Early)>
    requires inlet { i < length core.old.sources }
    requires store { store_at core.old.sources i ≡ setup.store }
    requires none { begun_in core.old.sources i ≡ 0 }
    requires few { core.old.calls + 1 < 2 ^ 54 }
    requires fetches { IsFetching plan.now }
    ensures opened { IfOk result (λ made. OpensAt (W.state world.old) (W.state world.new)
        (inlet_asked once plan.now.spec ∷ []) (λ _. position_at core.old i)
        (W.Feed.state made.inlet ∷ [])) }
    ensures begins { IfOk result (λ made. BeginsSource core.old core.new i (position_at core.old i)
        (W.Feed.state made.inlet).place true) }
    ensures source { IfOk result (λ made. IsSourceFor i plan.now setup.store
        (source_view made.spec (actor (W.Feed.state made.inlet) made.reader made.buffer.items
        made.position made.bad_frames) (R.dests made.router))) }
    ensures router { IfOk result (λ made. made.router ≡ router) }
    ensures refused { IfErr result (λ e. OpensAt (W.state world.old) (W.state world.new)
        (inlet_asked once plan.now.spec ∷ []) (λ _. position_at core.old i)
        (option_to_list (option_map W.Feed.state e.0))) }
    ensures cause { IfErr result (λ e.
        SourceFailsToOpen (W.state world.old) (W.state world.new) core.old
        core.new i setup.store (option_map W.Feed.state e.0) e.1) }
{
    let Ok(spec) = asked(&plan.spec, once) else {
        return Err((None, Early::NoMemory));
    };
    let (feed, place) = match world.open_inlet(alloc, &spec, core.position(i)) {
        Ok(opened) => opened,
        Err(refusal) => return Err((None, refused(i, refusal))),
    };
    if !begin(core, i, place) {
        return Err((Some(feed), broken(setup)));
    }
    match source_of(alloc, i, plan, setup, router, feed, place) {
        Ok(made) => Ok(made),
        Err((feed, _)) => Err((Some(feed), Early::NoMemory)),
    }
}

// The setup of the source of that number.
fn setup_at(setups: &[SourceSetup], i: usize) -> SourceSetup
    requires { i < length setups.now }
    ensures { slice_get setups.now i ≡ Some result }
{
    setups[i]
}

/// Opens the inlets, in order, each at its stored position, with what takes its turns. Where an inlet
/// gives from place 0 and another position is stored, its source begins anew. A refusal gives back
/// those that were opened, the last one perhaps without.
pub fn open_sources<W: World, R: Router + Drop>(
    alloc: Global,
    plans: &[InletPlan],
    setups: &[SourceSetup],
    once: bool,
    routers: Vec<R>,
    core: &mut Core<W::Store>,
    world: &mut W,
) -> Result<Vec<SourceActor<R, W::Feed>>, (Vec<SourceActor<R, W::Feed>>, Option<W::Feed>, Early)>
    requires open { (disks : List DiskState) × IsOpen (setup_of core.old) disks core.old }
    requires setups { (setup_of core.old).sources ≡ setups.now }
    requires counts { (length setups.now ≡ length plans.now)
        × (length routers.items ≡ length plans.now) }
    requires few { length plans.now ≤ 128 }
    requires fetches { AreFetching plans.now }
    requires apart { AreApartIn setups.now }
    ensures opened { IfOk result (λ sources. OpensAt (W.state world.old) (W.state world.new)
        (inlets_asked once plans.now) (position_at core.old)
        (map (λ a. W.Feed.state a.inlet) sources.items)) }
    ensures begun { IfOk result (λ sources. HasBegun core.old core.new
        (rewinds_from (position_at core.old) 0
        (places_of (map (λ a. W.Feed.state a.inlet) sources.items)))) }
    ensures sources { IfOk result (λ sources. AreAllSources plans.now setups.now
        (map (λ a. source_view a.spec
        (actor (W.Feed.state a.inlet) a.reader a.buffer.items a.position a.bad_frames)
        (R.dests a.router)) sources.items)) }
    ensures routers { IfOk result (λ sources. map (λ a. a.router) sources.items ≡ routers.items) }
    ensures refused { IfErr result (λ e. OpensAt (W.state world.old) (W.state world.new)
        (inlets_asked once plans.now) (position_at core.old)
        (map (λ a. W.Feed.state a.inlet) e.0.items
        ++ option_to_list (option_map W.Feed.state e.1))) }
    ensures cause { IfErr result (λ e. SourcesFail (W.state world.old) (W.state world.new) core.old
        core.new setups.now (map (λ a. W.Feed.state a.inlet) e.0.items)
        (option_map W.Feed.state e.1) e.2) }
{
    let mut sources = match Vec::with_capacity(alloc, plans.len()) {
        Ok(sources) => sources,
        Err(_) => return Err((Vec::new(alloc), None, Early::NoMemory)),
    };
    let mut rest = VecDeque::from(routers);
    for i in 0..plans.len() {
        let Some(router) = rest.pop_front() else {
            unreachable!()
        };
        match open_source(
            alloc,
            i as u32,
            &plans[i],
            setup_at(setups, i),
            once,
            router,
            core,
            world,
        ) {
            Ok(source) => sources.push_reserved(source),
            Err((last, early)) => return Err((sources, last, early)),
        }
    }
    Ok(sources)
}

/// Closes the inlets of these sources, in order, and then the last one.
pub fn close_sources<W: World, R: Router + Drop>(
    sources: Vec<SourceActor<R, W::Feed>>,
    last: Option<W::Feed>,
    world: &mut W,
)
    ensures { ClosesInlets (W.state world.old) (W.state world.new)
        (map (λ a. W.Feed.state a.inlet) sources.items
        ++ option_to_list (option_map W.Feed.state last)) }
{
    let mut rest = VecDeque::from(sources);
    while let Some(source) = rest.pop_front() {
        world.close_inlet(source.into_inlet());
    }
    rest.destroy_empty();
    if let Some(feed) = last {
        world.close_inlet(feed);
    }
}
