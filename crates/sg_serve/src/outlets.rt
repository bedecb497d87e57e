// The outlets of a plan, each with the turns of its destination.
ghost use Rattle.std.specs.Prelude.{◌≡◌, ◌≤◌, ◌<◌, ◌+◌, ◌^◌, ◌++◌, [], map, length, option_map, option_to_list, vec_capacity, IfOk, IfErr};
ghost use Rattle.sg_serve.specs.Devices.{outlet_asked, reopen_asked, ClosesOutlets};
ghost use Rattle.sg_serve.specs.Exits.{way_of, out_of, parts_out};
ghost use Rattle.sg_serve.specs.Overflows.{IsOverflowWithin, AreOverflowsWithin, stores_asked, OpensWay, MissesWay};
ghost use Rattle.sg_serve.specs.Opened.{OpensDests};
ghost use Rattle.sg_serve.specs.Actors.{dest_view, IsDestFor};

use crate::way::{MissedWay, Parts, close_parts, open_way, parts_of};
use crate::{Early, Exit};
use sg_actor::DestActor;
use sg_by_path::SendsByPath;
use sg_device::{Disk, Outlet};
use sg_outside::OutletSpec;
use sg_overflow::Buffered;
use sg_run_plan::OutletPlan;
use sg_world::World;
use std::alloc::Global;
use std::collections::VecDeque;

fn reopen_or_now(reopen: u32, once: bool) -> u32
    ensures { result ≡ reopen_asked once reopen }
{
    if once { 0 } else { reopen }
}

// What is asked for: with `--once` an outlet that fails is tried again at once.
fn asked(spec: OutletSpec, once: bool) -> OutletSpec
    ensures { result ≡ outlet_asked once spec }
{
    match spec {
        OutletSpec::File {
            path,
            fsync,
            mode,
            folders,
            reopen,
        } => OutletSpec::File {
            path,
            fsync,
            mode,
            folders,
            reopen: reopen_or_now(reopen, once),
        },
        OutletSpec::Tcp { host, port, reopen } => OutletSpec::Tcp {
            host,
            port,
            reopen: reopen_or_now(reopen, once),
        },
        OutletSpec::ByPath {
            fsync,
            mode,
            folders,
            reopen,
            reap,
        } => OutletSpec::ByPath {
            fsync,
            mode,
            folders,
            reopen: reopen_or_now(reopen, once),
            reap,
        },
    }
}

// Opens the way out of a destination, and makes what takes its turns. A refusal gives back what is open
// of it.
fn open_dest<W: World>(
    alloc: Global,
    plan: OutletPlan,
    once: bool,
    d: u32,
    store: u32,
    world: &mut W,
) -> Result<
    DestActor<Buffered<Exit<W::Drain, W::Paths>, W::Store>>,
    MissedWay<W::Drain, W::Paths, W::Store>,
>
    requires within { IsOverflowWithin plan }
    ensures opened { IfOk result (λ made. OpensWay (W.state world.old) (W.state world.new)
        (outlet_asked once plan.spec) plan.overflow
        (out_of W.Drain.state W.Paths.state W.Store.state made.outlet)) }
    ensures new { IfOk result (λ made. IsDestFor once d plan (dest_view made.spec made.outage
        (way_of W.Drain.state W.Paths.state W.Store.state made.outlet))) }
    ensures misses { IfErr result (λ e. MissesWay (W.state world.old) (W.state world.new)
        (outlet_asked once plan.spec) plan.overflow d store
        (option_map (parts_out W.Drain.state W.Paths.state W.Store.state) e.parts) e.early) }
{
    let OutletPlan {
        spec,
        shape,
        env,
        overflow,
    } = plan;
    let spec = asked(spec, once);
    let way = match open_way(alloc, &spec, &overflow, d, store, world) {
        Ok(way) => way,
        Err(missed) => return Err(missed),
    };
    match DestActor::new(alloc, way, shape, env, d, once) {
        Ok(made) => Ok(made),
        Err((way, _)) => Err(MissedWay {
            parts: Some(parts_of(way)),
            early: Early::NoMemory,
        }),
    }
}

/// What takes the turns of destinations, and what is open of the way out of the last one, where that can't
/// be used; and why.
pub(crate) struct OpenDests<D: Outlet, P: SendsByPath, S: Disk> {
    pub(crate) dests: Vec<DestActor<Buffered<Exit<D, P>, S>>>,
    pub(crate) last: Option<Parts<D, P, S>>,
    pub(crate) early: Option<Early>,
}

// How many stores there are more with a destination.
fn more_stores(plan: &OutletPlan) -> u32
    ensures { result ≡ stores_asked plan.now.overflow }
{
    match &plan.overflow {
        Some(_) => 1,
        None => 0,
    }
}

/// Opens the ways out, and makes what takes the turns of the destinations. So many stores are open
/// already: those of the disk-buffers that aren't reliable are numbered behind them. At a refusal those
/// before it are there, and what was opened last.
pub(crate) fn open_dests<W: World>(
    alloc: Global,
    plans: Vec<OutletPlan>,
    once: bool,
    stores: u32,
    world: &mut W,
) -> OpenDests<W::Drain, W::Paths, W::Store>
    requires few { length plans.items + stores < 2 ^ 32 }
    requires capacities { AreOverflowsWithin plans.items }
    ensures { OpensDests W.Drain.state W.Paths.state W.Store.state (W.state world.old)
        (W.state world.new) once plans.items stores result }
{
    let mut dests = match Vec::with_capacity(alloc, plans.len()) {
        Ok(dests) => dests,
        Err(_) => {
            return OpenDests {
                dests: Vec::new(alloc),
                last: None,
                early: Some(Early::NoMemory),
            };
        }
    };
    let mut store = stores;
    let mut rest = VecDeque::from(plans);
    while let Some(plan) = rest.pop_front() {
        let more = more_stores(&plan);
        match open_dest(alloc, plan, once, dests.len() as u32, store, world) {
            Ok(dest) => dests.push_reserved(dest),
            Err(missed) => {
                let MissedWay { parts, early } = missed;
                return OpenDests {
                    dests,
                    last: parts,
                    early: Some(early),
                };
            }
        }
        store += more;
    }
    OpenDests {
        dests,
        last: None,
        early: None,
    }
}

/// The ways out of destinations, in order.
pub(crate) fn free_outlets<O: Outlet>(dests: Vec<DestActor<O>>, room: Vec<O>) -> Vec<O>
    requires empty { room.items ≡ [] }
    requires fits { length dests.items ≤ vec_capacity room }
    ensures { result.items ≡ map (λ a. a.outlet) dests.items }
{
    let mut outlets = room;
    let mut rest = VecDeque::from(dests);
    while let Some(dest) = rest.pop_front() {
        outlets.push_reserved(dest.into_outlet());
    }
    rest.destroy_empty();
    outlets
}

/// Closes these ways out, in order, and then what is open of the last one.
pub(crate) fn close_ways<W: World>(
    ways: Vec<Buffered<Exit<W::Drain, W::Paths>, W::Store>>,
    last: Option<Parts<W::Drain, W::Paths, W::Store>>,
    world: &mut W,
)
    ensures { ClosesOutlets (W.state world.old) (W.state world.new)
        (map (out_of W.Drain.state W.Paths.state W.Store.state) ways.items
        ++ option_to_list (option_map (parts_out W.Drain.state W.Paths.state W.Store.state) last)) }
{
    let mut rest = VecDeque::from(ways);
    while let Some(way) = rest.pop_front() {
        close_parts(parts_of(way), world);
    }
    rest.destroy_empty();
    if let Some(parts) = last {
        close_parts(parts, world);
    }
}
