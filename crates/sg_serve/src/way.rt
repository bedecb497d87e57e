// The way out of a destination, with the frames that are held back on it.
ghost use Rattle.std.specs.Prelude.{◌≡◌, ◌≤◌, ◌^◌, ◌∷◌, ℕ, [], option_map, Some, IfOk, IfErr, IfSome};
ghost use Rattle.sg_device.specs.Outlet.{IsUnusedOutlet};
ghost use Rattle.sg_overflow.specs.Buffered.{inner_of, disk_in};
ghost use Rattle.sg_outside.specs.World.{WorldState};
ghost use Rattle.sg_outside.specs.declared.request.OutletSpec.{OutletSpec as Spec};
ghost use Rattle.sg_serve.specs.Devices.{ClosesOutlets};
ghost use Rattle.sg_serve.specs.Early.{outlet_refusal, store_refusal};
ghost use Rattle.sg_serve.specs.Exits.{exit_of, out_of, parts_out, OpensExit};
ghost use Rattle.sg_serve.specs.Overflows.{overflow_refusal, OpensWay, MissesWay};

use crate::exit::{close_exit, open_exit};
use crate::{Device, Early, Exit};
use sg_by_path::SendsByPath;
use sg_device::{Disk, OpenRefusal, Outlet};
use sg_outside::OutletSpec;
use sg_overflow::{Buffered, Limits, Overflow};
use sg_run_plan::OverflowPlan;
use sg_stable::StoreRefusal;
use sg_world::World;
use std::alloc::Global;

/// What is open of a way out that can't be used: the outlet, and the store of its disk-buffer.
pub struct Parts<D: Outlet, P: SendsByPath, S: Disk> {
    pub(crate) exit: Exit<D, P>,
    pub(crate) store: Option<S>,
}

/// Why a way out isn't opened, and what is open of it.
pub(crate) struct MissedWay<D: Outlet, P: SendsByPath, S: Disk> {
    pub(crate) parts: Option<Parts<D, P, S>>,
    pub(crate) early: Early,
}

// Why an outlet isn't opened.
fn unopened(d: u32, refusal: OpenRefusal) -> Early
    ensures { result ≡ outlet_refusal d refusal }
{
    match refusal {
        OpenRefusal::Failed => Early::OpenFault(Device::Dest(d)),
        OpenRefusal::NoMemory => Early::NoMemory,
    }
}

// Why the store of a disk-buffer isn't opened.
fn unopened_store(number: u32, refusal: OpenRefusal) -> Early
    ensures { result ≡ store_refusal number refusal }
{
    match refusal {
        OpenRefusal::Failed => Early::OpenFault(Device::Store(number)),
        OpenRefusal::NoMemory => Early::NoMemory,
    }
}

// Why a disk-buffer isn't opened over its store.
fn refused(number: u32, refusal: StoreRefusal) -> Early
    ensures { result ≡ overflow_refusal number refusal }
{
    match refusal {
        StoreRefusal::Damage(at) => Early::Damage { store: number, at },
        StoreRefusal::DiskFault => Early::DiskFault(number),
        StoreRefusal::NoMemory => Early::NoMemory,
    }
}

// A disk-buffer that isn't reliable round an outlet, over the store of that number.
fn surround<W: World>(
    alloc: Global,
    exit: Exit<W::Drain, W::Paths>,
    plan: &OverflowPlan,
    number: u32,
    world: &mut W,
) -> Result<Buffered<Exit<W::Drain, W::Paths>, W::Store>, MissedWay<W::Drain, W::Paths, W::Store>>
    requires capacity { plan.now.capacity ≤ 2 ^ 30 }
    requires fresh { IsUnusedOutlet (exit_of W.Drain.state W.Paths.state exit) }
    ensures opens { IfOk result (λ way. (old : WorldState) (spec : Spec)
        → OpensExit W.Drain.state W.Paths.state old (W.state world.old) spec exit
        → OpensWay old (W.state world.new) spec (Some plan.now)
        (out_of W.Drain.state W.Paths.state W.Store.state way)) }
    ensures misses { IfErr result (λ e. (old : WorldState) (spec : Spec) (d : ℕ)
        → OpensExit W.Drain.state W.Paths.state old (W.state world.old) spec exit
        → MissesWay old (W.state world.new) spec (Some plan.now) d number
        (option_map (parts_out W.Drain.state W.Paths.state W.Store.state) e.parts) e.early) }
{
    let store = match world.open_store(alloc, &plan.store) {
        Ok(store) => store,
        Err(refusal) => {
            return Err(MissedWay {
                parts: Some(Parts { exit, store: None }),
                early: unopened_store(number, refusal),
            });
        }
    };
    let limits = Limits {
        capacity: plan.capacity,
        memory: plan.memory,
    };
    match Overflow::open(alloc, exit, store, limits) {
        Ok(overflow) => Ok(Buffered::Overflow(overflow)),
        Err((exit, store, refusal)) => Err(MissedWay {
            parts: Some(Parts {
                exit,
                store: Some(store),
            }),
            early: refused(number, refusal),
        }),
    }
}

/// Opens the way out of the destination of this number, whose disk-buffer's store has that one, where it
/// has a disk-buffer that isn't reliable.
pub(crate) fn open_way<W: World>(
    alloc: Global,
    spec: &OutletSpec,
    overflow: &Option<OverflowPlan>,
    d: u32,
    store: u32,
    world: &mut W,
) -> Result<Buffered<Exit<W::Drain, W::Paths>, W::Store>, MissedWay<W::Drain, W::Paths, W::Store>>
    requires { IfSome overflow.now (λ plan. plan.capacity ≤ 2 ^ 30) }
    ensures opens { IfOk result (λ way. OpensWay (W.state world.old) (W.state world.new) spec.now
        overflow.now (out_of W.Drain.state W.Paths.state W.Store.state way)) }
    ensures misses { IfErr result (λ e. MissesWay (W.state world.old) (W.state world.new) spec.now
        overflow.now d store
        (option_map (parts_out W.Drain.state W.Paths.state W.Store.state) e.parts) e.early) }
{
    let exit = match open_exit(alloc, spec, world) {
        Ok(exit) => exit,
        Err(refusal) => {
            return Err(MissedWay {
                parts: None,
                early: unopened(d, refusal),
            });
        }
    };
    match overflow {
        Some(plan) => surround(alloc, exit, plan, store, world),
        None => Ok(Buffered::Direct(exit)),
    }
}

/// What is open of a way out.
pub(crate) fn parts_of<D: Outlet, P: SendsByPath, S: Disk>(
    way: Buffered<Exit<D, P>, S>,
) -> Parts<D, P, S>
    ensures exit { result.exit ≡ inner_of way }
    ensures store { result.store ≡ disk_in way }
{
    let (exit, store) = way.into_parts();
    Parts { exit, store }
}

/// Closes what is open of a way out.
pub(crate) fn close_parts<W: World>(parts: Parts<W::Drain, W::Paths, W::Store>, world: &mut W)
    ensures { ClosesOutlets (W.state world.old) (W.state world.new)
        (parts_out W.Drain.state W.Paths.state W.Store.state parts ∷ []) }
{
    let Parts { exit, store } = parts;
    close_exit(exit, world);
    if let Some(store) = store {
        world.close_store(store);
    }
}
