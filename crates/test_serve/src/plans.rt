// Runs of a plan of two files and two files to write.
ghost use Rattle.std.specs.Prelude.{◌≡◌, ◌≤◌, ◌^◌, IfOk, IfSome, length};
ghost use Rattle.sg_serve.specs.Devices.{IsFetching, AreFetching};
ghost use Rattle.sg_serve.specs.Overflows.{IsOverflowWithin, AreOverflowsWithin};
ghost use Rattle.sg_serve.specs.Plan.{IsRunnable};
ghost use Rattle.test_serve.specs.Plans.{tried};

use sg_device::{Name, NoMemory};
use sg_frame::FrameKind;
use sg_list::Seq;
use sg_machine::{DestSetup, Setup, SourceSetup};
use sg_memory::{MemoryFile, MemoryWorld, OutletScript as Sends, Pace};
use sg_memory_disk::FaultPlan;
use sg_outfmt::Shape;
use sg_outside::{InletSpec, OutletSpec, StoreSpec};
use sg_run_plan::{InletPlan, OutletPlan, OverflowPlan, RunPlan};
use sg_serve::{Device, Early, Ended, Fault, PlanEnded, run_plan};
use sg_template::{Env, Template};
use sg_world::MemoryMachine;
use std::alloc::{AllocError, Global};
use std::sync::Wait;
use std::thread::Threads;
use test_flow::ByDigit;

// The call that fails, how the run ends, what failed first, and the frames of the last outlet: those of one source in their
// order, and the two sources' in any, as ` or ` says. Behind `held` the last destination has a disk-buffer that isn't
// reliable; a fault that has a number behind ` of ` leaves so many frames there.
const ROWS: &str = r#"none;quiet;none;1b~1d~ or 1d~1b~
store 0;store 0;none;
store 1;store 1;none;
inlet 1;inlet 1;none;
outlet 1;dest 1;none;
pull 0;quiet;inlet 0;1d~
sends;quiet;sink 1;
held none;quiet;none;1b~1d~ or 1d~1b~
held store 2;store 2;none;
held sends;quiet;sink 1 of 2;
"#;

fn inlet(alloc: Global, path: &[u8]) -> Result<InletPlan, NoMemory>
    ensures { IfOk result IsFetching }
{
    Ok(InletPlan {
        spec: InletSpec::File {
            path: Name::new(alloc, path)?,
            once: false,
            limit: 100,
        },
        source: None,
        driver: 0,
        kind: FrameKind::Lines,
        limit: 100,
        fetch: 10,
    })
}

fn shape(alloc: Global) -> Result<Shape, NoMemory> {
    match Template::read(alloc, b"$MSG\n") {
        Ok(template) => Ok(Shape::Text(template)),
        Err(_) => Err(AllocError),
    }
}

// A disk-buffer that isn't reliable, where there is one.
fn overflow(alloc: Global, held: bool) -> Result<Option<OverflowPlan>, NoMemory>
    ensures { IfOk result (λ overflow. IfSome overflow (λ plan. plan.capacity ≤ 2 ^ 30)) }
{
    if !held {
        return Ok(None);
    }
    let store = store(alloc, b"over-d")?;
    Ok(Some(OverflowPlan {
        store,
        capacity: 1_048_576,
        memory: 10,
    }))
}

fn outlet(alloc: Global, path: &[u8], held: bool) -> Result<OutletPlan, NoMemory>
    ensures { IfOk result IsOverflowWithin }
{
    let overflow = overflow(alloc, held)?;
    Ok(OutletPlan {
        spec: OutletSpec::File {
            path: Name::new(alloc, path)?,
            fsync: false,
            mode: 0o600,
            folders: None,
            reopen: 60,
        },
        shape: shape(alloc)?,
        env: Env {
            zone: None,
            digits: 0,
            iso: false,
            old: None,
        },
        overflow,
    })
}

fn store(alloc: Global, name: &[u8]) -> Result<StoreSpec, NoMemory> {
    Ok(StoreSpec {
        name: Name::new(alloc, name)?,
        create: true,
        size: 128,
    })
}

fn setup(alloc: Global) -> Result<Setup, NoMemory>
    ensures { IfOk result (λ setup. setup ≡ tried) }
{
    let mut sources = Seq::empty(alloc);
    sources.push(SourceSetup {
        window: 10,
        store: Some(0),
    })?;
    sources.push(SourceSetup {
        window: 10,
        store: Some(1),
    })?;
    let mut dests = Seq::empty(alloc);
    dests.push(DestSetup {
        fifo: 10,
        buffer: None,
    })?;
    dests.push(DestSetup {
        fifo: 10,
        buffer: None,
    })?;
    Ok(Setup { sources, dests })
}

fn inlets(alloc: Global) -> Result<Vec<InletPlan>, NoMemory>
    ensures two { IfOk result (λ plans. length plans.items ≡ 2) }
    ensures fetches { IfOk result (λ plans. AreFetching plans.items) }
{
    let mut inlets = Vec::new(alloc);
    inlets.push(inlet(alloc, b"a")?)?;
    inlets.push(inlet(alloc, b"b")?)?;
    Ok(inlets)
}

fn outlets(alloc: Global, held: bool) -> Result<Vec<OutletPlan>, NoMemory>
    ensures two { IfOk result (λ plans. length plans.items ≡ 2) }
    ensures within { IfOk result (λ plans. AreOverflowsWithin plans.items) }
{
    let mut outlets = Vec::new(alloc);
    outlets.push(outlet(alloc, b"c", false)?)?;
    outlets.push(outlet(alloc, b"d", held)?)?;
    Ok(outlets)
}

fn stores(alloc: Global) -> Result<Vec<StoreSpec>, NoMemory>
    ensures { IfOk result (λ specs. length specs.items ≡ 2) }
{
    let mut stores = Vec::new(alloc);
    stores.push(store(alloc, b"pos-a")?)?;
    stores.push(store(alloc, b"pos-b")?)?;
    Ok(stores)
}

fn plan(alloc: Global, held: bool) -> Result<RunPlan, NoMemory>
    ensures runs { IfOk result IsRunnable }
    ensures inlets { IfOk result (λ plan. length plan.inlets.items ≡ 2) }
    ensures setup { IfOk result (λ plan. plan.setup ≡ tried) }
{
    let setup = setup(alloc)?;
    let stores = stores(alloc)?;
    let inlets = inlets(alloc)?;
    let outlets = outlets(alloc, held)?;
    Ok(RunPlan {
        setup,
        inlets,
        outlets,
        stores,
        once: true,
    })
}

fn routers(alloc: Global) -> Result<Vec<ByDigit>, NoMemory>
    ensures { IfOk result (λ routers. length routers.items ≡ 2) }
{
    let mut routers = Vec::new(alloc);
    routers.push(ByDigit { routed: 0 })?;
    routers.push(ByDigit { routed: 0 })?;
    Ok(routers)
}

fn machine(alloc: Global) -> Result<MemoryMachine, NoMemory> {
    let mut files = Vec::new(alloc);
    files.push(MemoryFile::new(alloc, b"a", b"0a\n1b\n")?)?;
    files.push(MemoryFile::new(alloc, b"b", b"0c\n1d\n")?)?;
    let pace = Pace { piece: 4, at: 1 };
    Ok(MemoryMachine {
        world: MemoryWorld::new(alloc, files, pace),
    })
}

fn call(alloc: Global, number: u64) -> Result<FaultPlan, NoMemory> {
    Ok(FaultPlan::new(vec![in alloc; number]?))
}

// Lets each send of the last outlet fail.
fn fail_sends(alloc: Global, world: &mut MemoryWorld) -> Result<(), NoMemory> {
    let mut all = Vec::new(alloc);
    for number in 0..1000 {
        all.push(number)?;
    }
    let sends = Sends::failing(alloc, FaultPlan::new(all));
    world.plans.outlets.push_back(Sends::never(alloc))?;
    world.plans.outlets.push_back(sends)?;
    Ok(())
}

// Lets this call of a kind fail.
fn fail_call(
    alloc: Global,
    kind: &str,
    number: u64,
    world: &mut MemoryWorld,
) -> Result<bool, NoMemory> {
    let plan = call(alloc, number)?;
    match kind {
        "store" => world.stores.opens = plan,
        "inlet" => world.plans.inlet_opens = plan,
        "outlet" => world.plans.outlet_opens = plan,
        "pull" => world.plans.inlets.push_back(plan)?,
        _ => return Ok(false),
    }
    Ok(true)
}

// Lets the call fail that a row names.
fn fail(alloc: Global, fails: &str, world: &mut MemoryWorld) -> Result<bool, NoMemory> {
    if fails == "sends" {
        fail_sends(alloc, world)?;
        return Ok(true);
    }
    match fails.split_once(' ') {
        Some((kind, number)) => match number.parse::<u64>() {
            Ok(number) => fail_call(alloc, kind, number, world),
            Err(_) => Ok(false),
        },
        None => Ok(fails == "none"),
    }
}

fn ended(ending: &PlanEnded, how: &str) -> bool {
    match ending {
        PlanEnded::Ran(Ended::Quiet, _) => how == "quiet",
        PlanEnded::Before(Early::OpenFault(Device::Store(0))) => how == "store 0",
        PlanEnded::Before(Early::OpenFault(Device::Store(1))) => how == "store 1",
        PlanEnded::Before(Early::OpenFault(Device::Store(2))) => how == "store 2",
        PlanEnded::Before(Early::OpenFault(Device::Inlet(1))) => how == "inlet 1",
        PlanEnded::Before(Early::OpenFault(Device::Dest(1))) => how == "dest 1",
        _ => false,
    }
}

// Whether so many frames are held for the last destination, and none for the other.
fn are_held(held: &[(u32, u64)], number: &str) -> bool {
    if held.is_empty() {
        return number == "0";
    }
    let (dest, frames) = held[0];
    held.len() == 1 && dest == 1 && number.parse::<u64>() == Ok(frames)
}

fn holds(ending: &PlanEnded, number: &str) -> bool {
    match ending {
        PlanEnded::Ran(_, Some(counts)) => are_held(counts.rests.held.as_slice(), number),
        _ => number == "0",
    }
}

fn failed(ending: &PlanEnded, what: &str) -> bool {
    let (what, held) = what.split_once(" of ").unwrap_or((what, "0"));
    if !holds(ending, held) {
        return false;
    }
    let fault = match ending {
        PlanEnded::Ran(_, Some(counts)) => counts.fault(),
        _ => None,
    };
    match fault {
        Some(Fault::Sink(1)) => what == "sink 1",
        Some(Fault::Inlet(0)) => what == "inlet 0",
        Some(_) => false,
        None => what == "none",
    }
}

// Whether these are the frames, one behind the other, with `~` for LF.
fn are(taken: &[u8], frames: &str) -> bool {
    let frames = frames.as_bytes();
    if taken.len() != frames.len() {
        return false;
    }
    for k in 0..taken.len() {
        if taken[k] != frames[k] && !(taken[k] == b'\n' && frames[k] == b'~') {
            return false;
        }
    }
    true
}

// Whether the last outlet took these frames, or those behind ` or `.
fn has_taken(world: &MemoryWorld, frames: &str) -> bool {
    let mut taken: &[u8] = &[];
    if let Some(cell) = world.closed_outlets()
        && let Some(outlet) = &cell.closed
    {
        taken = outlet.frames().bytes();
    }
    let (one, other) = frames.split_once(" or ").unwrap_or((frames, frames));
    are(taken, one) || are(taken, other)
}

// The parts of a row.
#[derive(Clone, Copy, Drop)]
struct PlanRow<'a> {
    held: bool,
    fails: &'a str,
    how: &'a str,
    what: &'a str,
    frames: &'a str,
}

fn cell(row: &str, place: usize) -> &str {
    row.split(';').nth(place).unwrap_or("")
}

fn read_row(row: &str) -> PlanRow<'_> {
    let first = cell(row, 0);
    PlanRow {
        held: first.starts_with("held "),
        fails: first.strip_prefix("held ").unwrap_or(first),
        how: cell(row, 1),
        what: cell(row, 2),
        frames: cell(row, 3),
    }
}

fn run<T: Threads + Wait + Eprint + Sync>(
    rt: &T,
    alloc: Global,
    machine: &mut MemoryMachine,
    held: bool,
) -> Result<PlanEnded, NoMemory> {
    let routers = routers(alloc)?;
    let plan = plan(alloc, held)?;
    Ok(run_plan(rt, alloc, plan, routers, 100, 0, machine))
}

// Whether a run on the machine, with the call failing that the row names, ends as the row says.
fn goes<T: Threads + Wait + Eprint + Sync>(
    rt: &T,
    alloc: Global,
    machine: &mut MemoryMachine,
    row: PlanRow<'_>,
) -> Result<bool, NoMemory> {
    if !fail(alloc, row.fails, &mut machine.world)? {
        return Ok(false);
    }
    let ending = run(rt, alloc, machine, row.held)?;
    Ok(
        ended(&ending, row.how)
            && failed(&ending, row.what)
            && has_taken(&machine.world, row.frames),
    )
}

fn shows<T: Threads + Wait + Eprint + Sync>(
    rt: &T,
    alloc: Global,
    row: &str,
) -> Result<bool, NoMemory> {
    let mut machine = machine(alloc)?;
    let right = goes(rt, alloc, &mut machine, read_row(row))?;
    Ok(right && row.split(';').count() == 4)
}

#[test]
fn plans_run(rt: HostRuntime) -> Result<(), NoMemory> {
    let alloc = rt.alloc();
    for row in ROWS.lines() {
        assert_eq!(rt; (row, shows(&rt, alloc, row)?), (row, true));
    }
    Ok(())
}
