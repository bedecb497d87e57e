// Runs whose devices stop.
use crate::commands;
use crate::machine::{add_file, machine_with};
use crate::moments::due::{Due, LINES};
use crate::moments::images::picks;
use sg_device::NoMemory;
use sg_memory::{MemoryFile, OutletScript};
use sg_memory_disk::{DiskPlan, FaultPlan, MemoryStores};
use sg_world::MemoryMachine;
use std::alloc::Global;
use std::collections::VecDeque;
use std::mem::replace;
use std::sync::Wait;
use std::thread::Threads;

const CONFIG: &[u8] =
    b"@version: 4.2\nsource s { file(\"in\" flags(no-parse)); };\ndestination d { file(\"out\" template(\"$MSG\\n\") disk-buffer(reliable(yes) disk-buf-size(1048576))); };\nlog { source(s); destination(d); flags(flow-control); };\n";

/// Behind how many calls each device stops, if ever, and what a store's call that fails leaves, in letters for picks.
#[derive(Clone, Copy, Drop)]
pub(crate) struct DeviceStops<'a> {
    pub(crate) position: Option<u64>,
    pub(crate) buffer: Option<u64>,
    pub(crate) outlet: Option<u64>,
    pub(crate) tear: &'a str,
}

/// No device stops.
pub(crate) const NEVER: DeviceStops<'static> = DeviceStops {
    position: None,
    buffer: None,
    outlet: None,
    tear: "",
};

/// What a run came to: its exit status, none where its configuration isn't loaded; whether that was before its rounds; and the
/// stores as it left them.
#[derive(Drop)]
pub(crate) struct EndedProgram {
    pub(crate) code: Option<u8>,
    pub(crate) early: bool,
    pub(crate) stores: MemoryStores,
}

fn files(alloc: Global) -> Result<Vec<MemoryFile>, NoMemory> {
    let mut files = Vec::new(alloc);
    add_file(alloc, b"c", CONFIG, &mut files)?;
    add_file(alloc, b"in", LINES, &mut files)?;
    Ok(files)
}

fn plan(alloc: Global, calls: Option<u64>, tear: &str) -> Result<DiskPlan, NoMemory> {
    let mut plan = DiskPlan::never(alloc);
    plan.left = calls;
    plan.tears = picks(alloc, tear)?;
    Ok(plan)
}

// These stores, which stop so.
fn stopping(
    alloc: Global,
    mut stores: MemoryStores,
    stops: DeviceStops<'_>,
) -> Result<MemoryStores, NoMemory> {
    stores
        .plans
        .push_back(plan(alloc, stops.position, stops.tear)?)?;
    stores
        .plans
        .push_back(plan(alloc, stops.buffer, stops.tear)?)?;
    Ok(stores)
}

// As many calls fail as a destination makes until it is given up, and more.
fn dying(alloc: Global, calls: u64) -> Result<OutletScript, NoMemory> {
    let mut fails = Vec::new(alloc);
    for behind in 0..10 {
        fails.push(calls.saturating_add(behind))?;
    }
    Ok(OutletScript::failing(alloc, FaultPlan::new(fails)))
}

fn outlets(alloc: Global, calls: Option<u64>) -> Result<VecDeque<OutletScript>, NoMemory> {
    let mut scripts = VecDeque::new(alloc);
    if let Some(calls) = calls {
        scripts.push_back(dying(alloc, calls)?)?;
    }
    Ok(scripts)
}

// A machine over these stores whose devices stop so.
fn machine(
    alloc: Global,
    stores: MemoryStores,
    stops: DeviceStops<'_>,
) -> Result<MemoryMachine, NoMemory> {
    let stores = stopping(alloc, stores, stops)?;
    let outlets = outlets(alloc, stops.outlet)?;
    let mut machine = machine_with(alloc, files(alloc)?);
    machine.world.stores = stores;
    machine.world.plans.outlets = outlets;
    Ok(machine)
}

// A run of this machine: its exit status, and whether that was before its rounds.
fn run_in<T: Threads + Wait + Eprint + Sync>(
    rt: &T,
    alloc: Global,
    machine: &mut MemoryMachine,
    due: &mut Due,
) -> (Option<u8>, bool) {
    let end = commands::run(rt, alloc, 1 << 36, machine);
    if let Some(cell) = machine.world.closed_outlets() {
        due.take_all(cell);
    }
    match &end {
        Ok(outcome) => (
            Some(outcome.end.code()),
            outcome.text.starts_with(b"store "),
        ),
        Err(_) => (None, false),
    }
}

/// A run over these stores whose devices stop so.
pub(crate) fn run<T: Threads + Wait + Eprint + Sync>(
    rt: &T,
    alloc: Global,
    stores: MemoryStores,
    stops: DeviceStops<'_>,
    due: &mut Due,
) -> Result<EndedProgram, NoMemory> {
    let mut machine = machine(alloc, stores, stops)?;
    let (code, early) = run_in(rt, alloc, &mut machine, due);
    let empty = MemoryStores::new(alloc);
    Ok(EndedProgram {
        code,
        early,
        stores: replace(&mut machine.world.stores, empty),
    })
}
