// Calls of a machine in memory that fail.
use sg_memory::{MemoryWorld, OutletScript, PathsPlan};
use sg_memory_disk::{DiskPlan, FaultPlan};
use std::alloc::{AllocError, Global};
use std::test::Fail;

// The calls with these numbers.
fn plan(alloc: Global, numbers: &str) -> Result<FaultPlan, Fail> {
    let mut calls = Vec::new(alloc);
    for number in numbers.split_whitespace() {
        let call: u64 = number.parse()?;
        calls.push(call)?;
    }
    Ok(FaultPlan::new(calls))
}

// The call with this number and many behind it.
fn plan_from(alloc: Global, number: &str) -> Result<FaultPlan, Fail> {
    let first: u64 = number.parse()?;
    let mut calls = Vec::new(alloc);
    for behind in 0..200 {
        calls.push(first.saturating_add(behind))?;
    }
    Ok(FaultPlan::new(calls))
}

fn fail_disk(alloc: Global, plan: FaultPlan, world: &mut MemoryWorld) -> Result<(), AllocError> {
    let plan = DiskPlan::failing(alloc, plan);
    world.stores.plans.push_back(plan)?;
    Ok(())
}

fn fail_pulls(plan: FaultPlan, world: &mut MemoryWorld) -> Result<(), AllocError> {
    world.plans.inlets.push_back(plan)?;
    Ok(())
}

fn fail_sends(alloc: Global, plan: FaultPlan, world: &mut MemoryWorld) -> Result<(), AllocError> {
    let plan = OutletScript::failing(alloc, plan);
    world.plans.outlets.push_back(plan)?;
    Ok(())
}

fn fail_files(alloc: Global, plan: FaultPlan, world: &mut MemoryWorld) -> Result<(), AllocError> {
    let mut paths = PathsPlan::never(alloc);
    paths.calls = OutletScript::failing(alloc, plan);
    world.plans.paths.push_back(paths)?;
    Ok(())
}

fn close_files(alloc: Global, plan: FaultPlan, world: &mut MemoryWorld) -> Result<(), AllocError> {
    let mut paths = PathsPlan::never(alloc);
    paths.unused = plan;
    world.plans.paths.push_back(paths)?;
    Ok(())
}

// Lets calls of one kind fail.
fn fail(
    alloc: Global,
    kind: &str,
    plan: FaultPlan,
    world: &mut MemoryWorld,
) -> Result<bool, AllocError> {
    match kind {
        "read" => world.plans.reads = plan,
        "store" => world.stores.opens = plan,
        "disk" => fail_disk(alloc, plan, world)?,
        "inlet" => world.plans.inlet_opens = plan,
        "pull" => fail_pulls(plan, world)?,
        "outlet" => world.plans.outlet_opens = plan,
        "send" | "sends" => fail_sends(alloc, plan, world)?,
        "opener" => world.plans.paths_opens = plan,
        "file" => fail_files(alloc, plan, world)?,
        "unused" => close_files(alloc, plan, world)?,
        "say" => world.plans.says = plan,
        "due" => world.plans.dues = plan,
        _ => return Ok(false),
    }
    Ok(true)
}

// The calls of a kind that fail.
fn plan_of(alloc: Global, kind: &str, numbers: &str) -> Result<FaultPlan, Fail> {
    if kind == "sends" {
        plan_from(alloc, numbers)
    } else {
        plan(alloc, numbers)
    }
}

// Lets these calls fail.
fn fail_call(alloc: Global, call: &str, world: &mut MemoryWorld) -> Result<(), Fail> {
    let (kind, numbers) = call.split_once(' ').unwrap_or((call, ""));
    let plan = plan_of(alloc, kind, numbers)?;
    if fail(alloc, kind, plan, world)? {
        Ok(())
    } else {
        Err(Fail::new("no such call"))
    }
}

/// Lets calls fail: of one kind after the other, parted by `, `, each with the numbers of the calls among their kind. `read`,
/// `store`, `inlet` and `outlet` are readings of files and openings, `disk`, `pull` and `send` the calls of the store, inlet
/// or outlet that is opened next, and `say` is what is said. With `sends` the send of that number and all behind it fail.
/// `opener` is the opening of an opener, `file` are the openings, sends and reopenings of the one that is opened next, and
/// `unused` the questions whether a file of it has taken nothing for long, which are answered by yes.
pub(crate) fn fail_all(alloc: Global, calls: &str, world: &mut MemoryWorld) -> Result<(), Fail> {
    if calls.is_empty() {
        return Ok(());
    }
    for call in calls.split(", ") {
        fail_call(alloc, call, world)?;
    }
    Ok(())
}
