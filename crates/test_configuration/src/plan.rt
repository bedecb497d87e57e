// The plan of a configuration.
ghost use Rattle.std.specs.Prelude.{◌<◌, ◌^◌, length, None};
ghost use Rattle.sg_resolve.specs.First.{IsFirstFault};

use crate::text::{put_fault, put_number};
use sg_device::NoMemory;
use sg_fault::fault_at;
use sg_machine::{DestSetup, SourceSetup};
use sg_outside::{InletSpec, OutletSpec};
use sg_parse_text::Statement;
use sg_plan::{Owner, Plan, plan_of};
use sg_resolve::first_fault;
use sg_run_plan::InletPlan;
use std::alloc::Global;
use std::io;

fn put_owner(alloc: Global, out: &mut Vec<u8>, owner: &Owner) -> Result<(), NoMemory> {
    match owner {
        Owner::Named(name) => out.extend_from_slice(name.bytes()),
        Owner::Inline(at) => put_number(alloc, out, b"@", u64::from(*at)),
    }
}

fn put_inlet(alloc: Global, out: &mut Vec<u8>, spec: &InletSpec) -> Result<(), NoMemory> {
    match spec {
        InletSpec::File { path, limit, .. } => {
            out.extend_from_slice(path.bytes())?;
            put_number(alloc, out, b" cut ", u64::from(*limit))
        }
        InletSpec::Slot { ip, port, slot, .. } => {
            out.extend_from_slice(ip.bytes())?;
            put_number(alloc, out, b":", u64::from(*port))?;
            put_number(alloc, out, b" slot ", u64::from(*slot))
        }
    }
}

fn put_store(alloc: Global, out: &mut Vec<u8>, store: Option<u32>) -> Result<(), NoMemory> {
    match store {
        Some(number) => put_number(alloc, out, b" store ", u64::from(number)),
        None => Ok(()),
    }
}

pub(crate) fn put_source(
    alloc: Global,
    out: &mut Vec<u8>,
    setup: &SourceSetup,
) -> Result<(), NoMemory> {
    put_number(alloc, out, b" window ", u64::from(setup.window))?;
    put_store(alloc, out, setup.store)
}

// Whose it is, by its source's name or by the number of its driver.
fn put_plan(alloc: Global, out: &mut Vec<u8>, plan: &InletPlan) -> Result<(), NoMemory> {
    put_number(alloc, out, b" of ", u64::from(plan.driver))?;
    out.push(b' ')?;
    if let Some(source) = &plan.source {
        out.extend_from_slice(source.bytes())?;
    }
    put_number(alloc, out, b" ", u64::from(plan.limit))?;
    put_number(alloc, out, b" ", u64::from(plan.fetch))?;
    out.push(b' ')?;
    Ok(())
}

fn put_inlets(alloc: Global, out: &mut Vec<u8>, plan: &Plan) -> Result<(), NoMemory> {
    for (at, inlet) in plan.inlets.iter().enumerate() {
        if let Some(owner) = plan.ends.inlets.get(at) {
            put_owner(alloc, out, owner)?;
        }
        put_plan(alloc, out, inlet)?;
        put_inlet(alloc, out, &inlet.spec)?;
        if let Some(setup) = plan.setup.sources.get(at) {
            put_source(alloc, out, setup)?;
        }
        out.extend_from_slice(b"; ")?;
    }
    Ok(())
}

fn put_outlet(alloc: Global, out: &mut Vec<u8>, spec: &OutletSpec) -> Result<(), NoMemory> {
    match spec {
        OutletSpec::File { path, mode, .. } => {
            out.extend_from_slice(path.bytes())?;
            put_number(alloc, out, b" mode ", u64::from(*mode))
        }
        OutletSpec::Tcp { host, port, .. } => {
            out.extend_from_slice(host.bytes())?;
            put_number(alloc, out, b":", u64::from(*port))
        }
        OutletSpec::ByPath { .. } => Ok(()),
    }
}

fn put_dest(alloc: Global, out: &mut Vec<u8>, setup: &DestSetup) -> Result<(), NoMemory> {
    put_number(alloc, out, b" fifo ", u64::from(setup.fifo))?;
    match &setup.buffer {
        Some(buffer) => {
            put_number(alloc, out, b" disk ", buffer.capacity)?;
            put_store(alloc, out, Some(buffer.store))
        }
        None => Ok(()),
    }
}

fn put_outlets(alloc: Global, out: &mut Vec<u8>, plan: &Plan) -> Result<(), NoMemory> {
    for (at, outlet) in plan.outlets.iter().enumerate() {
        if let Some(owner) = plan.ends.outlets.get(at) {
            put_owner(alloc, out, owner)?;
        }
        out.push(b' ')?;
        put_outlet(alloc, out, &outlet.spec)?;
        if let Some(setup) = plan.setup.dests.get(at) {
            put_dest(alloc, out, setup)?;
        }
        out.extend_from_slice(b"; ")?;
    }
    Ok(())
}

// The stores, each with the size that it is made with where that is another one than a fresh store's.
fn put_stores(alloc: Global, out: &mut Vec<u8>, plan: &Plan) -> Result<(), NoMemory> {
    for store in &plan.stores {
        out.extend_from_slice(store.name.bytes())?;
        out.push(if store.create { b'+' } else { b'-' })?;
        let size = store.size;
        if size != 128 {
            out.extend_from_slice(format!(in alloc; "{size}")?.as_bytes())?;
        }
        out.push(b' ')?;
    }
    Ok(())
}

fn put_whole(alloc: Global, out: &mut Vec<u8>, plan: &Plan) -> Result<(), NoMemory> {
    put_inlets(alloc, out, plan)?;
    out.extend_from_slice(b"| ")?;
    put_outlets(alloc, out, plan)?;
    out.extend_from_slice(b"| ")?;
    put_stores(alloc, out, plan)
}

fn put_planned(alloc: Global, out: &mut Vec<u8>, statements: &[Statement]) -> Result<(), NoMemory>
    requires { IsFirstFault statements.now None }
{
    let plan = plan_of(alloc, statements)?;
    put_whole(alloc, out, &plan)
}

/// The plan of these statements, or the number and the line of what is wrong with them.
pub(crate) fn answer(alloc: Global, statements: &[Statement]) -> io::Result<Vec<u8>>
    requires { length statements.now < 2 ^ 32 }
{
    let mut out = Vec::new(alloc);
    match first_fault(alloc, statements)? {
        Some(fault) => put_fault(alloc, &mut out, fault_at(fault))?,
        None => put_planned(alloc, &mut out, statements)?,
    }
    Ok(out)
}
