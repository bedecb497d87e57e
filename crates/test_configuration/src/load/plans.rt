// Inlets, outlets and stores.

use crate::plan::put_source;
use crate::text::{put, put_name, put_number};
use sg_config::Config;
use sg_device::NoMemory;
use sg_machine::{BufferSetup, DestSetup};
use sg_outside::{InletSpec, OutletSpec};
use sg_run_plan::{InletPlan, OutletPlan};
use std::alloc::Global;

fn say_inlet_spec(alloc: Global, out: &mut Vec<u8>, spec: &InletSpec) -> Result<(), NoMemory> {
    match spec {
        InletSpec::File { path, .. } => put(out, path.bytes()),
        InletSpec::Slot { ip, port, slot, .. } => {
            put(out, ip.bytes())?;
            put_number(alloc, out, b":", u64::from(*port))?;
            put_number(alloc, out, b"/", u64::from(*slot))
        }
    }
}

fn say_inlet(alloc: Global, out: &mut Vec<u8>, inlet: &InletPlan) -> Result<(), NoMemory> {
    put(out, b"; inlet ")?;
    put_name(out, inlet.source.as_ref())?;
    put(out, b" ")?;
    say_inlet_spec(alloc, out, &inlet.spec)?;
    put_number(alloc, out, b" driver ", u64::from(inlet.driver))?;
    put_number(alloc, out, b" limit ", u64::from(inlet.limit))?;
    put_number(alloc, out, b" fetch ", u64::from(inlet.fetch))
}

pub(crate) fn say_inlets(
    alloc: Global,
    out: &mut Vec<u8>,
    config: &Config,
) -> Result<(), NoMemory> {
    for (i, inlet) in config.inlets.iter().enumerate() {
        say_inlet(alloc, out, inlet)?;
        if let Some(setup) = config.setup.sources.get(i) {
            put_source(alloc, out, setup)?;
        }
    }
    Ok(())
}

fn say_outlet(alloc: Global, out: &mut Vec<u8>, outlet: &OutletPlan) -> Result<(), NoMemory> {
    put(out, b"; outlet ")?;
    match &outlet.spec {
        OutletSpec::File { path, .. } => put(out, path.bytes()),
        OutletSpec::Tcp { host, port, .. } => {
            put(out, host.bytes())?;
            put_number(alloc, out, b":", u64::from(*port))
        }
        OutletSpec::ByPath { .. } => put(out, b"by path"),
    }
}

fn say_buffer(
    alloc: Global,
    out: &mut Vec<u8>,
    buffer: Option<BufferSetup>,
) -> Result<(), NoMemory> {
    match buffer {
        Some(buffer) => {
            put_number(alloc, out, b" buffer ", u64::from(buffer.store))?;
            put_number(alloc, out, b" of ", buffer.capacity)
        }
        None => Ok(()),
    }
}

fn say_dest(alloc: Global, out: &mut Vec<u8>, setup: &DestSetup) -> Result<(), NoMemory> {
    put_number(alloc, out, b" fifo ", u64::from(setup.fifo))?;
    say_buffer(alloc, out, setup.buffer)
}

pub(crate) fn say_outlets(
    alloc: Global,
    out: &mut Vec<u8>,
    config: &Config,
) -> Result<(), NoMemory> {
    for (d, outlet) in config.outlets.iter().enumerate() {
        say_outlet(alloc, out, outlet)?;
        if let Some(setup) = config.setup.dests.get(d) {
            say_dest(alloc, out, setup)?;
        }
    }
    Ok(())
}

pub(crate) fn say_stores(out: &mut Vec<u8>, config: &Config) -> Result<(), NoMemory> {
    for store in &config.stores {
        put(out, b"; store ")?;
        put(out, store.name.bytes())?;
    }
    Ok(())
}
