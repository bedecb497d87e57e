// The plan of a configuration.
ghost use Rattle.std.specs.Prelude.{◌≡◌, ◌<◌, ◌≤◌, ◌^◌, length, None, IfOk, OnOk};
ghost use Rattle.std.specs.List.{fold};
ghost use Rattle.sg_resolve.specs.First.{IsFirstFault};
ghost use Rattle.sg_plan.specs.Parts.{parts_of, no_parts, with_source, with_destination, with_driver};
ghost use Rattle.sg_plan.specs.Plans.{IsPlan};

use crate::adding::{add_buffer, add_inlets, add_owners, add_position, add_setups};
use crate::driver::{Driver, OwnedDriver};
use crate::drivers::read_drivers;
use crate::globals::globals_of;
use crate::{Endpoints, Owner};
use sg_destination::DestinationDriver;
use sg_device::NoMemory;
use sg_list::Seq;
use sg_machine::{DestSetup, Setup, SourceSetup};
use sg_outside::StoreSpec;
use sg_parse_text::Statement;
use sg_run_plan::{InletPlan, OutletPlan};
use sg_source::SourceDriver;
use std::alloc::Global;
use std::collections::VecDeque;

/// What the drivers of a configuration come to. Inlets, drivers of sources, drivers of destinations and stores count
/// from 0 in the order of the text.
#[derive(Drop)]
pub struct Plan {
    /// The statement of each inlet and of each driver of a destination.
    pub ends: Endpoints,
    /// The drivers of sources. An inlet's `driver` is a place here.
    pub sources: Vec<SourceDriver>,
    /// The window and the store of each inlet, the queue and the disk-buffer of each driver of a destination.
    pub setup: Setup,
    pub inlets: Vec<InletPlan>,
    pub outlets: Vec<OutletPlan>,
    /// Each is made where it is missing.
    pub stores: Vec<StoreSpec>,
}

fn no_parts(alloc: Global) -> Plan
    ensures { parts_of result ≡ no_parts }
{
    Plan {
        ends: Endpoints {
            inlets: Seq::empty(alloc),
            outlets: Seq::empty(alloc),
        },
        sources: Vec::new(alloc),
        setup: Setup {
            sources: Seq::empty(alloc),
            dests: Seq::empty(alloc),
        },
        inlets: Vec::new(alloc),
        outlets: Vec::new(alloc),
        stores: Vec::new(alloc),
    }
}

fn add_source(
    alloc: Global,
    plan: &mut Plan,
    owner: &Owner,
    source: SourceDriver,
) -> Result<(), NoMemory>
    requires sources { length plan.old.sources.items < 2 ^ 32 }
    requires stores { length plan.old.stores.items < 2 ^ 32 }
    ensures { OnOk result (parts_of plan.new ≡ with_source (parts_of plan.old) owner.now source) }
{
    let number = plan.sources.len() as u32;
    let slots = source.slots();
    let store = add_position(&mut plan.stores, source.store(alloc)?)?;
    let window = source.window;
    add_owners(&mut plan.ends.inlets, owner, slots)?;
    add_setups(
        &mut plan.setup.sources,
        SourceSetup { window, store },
        slots,
    )?;
    add_inlets(&mut plan.inlets, number, owner, &source)?;
    plan.sources.push(source)?;
    Ok(())
}

fn add_destination(
    plan: &mut Plan,
    owner: Owner,
    destination: DestinationDriver,
) -> Result<(), NoMemory>
    requires { length plan.old.stores.items < 2 ^ 32 }
    ensures { OnOk result
        (parts_of plan.new ≡ with_destination (parts_of plan.old) owner destination) }
{
    let DestinationDriver {
        plan: outlet,
        fifo,
        buffer,
    } = destination;
    let buffer = add_buffer(&mut plan.stores, buffer)?;
    plan.ends.outlets.push(owner)?;
    plan.setup.dests.push(DestSetup { fifo, buffer })?;
    plan.outlets.push(outlet)?;
    Ok(())
}

fn add_driver(alloc: Global, plan: &mut Plan, owned: OwnedDriver) -> Result<(), NoMemory>
    requires sources { length plan.old.sources.items < 2 ^ 32 }
    requires stores { length plan.old.stores.items < 2 ^ 32 }
    ensures { OnOk result (parts_of plan.new ≡ with_driver (parts_of plan.old) owned) }
{
    let OwnedDriver { owner, driver } = owned;
    match driver {
        Driver::Source(source) => {
            add_source(alloc, plan, &owner, source)?;
            Ok(())
        }
        Driver::Destination(destination) => {
            add_destination(plan, owner, destination)?;
            Ok(())
        }
    }
}

fn with_drivers(alloc: Global, drivers: Vec<OwnedDriver>) -> Result<Plan, NoMemory>
    requires { length drivers.items < 2 ^ 32 }
    ensures { IfOk result (λ plan. parts_of plan ≡ fold with_driver no_parts drivers.items) }
{
    let mut plan = no_parts(alloc);
    let mut rest = VecDeque::from(drivers);
    while let Some(owned) = rest.pop_front() {
        add_driver(alloc, &mut plan, owned)?;
    }
    Ok(plan)
}

/// What the drivers of these statements come to, with the global options and the templates of the whole text.
pub fn plan_of(alloc: Global, statements: &[Statement]) -> Result<Plan, NoMemory>
    requires { IsFirstFault statements.now None }
    ensures { IfOk result (IsPlan statements.now) }
{
    let globals = globals_of(alloc, statements)?;
    let drivers = read_drivers(alloc, &globals, statements)?;
    Ok(with_drivers(alloc, drivers)?)
}
