// One driver, read.
ghost use Rattle.std.specs.Prelude.{◌≡◌, IfOk, OnOk, [], ◌∷◌};
ghost use Rattle.sg_driver.specs.Defaults.{AreDefaults};
ghost use Rattle.sg_plan.specs.Owned.{owner_at};
ghost use Rattle.sg_plan.specs.Reading.{IsDriverRead, ReadsDrivers};

use crate::Owner;
use crate::globals::Globals;
use sg_destination::{DestinationDriver, read_destination};
use sg_device::NoMemory;
use sg_parse_base::Spot;
use sg_parse_expr::Call;
use sg_parse_obj::Side;
use sg_source::{SourceDriver, read_source};
use std::alloc::Global;

#[derive(Drop)]
pub enum Driver {
    Source(SourceDriver),
    Destination(DestinationDriver),
}

/// A driver, and the statement in which it stands.
#[derive(Drop)]
pub struct OwnedDriver {
    pub owner: Owner,
    pub driver: Driver,
}

fn owner_at(inline: bool, name: &Spot) -> Result<Owner, NoMemory>
    ensures { IfOk result (λ owner. owner ≡ owner_at inline name.now) }
{
    if inline {
        return Ok(Owner::Inline(name.at));
    }
    Ok(Owner::Named(name.token.text.copy()?))
}

fn read_one(alloc: Global, globals: &Globals, side: Side, call: &Call) -> Result<Driver, NoMemory>
    requires { AreDefaults globals.now.defaults }
    ensures { IfOk result (IsDriverRead globals.now side call.now) }
{
    match side {
        Side::Source => Ok(Driver::Source(read_source(alloc, call, &globals.defaults)?)),
        Side::Destination => Ok(Driver::Destination(read_destination(
            alloc,
            call,
            &globals.defaults,
            &globals.texts,
        )?)),
    }
}

/// Reads a driver, and puts it behind those that were found before. It stands in the statement of this name, or
/// inline behind this brace.
pub fn read_driver(
    alloc: Global,
    globals: &Globals,
    found: &mut Vec<OwnedDriver>,
    inline: bool,
    name: &Spot,
    side: Side,
    call: &Call,
) -> Result<(), NoMemory>
    requires { AreDefaults globals.now.defaults }
    ensures { OnOk result (ReadsDrivers globals.now ((owner_at inline name.now, (side, call.now))
        ∷ [])
        found.old.items found.new.items) }
{
    let driver = read_one(alloc, globals, side, call)?;
    let owner = owner_at(inline, name)?;
    found.push(OwnedDriver { owner, driver })?;
    Ok(())
}
