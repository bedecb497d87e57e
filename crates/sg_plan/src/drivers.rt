// The drivers of all statements, also of those in log statements, in the order of the text.
ghost use Rattle.std.specs.Prelude.{◌≡◌, IfOk, OnOk};
ghost use Rattle.std.proofs.Props.{props};
ghost use Rattle.sg_driver.specs.Defaults.{AreDefaults};
ghost use Rattle.sg_plan.specs.Owned.{calls_at, object_owned, reference_owned, leaf_owned, owned_drivers};
ghost use Rattle.sg_plan.specs.Reading.{ReadsDrivers, AreDriversRead};

use crate::driver::{OwnedDriver, read_driver};
use crate::globals::Globals;
use sg_device::NoMemory;
use sg_parse_base::Spot;
use sg_parse_expr::{Call, RawExpr};
use sg_parse_obj::{Object, Side};
use sg_parse_path::{RawRef, ReferenceKind};
use sg_parse_text::Statement;
use sg_visit::{Visit, visit_statements};
use std::alloc::Global;

fn read_calls(
    alloc: Global,
    globals: &Globals,
    found: &mut Vec<OwnedDriver>,
    inline: bool,
    name: &Spot,
    side: Side,
    calls: &[Call],
) -> Result<(), NoMemory>
    requires { AreDefaults globals.now.defaults }
    ensures { OnOk result (ReadsDrivers globals.now (calls_at inline name.now side calls.now)
        found.old.items found.new.items) }
{
    for call in calls {
        read_driver(alloc, globals, found, inline, name, side, call)?;
    }
    Ok(())
}

fn read_object(
    alloc: Global,
    globals: &Globals,
    found: &mut Vec<OwnedDriver>,
    inline: bool,
    object: &Object,
) -> Result<(), NoMemory>
    requires { AreDefaults globals.now.defaults }
    ensures { OnOk result
        (ReadsDrivers globals.now (object_owned inline object.now) found.old.items found.new.items) }
{
    match object {
        Object::Source { name, drivers } => {
            let calls = drivers.as_slice();
            read_calls(alloc, globals, found, inline, name, Side::Source, calls)?;
            Ok(())
        }
        Object::Destination { name, drivers } => {
            let calls = drivers.as_slice();
            read_calls(
                alloc,
                globals,
                found,
                inline,
                name,
                Side::Destination,
                calls,
            )?;
            Ok(())
        }
        _ => Ok(()),
    }
}

fn read_reference(
    alloc: Global,
    globals: &Globals,
    found: &mut Vec<OwnedDriver>,
    reference: &RawRef,
) -> Result<(), NoMemory>
    requires { AreDefaults globals.now.defaults }
    ensures { OnOk result
        (ReadsDrivers globals.now (reference_owned reference.now) found.old.items found.new.items) }
{
    match reference {
        RawRef::Named(_) => Ok(()),
        RawRef::Inline(object) => {
            read_object(alloc, globals, found, true, object)?;
            Ok(())
        }
    }
}

/// Reads drivers, with these global options and templates.
#[derive(Drop)]
struct Reading<'a> {
    alloc: Global,
    globals: &'a Globals,
    ghost sound: { AreDefaults globals.now.defaults } by { Prim.hlevel props },
}

impl<'a> Visit for Reading<'a> {
    type State = Vec<OwnedDriver>;

    type Error = NoMemory;

    ghost step = { λ reading old leaf new.
        ReadsDrivers reading.globals.now (leaf_owned leaf) old.items new.items };

    fn object(&self, found: &mut Vec<OwnedDriver>, object: &Object) -> Result<(), NoMemory> {
        read_object(self.alloc, self.globals, found, false, object)?;
        Ok(())
    }

    fn source(&self, _found: &mut Vec<OwnedDriver>, _word: &Spot) -> Result<(), NoMemory> {
        Ok(())
    }

    fn reference(
        &self,
        found: &mut Vec<OwnedDriver>,
        _kind: ReferenceKind,
        reference: &RawRef,
    ) -> Result<(), NoMemory> {
        read_reference(self.alloc, self.globals, found, reference)?;
        Ok(())
    }

    fn test(&self, _found: &mut Vec<OwnedDriver>, _test: &RawExpr) -> Result<(), NoMemory> {
        Ok(())
    }

    fn flags(&self, _found: &mut Vec<OwnedDriver>, _flags: &[Spot]) -> Result<(), NoMemory> {
        Ok(())
    }
}

/// All drivers, as their options make them.
pub fn read_drivers(
    alloc: Global,
    globals: &Globals,
    statements: &[Statement],
) -> Result<Vec<OwnedDriver>, NoMemory>
    requires { AreDefaults globals.now.defaults }
    ensures { IfOk result
        (λ found. AreDriversRead globals.now (owned_drivers statements.now) found.items) }
{
    let mut found = Vec::new(alloc);
    visit_statements(&Reading { alloc, globals }, &mut found, statements)?;
    Ok(found)
}
