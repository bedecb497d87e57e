// The drivers of all statements, also of those in log statements, in the order of the text.
ghost use Rattle.std.specs.Prelude.{◌≡◌, map, IfOk, OnOk};
ghost use Rattle.std.specs.List.{fold};
ghost use Rattle.sg_resolve.specs.Drivers.{with_driver};
ghost use Rattle.sg_resolve.specs.Ends.{object_drivers, reference_drivers, leaf_drivers, counted};

use crate::driver::{DriverCounts, count_driver, no_drivers};
use crate::templates::TemplateTexts;
use sg_device::NoMemory;
use sg_parse_base::Spot;
use sg_parse_expr::{Call, RawExpr};
use sg_parse_obj::{Object, Side};
use sg_parse_path::{RawRef, ReferenceKind};
use sg_parse_text::Statement;
use sg_visit::{Visit, visit_statements};
use std::alloc::Global;

fn count_calls(
    alloc: Global,
    texts: &TemplateTexts,
    count: &mut DriverCounts,
    side: Side,
    calls: &[Call],
) -> Result<(), NoMemory>
    ensures { OnOk result (count.new
        ≡ fold (with_driver texts.now) count.old (map (λ call. (side, call)) calls.now)) }
{
    for call in calls {
        count_driver(alloc, texts, count, side, call)?;
    }
    Ok(())
}

fn count_object(
    alloc: Global,
    texts: &TemplateTexts,
    count: &mut DriverCounts,
    object: &Object,
) -> Result<(), NoMemory>
    ensures { OnOk result
        (count.new ≡ fold (with_driver texts.now) count.old (object_drivers object.now)) }
{
    match object {
        Object::Source { drivers, .. } => {
            count_calls(alloc, texts, count, Side::Source, drivers.as_slice())?;
            Ok(())
        }
        Object::Destination { drivers, .. } => {
            count_calls(alloc, texts, count, Side::Destination, drivers.as_slice())?;
            Ok(())
        }
        _ => Ok(()),
    }
}

fn count_reference(
    alloc: Global,
    texts: &TemplateTexts,
    count: &mut DriverCounts,
    reference: &RawRef,
) -> Result<(), NoMemory>
    ensures { OnOk result
        (count.new ≡ fold (with_driver texts.now) count.old (reference_drivers reference.now)) }
{
    match reference {
        RawRef::Named(_) => Ok(()),
        RawRef::Inline(object) => {
            count_object(alloc, texts, count, object)?;
            Ok(())
        }
    }
}

/// Counts drivers, with these templates.
#[derive(Drop)]
struct Counting<'a> {
    alloc: Global,
    texts: &'a TemplateTexts,
}

impl<'a> Visit for Counting<'a> {
    type State = DriverCounts;

    type Error = NoMemory;

    ghost step = { λ counting old leaf new.
        new ≡ fold (with_driver counting.texts.now) old (leaf_drivers leaf) };

    fn object(&self, count: &mut DriverCounts, object: &Object) -> Result<(), NoMemory> {
        count_object(self.alloc, self.texts, count, object)?;
        Ok(())
    }

    fn source(&self, _count: &mut DriverCounts, _word: &Spot) -> Result<(), NoMemory> {
        Ok(())
    }

    fn reference(
        &self,
        count: &mut DriverCounts,
        _kind: ReferenceKind,
        reference: &RawRef,
    ) -> Result<(), NoMemory> {
        count_reference(self.alloc, self.texts, count, reference)?;
        Ok(())
    }

    fn test(&self, _count: &mut DriverCounts, _test: &RawExpr) -> Result<(), NoMemory> {
        Ok(())
    }

    fn flags(&self, _count: &mut DriverCounts, _flags: &[Spot]) -> Result<(), NoMemory> {
        Ok(())
    }
}

/// What is found of all drivers: the first fault of each by itself, `Limit` at the word of the one with which there
/// are more than 128 inlets or more than 64 drivers of destinations, `DuplicateName` at the word of one whose store
/// a driver before has.
pub fn count_drivers(
    alloc: Global,
    texts: &TemplateTexts,
    statements: &[Statement],
) -> Result<DriverCounts, NoMemory>
    ensures { IfOk result (λ count. count ≡ counted texts.now statements.now) }
{
    let mut count = no_drivers(alloc);
    visit_statements(&Counting { alloc, texts }, &mut count, statements)?;
    Ok(count)
}
