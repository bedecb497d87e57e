// The inlets of a log statement.
ghost use Rattle.std.specs.Prelude.{◌≡◌, ◌<◌, ◌^◌, ◌++◌, length, IfOk, OnOk};
ghost use Rattle.std.specs.List.{flat_map};
ghost use Rattle.sg_forest.specs.References.{source_in};

use sg_device::NoMemory;
use sg_parse_path::RawElement;
use sg_plan::{Owner, numbers_of};
use std::alloc::Global;

#[tactic(auto, unfolding(crate::specs::References::source_in))]
fn push_source(
    alloc: Global,
    inlets: &[Owner],
    element: &RawElement,
    found: &mut Vec<u32>,
) -> Result<(), NoMemory>
    requires { length inlets.now < 2 ^ 32 }
    ensures { OnOk result (found.new.items ≡ found.old.items ++ source_in inlets.now element.now) }
{
    match element {
        RawElement::Source(_, source) => {
            let numbers = numbers_of(alloc, inlets, source)?;
            found.extend_from_slice(&numbers)?;
            Ok(())
        }
        _ => Ok(()),
    }
}

/// The inlets of the sources that elements name, in the order written.
pub fn sources_of(
    alloc: Global,
    inlets: &[Owner],
    elements: &[RawElement],
) -> Result<Vec<u32>, NoMemory>
    requires { length inlets.now < 2 ^ 32 }
    ensures { IfOk result
        (λ sources. sources.items ≡ flat_map (source_in inlets.now) elements.now) }
{
    let mut found = Vec::new(alloc);
    for element in elements {
        push_source(alloc, inlets, element, &mut found)?;
    }
    Ok(found)
}
