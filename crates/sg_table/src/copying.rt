// Copies of what a table has beside its pipes.
ghost use Rattle.std.specs.Prelude.{◌≡◌, map, IfOk};
ghost use Rattle.sg_tree.specs.Readings.{inlet_of};

use sg_device::Name;
use sg_tree::{DestRule, InletRule};
use std::alloc::{AllocError, Global};

pub(crate) fn copied_numbers(alloc: Global, numbers: &[u32]) -> Result<Vec<u32>, AllocError>
    ensures { IfOk result (λ copies. copies.items ≡ numbers.now) }
{
    Vec::from_slice(alloc, numbers)
}

fn copied_names(alloc: Global, names: &[Name]) -> Result<Vec<Name>, AllocError>
    ensures { IfOk result (λ copies. copies.items ≡ names.now) }
{
    let mut copies = Vec::new(alloc);
    for name in names {
        copies.push(name.copy()?)?;
    }
    Ok(copies)
}

fn copied_inlet(alloc: Global, rule: &InletRule) -> Result<InletRule, AllocError>
    ensures { IfOk result (λ copy. inlet_of copy ≡ inlet_of rule.now) }
{
    Ok(InletRule {
        opts: rule.opts,
        rfc5424: rule.rfc5424,
        empty_lines: rule.empty_lines,
        one_line: rule.one_line,
        tags: copied_names(alloc, &rule.tags)?,
    })
}

pub(crate) fn copied_inlets(
    alloc: Global,
    rules: &[InletRule],
) -> Result<Vec<InletRule>, AllocError>
    ensures { IfOk result (λ copies. map inlet_of copies.items ≡ map inlet_of rules.now) }
{
    let mut copies = Vec::new(alloc);
    for rule in rules {
        copies.push(copied_inlet(alloc, rule)?)?;
    }
    Ok(copies)
}

pub(crate) fn copied_dests(alloc: Global, dests: &[DestRule]) -> Result<Vec<DestRule>, AllocError>
    ensures { IfOk result (λ copies. copies.items ≡ dests.now) }
{
    Vec::from_slice(alloc, dests)
}
