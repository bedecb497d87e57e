// The log paths of a configuration.
ghost use Rattle.std.specs.Prelude.{◌≡◌, ◌<◌, ◌^◌, length, IfOk};
ghost use Rattle.sg_forest.specs.Forests.{IsForest};

use crate::statement::{calls_by_place, filters_of, push_parsers_by_place, rules_of, tops_of};
use sg_device::NoMemory;
use sg_names::Names;
use sg_parse_text::Statement;
use sg_plan::Endpoints;
use sg_tree::{DestRule, Forest, InletRule};
use std::alloc::Global;

fn dests_of(alloc: Global, count: usize) -> Result<Vec<DestRule>, NoMemory>
    ensures { IfOk result (λ dests. length dests.items ≡ count) }
{
    vec![in alloc; DestRule {}; count]
}

/// The log paths of a configuration's statements: filters and rewrites by the numbers of their statements among
/// those of their kind, inlets and destinations by those that `ends` has.
pub fn forest_of(
    alloc: Global,
    names: &Names,
    ends: &Endpoints,
    inlets: Vec<InletRule>,
    statements: &[Statement],
) -> Result<Forest, NoMemory>
    requires inlets { length ends.now.inlets < 2 ^ 32 }
    requires outlets { length ends.now.outlets < 2 ^ 32 }
    ensures { IfOk result (IsForest names.now ends.now inlets.items statements.now) }
{
    let mut calls = calls_by_place(alloc, statements)?;
    let filters = filters_of(alloc, names, statements)?;
    let rewrites = rules_of(alloc, names, &calls)?;
    push_parsers_by_place(statements, &mut calls)?;
    let paths = tops_of(alloc, names, ends, &calls, statements)?;
    let dests = dests_of(alloc, ends.outlets.len())?;
    Ok(Forest {
        inlets,
        dests,
        filters,
        rewrites,
        paths,
    })
}
