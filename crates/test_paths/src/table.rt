// The table of log paths.
ghost use Rattle.std.specs.Prelude.{◌<◌, ◌≤◌, length, IfOk, IfSome};
ghost use Rattle.sg_tree.specs.Bounds.{all_offers};
ghost use Rattle.sg_table.specs.Forest.{forest_of};

use sg_pattern::Patterns;
use sg_pipes::{Pipes, names_within};
use sg_table::{Table, compile};
use sg_tree::{Forest, PathRefusal};
use std::alloc::Global;

fn compiled(alloc: Global, forest: &Forest) -> Result<Table, PathRefusal>
    ensures { IfOk result (λ table. all_offers (forest_of table).tops ≤ 1024) }
{
    let mut patterns = Patterns::new(alloc);
    match compile(alloc, forest, &mut patterns) {
        Ok(table) => Ok(table),
        Err(refusal) => Err(refusal),
    }
}

/// The paths at work, if they name no destination that isn't there.
pub(crate) fn pipes(
    alloc: Global,
    forest: &Forest,
    inlet: u32,
) -> Result<Option<Pipes>, PathRefusal>
    ensures { IfOk result (λ made. IfSome made (λ pipes. inlet < length pipes.table.inlets.items)) }
{
    let table = compiled(alloc, forest)?;
    if inlet as usize >= table.inlets.len() {
        return Ok(None);
    }
    if !names_within(&table) {
        return Ok(None);
    }
    Ok(Some(Pipes::new(alloc, table)))
}
