// The table of a configuration's log paths.
ghost use Rattle.std.specs.Prelude.{◌≡◌, map, length, IfOk, IfErr, OnOk};
ghost use Rattle.sg_outside.specs.World.{OnlyBuilds};
ghost use Rattle.sg_pattern.specs.Builds.{RefusesNone, calls_by};
ghost use Rattle.sg_filter.specs.Patterns.{AreValid};
ghost use Rattle.sg_tree.specs.Offers.{woods_of};
ghost use Rattle.sg_table.specs.Forest.{forest_of};
ghost use Rattle.sg_table.specs.Patterns.{patterns_in};
ghost use Rattle.sg_table.specs.Refused.{AreOffersBounded, RefusesForest, RefusesSome};
ghost use Rattle.sg_table.specs.Tried.{TriesPatterns};

use crate::Table;
use crate::bound::check_bounds;
use crate::build::tops;
use crate::copying::{copied_dests, copied_inlets};
use crate::tried::try_forest;
use sg_pattern::Builder;
use sg_tree::{Forest, PathRefusal};
use std::alloc::Global;

// The table of a tree whose patterns were all made before, or what was refused where its making stopped.
fn made<B: Builder>(alloc: Global, forest: &Forest, builder: &mut B) -> Result<Table, PathRefusal>
    ensures meaning { IfOk result (λ table. forest_of table ≡ woods_of forest.now) }
    ensures bound { IfOk result (λ _. AreOffersBounded (woods_of forest.now).tops) }
    ensures refused { IfErr result
        (RefusesSome (B.state builder.old) (B.state builder.new) forest.now) }
    ensures stays { OnOk result (RefusesNone (B.state builder.old) (B.state builder.new)) }
    ensures only { OnlyBuilds (B.state builder.old) (B.state builder.new) }
{
    let named = forest.filters.as_slice();
    let mut pipes = Vec::new(alloc);
    let tops = match tops(alloc, builder, named, &forest.paths, &mut pipes) {
        Ok(tops) => tops,
        Err(refusal) => return Err(refusal),
    };
    match check_bounds(alloc, &forest.paths, &tops, &pipes) {
        Ok(()) => {}
        Err(refusal) => return Err(refusal),
    }
    Ok(Table {
        inlets: copied_inlets(alloc, &forest.inlets)?,
        dests: copied_dests(alloc, &forest.dests)?,
        tops,
        pipes,
    })
}

/// The table of a tree, which is read back as that tree.
///
/// Each pattern is tried first, in the order of the text, also those of filters and rewrites with names that
/// nothing uses: where some are refused, the answer is the first that is none, or else the first that was
/// refused for its size. Then the filters and rewrites of the statements are made, once for each place that
/// uses them. The bounds come after all patterns.
pub fn compile<B: Builder>(
    alloc: Global,
    forest: &Forest,
    builder: &mut B,
) -> Result<Table, PathRefusal>
    ensures meaning { IfOk result (λ table. forest_of table ≡ woods_of forest.now) }
    ensures valid { IfOk result (λ _. AreValid (patterns_in forest.now)) }
    ensures bound { IfOk result (λ _. AreOffersBounded (woods_of forest.now).tops) }
    ensures refused { IfErr result
        (RefusesForest (B.state builder.old) (B.state builder.new) forest.now) }
    ensures tries { TriesPatterns B.state (calls_by B.state B.build_step) builder.old builder.new
        (patterns_in forest.now) result }
    ensures only { OnlyBuilds (B.state builder.old) (B.state builder.new) }
{
    match try_forest(alloc, builder, forest) {
        Ok(()) => {}
        Err(refusal) => return Err(refusal),
    }
    match made(alloc, forest, builder) {
        Ok(table) => Ok(table),
        Err(refusal) => Err(refusal),
    }
}
