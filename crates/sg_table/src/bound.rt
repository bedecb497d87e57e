// The bound on offers.
ghost use Rattle.std.specs.Prelude.{◌≡◌, [], List, length, map, IfOk};
ghost use Rattle.sg_filter.specs.declared.expr.Expr.{Expr as AnExpr};
ghost use Rattle.sg_tree.specs.Offers.{top_view};
ghost use Rattle.sg_tree.specs.Walk.{Steps as SomeSteps};
ghost use Rattle.sg_table.specs.Fans.{ChecksBounds, fan};
ghost use Rattle.sg_table.specs.Forest.{statement_at};
ghost use Rattle.sg_table.specs.Table.{place, read, steps_at};

use crate::fan::{Fan, fan_at, fan_of, sum};
use crate::{Pipe, Top};
use sg_tree::{Path, PathRefusal};
use std::alloc::{AllocError, Global};

// What becomes of a message at each place.
fn fans_of(alloc: Global, pipes: &[Pipe]) -> Result<Vec<Fan>, AllocError>
    ensures { IfOk result (λ fans. fans.items ≡ map fan (read [] pipes.now)) }
{
    let mut fans = Vec::new(alloc);
    for pipe in pipes {
        let fan = fan_of(&fans, pipe);
        fans.push(fan)?;
    }
    Ok(fans)
}

fn check_tops(fans: &[Fan], paths: &[Path], tops: &[Top]) -> Result<(), PathRefusal>
    requires { length tops.now ≡ length paths.now }
    ensures { (named : List AnExpr) (steps : List SomeSteps) → fans.now ≡ map fan steps
        → map (statement_at (place steps)) tops.now ≡ map (top_view named) paths.now
        → ChecksBounds named paths.now result }
{
    let mut offers = 0;
    for i in 0..paths.len() {
        let fan = fan_at(fans, tops[i].branch.start);
        offers = sum(offers, fan.offers);
        if (offers > 1024) | (fan.most > 1024) {
            return Err(PathRefusal::TooManyOffers(paths[i].line));
        }
    }
    Ok(())
}

/// Refuses the first statement with which a record may have more than 1,024 offers, or in which more
/// than 1,024 messages may reach a place.
pub(crate) fn check_bounds(
    alloc: Global,
    paths: &[Path],
    tops: &[Top],
    pipes: &[Pipe],
) -> Result<(), PathRefusal>
    requires { length tops.now ≡ length paths.now }
    ensures { (named : List AnExpr)
        → map (statement_at (steps_at pipes.now)) tops.now ≡ map (top_view named) paths.now
        → ChecksBounds named paths.now result }
{
    let fans = fans_of(alloc, pipes)?;
    check_tops(&fans, paths, tops)
}
