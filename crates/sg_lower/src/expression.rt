// Expressions.
ghost use Rattle.std.specs.Prelude.{◌≡◌, map, IfOk};
ghost use Rattle.sg_lower.specs.Expressions.{expression};

use crate::filter::filter_expr;
use crate::value::template_of;
use sg_device::NoMemory;
use sg_filter::Expr;
use sg_names::Names;
use sg_parse_expr::RawExpr;
use sqlite_items::{Boxed, Items};
use std::alloc::Global;

/// The expression that a tree stands for.
#[tactic(auto, using(crate::proofs::Equations::means_call, crate::proofs::Equations::means_compare, crate::proofs::Equations::means_and, crate::proofs::Equations::means_or, crate::proofs::Equations::means_not))]
#[cycle(expression)]
pub fn lower_expression(alloc: Global, names: &Names, expr: &RawExpr) -> Result<Expr, NoMemory>
    ensures { IfOk result (λ lowered. lowered ≡ expression names.now expr.now) }
{
    match expr {
        RawExpr::Call(call) => Ok(filter_expr(alloc, names, call)?),
        RawExpr::Compare { left, cmp, right } => Ok(Expr::Compare {
            left: template_of(alloc, left.token.text.bytes())?,
            cmp: *cmp,
            right: template_of(alloc, right.token.text.bytes())?,
        }),
        RawExpr::And(terms) => Ok(Expr::And(lower_all(alloc, names, terms.as_slice())?)),
        RawExpr::Or(terms) => Ok(Expr::Or(lower_all(alloc, names, terms.as_slice())?)),
        RawExpr::Not(term) => {
            let inner = lower_expression(alloc, names, term.get())?;
            Ok(Expr::Not(Boxed::new(alloc, inner)?))
        }
    }
}

#[cycle(expression)]
fn lower_all(alloc: Global, names: &Names, terms: &[RawExpr]) -> Result<Items<Expr>, NoMemory>
    ensures { IfOk result (λ all. all ≡ map (expression names.now) terms.now) }
{
    let mut all = Items::new(alloc);
    for term in terms {
        all.push(lower_expression(alloc, names, term)?)?;
    }
    Ok(all)
}
