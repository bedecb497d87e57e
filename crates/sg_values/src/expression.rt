// Expressions.
ghost use Rattle.std.specs.Prelude.{◌≡◌};
ghost use Rattle.std.specs.List.{flat_map};
ghost use Rattle.sg_fault.specs.Faults.{least};
ghost use Rattle.sg_values.specs.Expressions.{expression_faults};

use crate::filter::filter_fault;
use sg_fault::{Placed, earlier};
use sg_parse_expr::RawExpr;

/// The first fault of the values in an expression.
#[tactic(auto, using(crate::proofs::Equations::faults_call, crate::proofs::Equations::faults_compare, crate::proofs::Equations::faults_and, crate::proofs::Equations::faults_or, crate::proofs::Equations::faults_not))]
#[cycle(expression)]
pub fn expression_fault(expr: &RawExpr) -> Option<Placed>
    ensures { result ≡ least (expression_faults expr.now) }
{
    match expr {
        RawExpr::Call(call) => filter_fault(call),
        RawExpr::Compare { .. } => None,
        RawExpr::And(terms) => terms_fault(terms.as_slice()),
        RawExpr::Or(terms) => terms_fault(terms.as_slice()),
        RawExpr::Not(term) => expression_fault(term.get()),
    }
}

#[cycle(expression)]
fn terms_fault(terms: &[RawExpr]) -> Option<Placed>
    ensures { result ≡ least (flat_map expression_faults terms.now) }
{
    let mut first = None;
    for term in terms {
        first = earlier(first, expression_fault(term));
    }
    first
}
