// All statements of a configuration.
ghost use Rattle.std.specs.Prelude.{◌≡◌};
ghost use Rattle.std.specs.List.{flat_map};
ghost use Rattle.sg_fault.specs.Faults.{earlier, least};
ghost use Rattle.sg_values.specs.Conditions.{rewrite_faults};
ghost use Rattle.sg_values.specs.Parsers.{parser_faults};
ghost use Rattle.sg_values.specs.Texts.{object_faults, reference_faults, leaf_faults, values_faults};

use crate::expression::expression_fault;
use crate::parser::parser_fault;
use crate::rewrite::rewrite_fault;
use sg_fault::{Placed, earlier};
use sg_parse_base::Spot;
use sg_parse_expr::{Call, RawExpr};
use sg_parse_obj::Object;
use sg_parse_path::{RawRef, ReferenceKind};
use sg_parse_text::Statement;
use sg_visit::{Visit, visit_statements};
use std::convert::Infallible;

fn rewrites_fault(calls: &[Call]) -> Option<Placed>
    ensures { result ≡ least (flat_map rewrite_faults calls.now) }
{
    let mut first = None;
    for call in calls {
        first = earlier(first, rewrite_fault(call));
    }
    first
}

fn parsers_fault(calls: &[Call]) -> Option<Placed>
    ensures { result ≡ least (flat_map parser_faults calls.now) }
{
    let mut first = None;
    for call in calls {
        first = earlier(first, parser_fault(call));
    }
    first
}

fn object_fault(object: &Object) -> Option<Placed>
    ensures { result ≡ least (object_faults object.now) }
{
    match object {
        Object::Filter { expr, .. } => expression_fault(expr),
        Object::Rewrite { calls, .. } => rewrites_fault(calls.as_slice()),
        Object::Parser { calls, .. } => parsers_fault(calls.as_slice()),
        _ => None,
    }
}

fn reference_fault(reference: &RawRef) -> Option<Placed>
    ensures { result ≡ least (reference_faults reference.now) }
{
    match reference {
        RawRef::Named(_) => None,
        RawRef::Inline(object) => object_fault(object),
    }
}

/// Finds the first fault of values.
#[derive(Drop)]
struct ValueVisitor;

#[tactic(auto, using(sg_fault::proofs::Least::earlier_none))]
impl Visit for ValueVisitor {
    type State = Option<Placed>;

    type Error = Infallible;

    ghost step = { λ visitor old leaf new. new ≡ earlier old (least (leaf_faults leaf)) };

    fn object(&self, first: &mut Option<Placed>, object: &Object) -> Result<(), Infallible> {
        *first = earlier(*first, object_fault(object));
        Ok(())
    }

    fn source(&self, _first: &mut Option<Placed>, _word: &Spot) -> Result<(), Infallible> {
        Ok(())
    }

    fn reference(
        &self,
        first: &mut Option<Placed>,
        _kind: ReferenceKind,
        reference: &RawRef,
    ) -> Result<(), Infallible> {
        *first = earlier(*first, reference_fault(reference));
        Ok(())
    }

    fn test(&self, first: &mut Option<Placed>, test: &RawExpr) -> Result<(), Infallible> {
        *first = earlier(*first, expression_fault(test));
        Ok(())
    }

    fn flags(&self, _first: &mut Option<Placed>, _flags: &[Spot]) -> Result<(), Infallible> {
        Ok(())
    }
}

/// The first fault of the values of all filters, rewrites and parsers, also of those in log statements.
pub fn values_fault(statements: &[Statement]) -> Option<Placed>
    ensures { result ≡ least (values_faults statements.now) }
{
    let mut first = None;
    match visit_statements(&ValueVisitor, &mut first, statements) {
        Ok(()) => first,
        Err(never) => match never {},
    }
}
