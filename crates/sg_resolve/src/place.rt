// What may stand in a top-level log statement alone: sources, and the flag `catchall`.
ghost use Rattle.std.specs.Prelude.{◌≡◌, Some};
ghost use Rattle.std.specs.List.{flat_map};
ghost use Rattle.sg_fault.specs.Faults.{earlier, least};
ghost use Rattle.sg_visit.specs.Leaves.{log_leaves};
ghost use Rattle.sg_resolve.specs.Places.{placed, flag_faults, leaf_faults, element_faults, top_element_faults, top_faults, statement_faults, places_faults};

use sg_fault::{Placed, earlier};
use sg_lex::ConfigKind;
use sg_parse_base::{Spot, line_of, same_keyword};
use sg_parse_expr::RawExpr;
use sg_parse_obj::Object;
use sg_parse_path::{RawElement, RawLog, RawRef, ReferenceKind};
use sg_parse_text::Statement;
use sg_visit::{Visit, visit_element, visit_logs};
use std::convert::Infallible;

fn at(kind: ConfigKind, spot: &Spot) -> Option<Placed>
    ensures { result ≡ Some (placed kind spot.now) }
{
    Some(Placed {
        kind,
        line: line_of(&spot.token, spot.at),
    })
}

fn flag_fault(flag: &Spot) -> Option<Placed>
    ensures { result ≡ least (flag_faults flag.now) }
{
    if same_keyword(flag.token.text.bytes(), b"catchall") {
        return at(ConfigKind::BadValue, flag);
    }
    None
}

fn flags_fault(flags: &[Spot]) -> Option<Placed>
    ensures { result ≡ least (flat_map flag_faults flags.now) }
{
    let mut first = None;
    for flag in flags {
        first = earlier(first, flag_fault(flag));
    }
    first
}

/// Finds the first fault of places in channels, branches and embedded statements.
#[derive(Drop)]
struct PlaceVisitor;

#[tactic(auto, using(sg_fault::proofs::Least::earlier_none))]
impl Visit for PlaceVisitor {
    type State = Option<Placed>;

    type Error = Infallible;

    ghost step = { λ visitor old leaf new. new ≡ earlier old (least (leaf_faults leaf)) };

    fn object(&self, _first: &mut Option<Placed>, _object: &Object) -> Result<(), Infallible> {
        Ok(())
    }

    fn source(&self, first: &mut Option<Placed>, word: &Spot) -> Result<(), Infallible> {
        *first = earlier(*first, at(ConfigKind::SourcePlace, word));
        Ok(())
    }

    fn reference(
        &self,
        _first: &mut Option<Placed>,
        _kind: ReferenceKind,
        _reference: &RawRef,
    ) -> Result<(), Infallible> {
        Ok(())
    }

    fn test(&self, _first: &mut Option<Placed>, _test: &RawExpr) -> Result<(), Infallible> {
        Ok(())
    }

    fn flags(&self, first: &mut Option<Placed>, flags: &[Spot]) -> Result<(), Infallible> {
        *first = earlier(*first, flags_fault(flags));
        Ok(())
    }
}

fn element_fault(element: &RawElement) -> Option<Placed>
    ensures { result ≡ least (element_faults element.now) }
{
    let mut first = None;
    match visit_element(&PlaceVisitor, &mut first, element) {
        Ok(()) => first,
        Err(never) => match never {},
    }
}

/// Of embedded statements.
fn logs_fault(logs: &[RawLog]) -> Option<Placed>
    ensures { result ≡ least (flat_map leaf_faults (flat_map log_leaves logs.now)) }
{
    let mut first = None;
    match visit_logs(&PlaceVisitor, &mut first, logs) {
        Ok(()) => first,
        Err(never) => match never {},
    }
}

#[tactic(auto, unfolding(crate::specs::Places::top_element_faults))]
fn top_element_fault(element: &RawElement) -> Option<Placed>
    ensures { result ≡ least (top_element_faults element.now) }
{
    match element {
        RawElement::Source(_, _) => None,
        _ => element_fault(element),
    }
}

fn top_elements_fault(elements: &[RawElement]) -> Option<Placed>
    ensures { result ≡ least (flat_map top_element_faults elements.now) }
{
    let mut first = None;
    for element in elements {
        first = earlier(first, top_element_fault(element));
    }
    first
}

#[tactic(auto, using(sg_fault::proofs::Least::least_append), unfolding(crate::specs::Places::top_faults))]
fn top_fault(log: &RawLog) -> Option<Placed>
    ensures { result ≡ least (top_faults log.now) }
{
    earlier(
        top_elements_fault(log.elements.as_slice()),
        logs_fault(log.embedded.as_slice()),
    )
}

fn statement_fault(statement: &Statement) -> Option<Placed>
    ensures { result ≡ least (statement_faults statement.now) }
{
    match statement {
        Statement::Object(_) => None,
        Statement::Log(log) => top_fault(log),
    }
}

/// The first fault of places: `SourcePlace` at a `source` that stands in a channel, a branch or an embedded
/// statement, `BadValue` at a flag `catchall` of a channel or an embedded statement.
#[tactic(auto, unfolding(crate::specs::Places::places_faults))]
pub fn places_fault(statements: &[Statement]) -> Option<Placed>
    ensures { result ≡ least (places_faults statements.now) }
{
    let mut first = None;
    for statement in statements {
        first = earlier(first, statement_fault(statement));
    }
    first
}
