// The filter statements, and which of them each names.
ghost use Rattle.std.specs.Prelude.{◌≡◌, ◌≤◌, ◌++◌, length, IfOk, OnOk};
ghost use Rattle.std.specs.Option.{option_to_list};
ghost use Rattle.sg_names.specs.Filters.{filter_place, places_in, no_filters, with_filter, with_statement, filters_of};

use crate::names::Names;
use crate::reference::Term;
use crate::terms::terms_of;
use sg_lex::Line;
use sg_parse_base::{Spot, line_of};
use sg_parse_expr::RawExpr;
use sg_parse_obj::Object;
use sg_parse_text::Statement;
use sqlite_items::Items;
use std::alloc::{AllocError, Global};

/// The filter statements in the order of the text.
#[derive(Drop)]
pub struct Filters {
    /// Where the name of each stands.
    pub lines: Items<Line>,
    /// The numbers of those that each names.
    pub links: Items<Items<u32>>,
    /// How many calls and comparisons each has.
    pub own: Items<u64>,
}

/// The number of the filter that a term names.
pub fn filter_place(term: &Term) -> Option<u32>
    ensures { result ≡ filter_place term.now }
{
    match &term.filter {
        Some(reference) => reference.place,
        None => None,
    }
}

fn push_place(places: &mut Items<u32>, place: Option<u32>) -> Result<(), AllocError>
    ensures { OnOk result (places.new ≡ places.old ++ option_to_list place) }
{
    match place {
        Some(place) => {
            places.push(place)?;
            Ok(())
        }
        None => Ok(()),
    }
}

fn places_in(alloc: Global, terms: &[Term]) -> Result<Items<u32>, AllocError>
    ensures { IfOk result (λ places. places ≡ places_in terms.now) }
{
    let mut places = Items::new(alloc);
    for term in terms {
        push_place(&mut places, filter_place(term))?;
    }
    Ok(places)
}

fn no_filters(alloc: Global) -> Filters
    ensures { result ≡ no_filters }
{
    Filters {
        lines: Items::new(alloc),
        links: Items::new(alloc),
        own: Items::new(alloc),
    }
}

fn push_filter(
    alloc: Global,
    names: &Names,
    filters: &mut Filters,
    name: &Spot,
    expr: &RawExpr,
) -> Result<(), AllocError>
    ensures { OnOk result (filters.new ≡ with_filter names.now filters.old name.now expr.now) }
{
    let terms = terms_of(alloc, names, expr)?;
    filters.lines.push(line_of(&name.token, name.at))?;
    filters.own.push(terms.len() as u64)?;
    filters.links.push(places_in(alloc, terms.as_slice())?)?;
    Ok(())
}

fn push_statement(
    alloc: Global,
    names: &Names,
    filters: &mut Filters,
    statement: &Statement,
) -> Result<(), AllocError>
    ensures { OnOk result (filters.new ≡ with_statement names.now filters.old statement.now) }
{
    match statement {
        Statement::Object(Object::Filter { name, expr }) => {
            push_filter(alloc, names, filters, name, expr)?;
            Ok(())
        }
        _ => Ok(()),
    }
}

/// The filter statements of a configuration.
#[tactic(auto, unfolding(crate::specs::Filters::filters_of))]
pub fn filters_of(
    alloc: Global,
    names: &Names,
    statements: &[Statement],
) -> Result<Filters, AllocError>
    ensures each { IfOk result (λ filters. filters ≡ filters_of names.now statements.now) }
    ensures count { IfOk result (λ filters. length filters.links ≤ length statements.now) }
    ensures own { IfOk result (λ filters. length filters.own ≡ length filters.links) }
{
    let mut filters = no_filters(alloc);
    for statement in statements {
        push_statement(alloc, names, &mut filters, statement)?;
    }
    Ok(filters)
}
