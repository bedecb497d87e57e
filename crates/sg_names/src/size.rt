// How large expressions are.
ghost use Rattle.std.specs.Prelude.{◌≡◌, ◌++◌, [], ◌∷◌, map, IfOk, OnOk};
ghost use Rattle.std.specs.List.{sum_by};
ghost use Rattle.sg_names.specs.Parts.{rewrite_part};
ghost use Rattle.sg_names.specs.Sizes.{capped, size_at, term_size, terms_size, part_size, statement_sizes, rewrite_sizes, parser_sizes_with, parser_sizes};

use crate::filters::filter_place;
use crate::names::Names;
use crate::part::{NameUse, rewrites_of};
use crate::reference::Term;
use sg_parse_expr::Call;
use sg_parse_obj::Object;
use sg_parse_text::Statement;
use sqlite_items::Items;
use std::alloc::{AllocError, Global};

/// Sizes are counted up to this one, which is above all limits.
pub const MOST: u64 = 65_537;

/// The size of that number: 0 where there is none.
fn size_at(sizes: &[u64], place: Option<u32>) -> u64
    ensures { result ≡ size_at sizes.now place }
{
    let Some(place) = place else {
        return 0;
    };
    match sizes.get(place as usize) {
        Some(size) => *size,
        None => 0,
    }
}

fn capped_at(sizes: &[u64], place: Option<u32>) -> u64
    ensures { result ≡ capped (size_at sizes.now place) }
{
    size_at(sizes, place).min(MOST)
}

fn term_size(sizes: &[u64], term: &Term) -> u64
    ensures { result ≡ capped (term_size sizes.now term.now) }
{
    (capped_at(sizes, filter_place(term)) + 1).min(MOST)
}

/// The size of an expression.
pub fn terms_size(sizes: &[u64], terms: &[Term]) -> u64
    ensures { result ≡ capped (terms_size sizes.now terms.now) }
{
    let mut sum = 0u64;
    for term in terms {
        sum = sum.saturating_add(term_size(sizes, term)).min(MOST);
    }
    sum
}

fn conditions_size(sizes: &[u64], conditions: &[Items<Term>]) -> u64
    ensures { result ≡ capped (sum_by (terms_size sizes.now) conditions.now) }
{
    let mut sum = 0u64;
    for terms in conditions {
        sum = sum
            .saturating_add(terms_size(sizes, terms.as_slice()))
            .min(MOST);
    }
    sum
}

/// What a part counts.
pub fn part_size(sizes: &[u64], rewrites: &[u64], parsers: &[u64], part: &NameUse) -> u64
    ensures { result ≡ capped (part_size sizes.now rewrites.now parsers.now part.now) }
{
    match part {
        NameUse::Expression(terms) => terms_size(sizes, terms.as_slice()),
        NameUse::Rewrite { conditions, .. } => {
            conditions_size(sizes, conditions.as_slice())
                .saturating_add(1)
                .min(MOST)
        }
        NameUse::Filter(reference) => capped_at(sizes, reference.place),
        NameUse::Rewrites(reference) => capped_at(rewrites, reference.place),
        NameUse::Parser(_) => 1,
        NameUse::Parsers(reference) => capped_at(parsers, reference.place),
        NameUse::End(_) => 0,
    }
}

fn parts_size(sizes: &[u64], parts: &[NameUse]) -> u64
    ensures { result ≡ capped (sum_by (part_size sizes.now [] []) parts.now) }
{
    let mut sum = 0u64;
    for part in parts {
        sum = sum
            .saturating_add(part_size(sizes, &[], &[], part))
            .min(MOST);
    }
    sum
}

fn push_size(
    alloc: Global,
    names: &Names,
    sizes: &[u64],
    calls: &[Call],
    found: &mut Items<u64>,
) -> Result<(), AllocError>
    ensures { OnOk result (found.new ≡ found.old
        ++ capped (sum_by (part_size sizes.now [] []) (map (rewrite_part names.now) calls.now))
        ∷ []) }
{
    let parts = rewrites_of(alloc, names, calls)?;
    found.push(parts_size(sizes, parts.as_slice()))?;
    Ok(())
}

fn push_statement(
    alloc: Global,
    names: &Names,
    sizes: &[u64],
    statement: &Statement,
    found: &mut Items<u64>,
) -> Result<(), AllocError>
    ensures { OnOk result
        (found.new ≡ statement_sizes names.now sizes.now found.old statement.now) }
{
    match statement {
        Statement::Object(Object::Rewrite { calls, .. }) => {
            push_size(alloc, names, sizes, calls.as_slice(), found)?;
            Ok(())
        }
        _ => Ok(()),
    }
}

/// What each rewrite statement counts.
#[tactic(auto, unfolding(crate::specs::Sizes::rewrite_sizes))]
pub fn rewrite_sizes(
    alloc: Global,
    names: &Names,
    sizes: &[u64],
    statements: &[Statement],
) -> Result<Items<u64>, AllocError>
    ensures { IfOk result (λ found. found ≡ rewrite_sizes names.now sizes.now statements.now) }
{
    let mut found = Items::new(alloc);
    for statement in statements {
        push_statement(alloc, names, sizes, statement, &mut found)?;
    }
    Ok(found)
}

fn push_parser_size(statement: &Statement, found: &mut Items<u64>) -> Result<(), AllocError>
    ensures { OnOk result (found.new ≡ parser_sizes_with found.old statement.now) }
{
    match statement {
        Statement::Object(Object::Parser { calls, .. }) => {
            found.push((calls.len() as u64).min(MOST))?;
            Ok(())
        }
        _ => Ok(()),
    }
}

/// What each parser statement counts.
#[tactic(auto, unfolding(crate::specs::Sizes::parser_sizes))]
pub fn parser_sizes(alloc: Global, statements: &[Statement]) -> Result<Items<u64>, AllocError>
    ensures { IfOk result (λ found. found ≡ parser_sizes statements.now) }
{
    let mut found = Items::new(alloc);
    for statement in statements {
        push_parser_size(statement, &mut found)?;
    }
    Ok(found)
}
