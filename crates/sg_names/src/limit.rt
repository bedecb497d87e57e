// Expressions that are too large.
ghost use Rattle.std.specs.Prelude.{◌≡◌};
ghost use Rattle.std.specs.List.{flat_map};
ghost use Rattle.sg_fault.specs.Faults.{least};
ghost use Rattle.sg_names.specs.Limits.{limit_at, first_line, large_faults, part_limits, part_line, total_faults};

use crate::part::NameUse;
use crate::reference::Term;
use crate::size::{part_size, terms_size};
use sg_fault::{Placed, earlier};
use sg_lex::{ConfigKind, Line};
use sqlite_items::Items;

/// How large one expression may be.
pub const EXPRESSION_LIMIT: u64 = 4_096;

/// How large all expressions together may be.
pub const TOTAL_LIMIT: u64 = 65_536;

fn limit_at(line: Option<Line>) -> Option<Placed>
    ensures { result ≡ least (limit_at line) }
{
    match line {
        Some(line) => Some(Placed {
            kind: ConfigKind::Limit,
            line,
        }),
        None => None,
    }
}

fn first_line(terms: &[Term]) -> Option<Line>
    ensures { result ≡ first_line terms.now }
{
    match terms {
        [first, ..] => Some(first.line),
        [] => None,
    }
}

fn large_fault(sizes: &[u64], terms: &[Term]) -> Option<Placed>
    ensures { result ≡ least (large_faults sizes.now terms.now) }
{
    if terms_size(sizes, terms) > EXPRESSION_LIMIT {
        return limit_at(first_line(terms));
    }
    None
}

fn conditions_limit(sizes: &[u64], conditions: &[Items<Term>]) -> Option<Placed>
    ensures { result ≡ least (flat_map (large_faults sizes.now) conditions.now) }
{
    let mut first = None;
    for terms in conditions {
        first = earlier(first, large_fault(sizes, terms.as_slice()));
    }
    first
}

fn part_limit(sizes: &[u64], part: &NameUse) -> Option<Placed>
    ensures { result ≡ least (part_limits sizes.now part.now) }
{
    match part {
        NameUse::Expression(terms) => large_fault(sizes, terms.as_slice()),
        NameUse::Rewrite { conditions, .. } => conditions_limit(sizes, conditions.as_slice()),
        NameUse::Filter(_) => None,
        NameUse::Rewrites(_) => None,
        NameUse::Parser(_) => None,
        NameUse::Parsers(_) => None,
        NameUse::End(_) => None,
    }
}

/// The first expression that is too large.
pub fn large_expression(sizes: &[u64], parts: &[NameUse]) -> Option<Placed>
    ensures { result ≡ least (flat_map (part_limits sizes.now) parts.now) }
{
    let mut first = None;
    for part in parts {
        first = earlier(first, part_limit(sizes, part));
    }
    first
}

fn part_line(part: &NameUse) -> Option<Line>
    ensures { result ≡ part_line part.now }
{
    match part {
        NameUse::Expression(terms) => first_line(terms.as_slice()),
        NameUse::Rewrite { word, .. } => Some(*word),
        NameUse::Filter(reference) => Some(reference.line),
        NameUse::Rewrites(reference) => Some(reference.line),
        NameUse::Parser(word) => Some(*word),
        NameUse::Parsers(reference) => Some(reference.line),
        NameUse::End(reference) => Some(reference.line),
    }
}

/// Where all expressions together become too large.
pub fn large_total(
    sizes: &[u64],
    rewrites: &[u64],
    parsers: &[u64],
    parts: &[NameUse],
) -> Option<Placed>
    ensures { result ≡ least (total_faults sizes.now rewrites.now parsers.now 0 parts.now) }
{
    let mut sum = 0u64;
    for part in parts {
        sum = sum.saturating_add(part_size(sizes, rewrites, parsers, part));
        if sum > TOTAL_LIMIT {
            return limit_at(part_line(part));
        }
    }
    None
}
