// The first name that stands for nothing.
ghost use Rattle.std.specs.Prelude.{◌≡◌};
ghost use Rattle.std.specs.List.{flat_map};
ghost use Rattle.sg_fault.specs.Faults.{least};
ghost use Rattle.sg_names.specs.Unknown.{reference_faults, term_faults, terms_faults, part_faults, unknown};

use crate::part::NameUse;
use crate::reference::{Reference, Term};
use sg_fault::{Placed, earlier};
use sg_lex::ConfigKind;
use sqlite_items::Items;

fn reference_fault(reference: &Reference) -> Option<Placed>
    ensures { result ≡ least (reference_faults reference.now) }
{
    match reference.place {
        Some(_) => None,
        None => Some(Placed {
            kind: ConfigKind::UnknownName,
            line: reference.line,
        }),
    }
}

fn term_fault(term: &Term) -> Option<Placed>
    ensures { result ≡ least (term_faults term.now) }
{
    match &term.filter {
        Some(reference) => reference_fault(reference),
        None => None,
    }
}

fn terms_fault(terms: &[Term]) -> Option<Placed>
    ensures { result ≡ least (terms_faults terms.now) }
{
    let mut first = None;
    for term in terms {
        first = earlier(first, term_fault(term));
    }
    first
}

fn conditions_fault(conditions: &[Items<Term>]) -> Option<Placed>
    ensures { result ≡ least (flat_map terms_faults conditions.now) }
{
    let mut first = None;
    for terms in conditions {
        first = earlier(first, terms_fault(terms.as_slice()));
    }
    first
}

fn part_fault(part: &NameUse) -> Option<Placed>
    ensures { result ≡ least (part_faults part.now) }
{
    match part {
        NameUse::Expression(terms) => terms_fault(terms.as_slice()),
        NameUse::Rewrite { conditions, .. } => conditions_fault(conditions.as_slice()),
        NameUse::Filter(reference) => reference_fault(reference),
        NameUse::Rewrites(reference) => reference_fault(reference),
        NameUse::Parser(_) => None,
        NameUse::Parsers(reference) => reference_fault(reference),
        NameUse::End(reference) => reference_fault(reference),
    }
}

/// The first reference to a name that no statement of its kind has.
pub fn unknown_fault(parts: &[NameUse]) -> Option<Placed>
    ensures { result ≡ least (unknown parts.now) }
{
    let mut first = None;
    for part in parts {
        first = earlier(first, part_fault(part));
    }
    first
}
