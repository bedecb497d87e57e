// The calls and comparisons of an expression.
ghost use Rattle.std.specs.Prelude.{◌≡◌, [], ◌++◌, IfOk, OnOk};
ghost use Rattle.std.specs.List.{flat_map};
ghost use Rattle.sg_names.specs.Terms.{filter_in, call_term, plain_term, terms_of};

use crate::kind::NameKind;
use crate::names::Names;
use crate::reference::{Reference, Term, reference_of};
use sg_parse_base::{Spot, is_keyword, line_of};
use sg_parse_expr::{Arg, Call, RawExpr};
use sqlite_items::Items;
use std::alloc::{AllocError, Global};

/// The filter that the one argument names.
fn filter_in(names: &Names, args: &[Arg]) -> Option<Reference>
    ensures { result ≡ filter_in names.now args.now }
{
    match args {
        [Arg::Item(spot)] => Some(reference_of(names, NameKind::Filter, spot)),
        _ => None,
    }
}

fn plain_term(spot: &Spot) -> Term
    ensures { result ≡ plain_term spot.now }
{
    Term {
        line: line_of(&spot.token, spot.at),
        filter: None,
    }
}

#[tactic(auto, unfolding(crate::specs::Terms::call_term))]
fn call_term(names: &Names, call: &Call) -> Term
    ensures { result ≡ call_term names.now call.now }
{
    if !is_keyword(&call.word.token, b"filter") {
        return plain_term(&call.word);
    }
    Term {
        line: line_of(&call.word.token, call.word.at),
        filter: filter_in(names, call.args.as_slice()),
    }
}

#[tactic(auto, using(crate::proofs::Equations::terms_call, crate::proofs::Equations::terms_compare, crate::proofs::Equations::terms_and, crate::proofs::Equations::terms_or, crate::proofs::Equations::terms_not))]
#[cycle(terms)]
fn push_terms(names: &Names, expr: &RawExpr, found: &mut Items<Term>) -> Result<(), AllocError>
    ensures { OnOk result (found.new ≡ found.old ++ terms_of names.now expr.now) }
{
    match expr {
        RawExpr::Call(call) => {
            found.push(call_term(names, call))?;
            Ok(())
        }
        RawExpr::Compare { left, .. } => {
            found.push(plain_term(left))?;
            Ok(())
        }
        RawExpr::And(terms) => {
            push_all(names, terms.as_slice(), found)?;
            Ok(())
        }
        RawExpr::Or(terms) => {
            push_all(names, terms.as_slice(), found)?;
            Ok(())
        }
        RawExpr::Not(term) => {
            push_terms(names, term.get(), found)?;
            Ok(())
        }
    }
}

#[cycle(terms)]
fn push_all(names: &Names, exprs: &[RawExpr], found: &mut Items<Term>) -> Result<(), AllocError>
    ensures { OnOk result (found.new ≡ found.old ++ flat_map (terms_of names.now) exprs.now) }
{
    for expr in exprs {
        push_terms(names, expr, found)?;
    }
    Ok(())
}

/// The calls and comparisons of an expression, in the order of the text.
pub fn terms_of(alloc: Global, names: &Names, expr: &RawExpr) -> Result<Items<Term>, AllocError>
    ensures { IfOk result (λ terms. terms ≡ terms_of names.now expr.now) }
{
    let mut found = Items::new(alloc);
    push_terms(names, expr, &mut found)?;
    Ok(found)
}
