// What statements and elements say of names, in the order of the text.
ghost use Rattle.std.specs.Prelude.{◌≡◌, ◌++◌, [], map, IfOk, OnOk};
ghost use Rattle.std.specs.List.{flat_map};
ghost use Rattle.sg_names.specs.Parts.{tests_in, conditions_in, rewrite_part, parser_part, object_parts, named_part};

use crate::kind::NameKind;
use crate::names::Names;
use crate::reference::{Reference, Term, reference_of};
use crate::terms::terms_of;
use sg_lex::Line;
use sg_parse_base::{Spot, line_of};
use sg_parse_expr::{Arg, Call};
use sg_parse_obj::Object;
use sqlite_items::Items;
use std::alloc::{AllocError, Global};

/// What stands in a text that refers to names or has a size.
#[derive(Drop)]
pub enum NameUse {
    /// An expression, but that of a condition.
    Expression(Items<Term>),
    /// A rewrite, and the expressions of its conditions.
    Rewrite {
        word: Line,
        conditions: Items<Items<Term>>,
    },
    /// An element that names a filter.
    Filter(Reference),
    /// An element that names a rewrite.
    Rewrites(Reference),
    /// A parser.
    Parser(Line),
    /// An element that names a parser.
    Parsers(Reference),
    /// An element that names a source or a destination.
    End(Reference),
}

/// The expression, where the argument is one.
#[tactic(auto, unfolding(crate::specs::Parts::tests_in))]
fn push_test(
    alloc: Global,
    names: &Names,
    arg: &Arg,
    found: &mut Items<Items<Term>>,
) -> Result<(), AllocError>
    ensures { OnOk result (found.new ≡ found.old ++ tests_in names.now arg.now) }
{
    match arg {
        Arg::Test(expr) => {
            found.push(terms_of(alloc, names, expr)?)?;
            Ok(())
        }
        _ => Ok(()),
    }
}

/// The expressions among these arguments.
fn push_tests(
    alloc: Global,
    names: &Names,
    args: &[Arg],
    found: &mut Items<Items<Term>>,
) -> Result<(), AllocError>
    ensures { OnOk result (found.new ≡ found.old ++ flat_map (tests_in names.now) args.now) }
{
    for arg in args {
        push_test(alloc, names, arg, found)?;
    }
    Ok(())
}

/// The expressions in an option, where the argument is one.
#[tactic(auto, unfolding(crate::specs::Parts::conditions_in))]
fn push_conditions(
    alloc: Global,
    names: &Names,
    arg: &Arg,
    found: &mut Items<Items<Term>>,
) -> Result<(), AllocError>
    ensures { OnOk result (found.new ≡ found.old ++ conditions_in names.now arg.now) }
{
    match arg {
        Arg::Nested(option) => {
            push_tests(alloc, names, option.args.as_slice(), found)?;
            Ok(())
        }
        _ => Ok(()),
    }
}

/// The expressions in the options among these arguments.
fn conditions_in(
    alloc: Global,
    names: &Names,
    args: &[Arg],
) -> Result<Items<Items<Term>>, AllocError>
    ensures { IfOk result (λ found. found ≡ flat_map (conditions_in names.now) args.now) }
{
    let mut found = Items::new(alloc);
    for arg in args {
        push_conditions(alloc, names, arg, &mut found)?;
    }
    Ok(found)
}

#[tactic(auto, unfolding(crate::specs::Parts::rewrite_part))]
fn rewrite_part(alloc: Global, names: &Names, call: &Call) -> Result<NameUse, AllocError>
    ensures { IfOk result (λ part. part ≡ rewrite_part names.now call.now) }
{
    Ok(NameUse::Rewrite {
        word: line_of(&call.word.token, call.word.at),
        conditions: conditions_in(alloc, names, call.args.as_slice())?,
    })
}

fn push_rewrites(
    alloc: Global,
    names: &Names,
    calls: &[Call],
    found: &mut Items<NameUse>,
) -> Result<(), AllocError>
    ensures { OnOk result (found.new ≡ found.old ++ map (rewrite_part names.now) calls.now) }
{
    for call in calls {
        found.push(rewrite_part(alloc, names, call)?)?;
    }
    Ok(())
}

fn parser_part(call: &Call) -> NameUse
    ensures { result ≡ parser_part call.now }
{
    NameUse::Parser(line_of(&call.word.token, call.word.at))
}

fn push_parsers(calls: &[Call], found: &mut Items<NameUse>) -> Result<(), AllocError>
    ensures { OnOk result (found.new ≡ found.old ++ map parser_part calls.now) }
{
    for call in calls {
        found.push(parser_part(call))?;
    }
    Ok(())
}

/// The parts of rewrites.
pub fn rewrites_of(
    alloc: Global,
    names: &Names,
    calls: &[Call],
) -> Result<Items<NameUse>, AllocError>
    ensures { IfOk result (λ parts. parts ≡ map (rewrite_part names.now) calls.now) }
{
    let mut found = Items::new(alloc);
    push_rewrites(alloc, names, calls, &mut found)?;
    Ok(found)
}

/// The parts of a statement, or of what stands in the place of one.
pub fn push_object(
    alloc: Global,
    names: &Names,
    object: &Object,
    found: &mut Items<NameUse>,
) -> Result<(), AllocError>
    ensures { OnOk result (found.new ≡ found.old ++ object_parts names.now object.now) }
{
    match object {
        Object::Filter { expr, .. } => {
            found.push(NameUse::Expression(terms_of(alloc, names, expr)?))?;
            Ok(())
        }
        Object::Rewrite { calls, .. } => {
            push_rewrites(alloc, names, calls.as_slice(), found)?;
            Ok(())
        }
        Object::Parser { calls, .. } => {
            push_parsers(calls.as_slice(), found)?;
            Ok(())
        }
        _ => Ok(()),
    }
}

/// An element that names a statement of this kind.
pub fn named_part(names: &Names, kind: NameKind, spot: &Spot) -> NameUse
    ensures { result ≡ named_part names.now kind spot.now }
{
    let reference = reference_of(names, kind, spot);
    match kind {
        NameKind::Filter => NameUse::Filter(reference),
        NameKind::Rewrite => NameUse::Rewrites(reference),
        NameKind::Parser => NameUse::Parsers(reference),
        _ => NameUse::End(reference),
    }
}
