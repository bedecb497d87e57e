// Rewrites.
ghost use Rattle.std.specs.Prelude.{◌≡◌, ◌++◌, IfOk, OnOk};
ghost use Rattle.std.specs.List.{flat_map};
ghost use Rattle.std.specs.Option.{option_copied};
ghost use Rattle.sg_options.specs.Settings.{args_of, item_of};
ghost use Rattle.sg_lower.specs.Values.{text_if};
ghost use Rattle.sg_lower.specs.Rewrites.{second_item, first_template, second_template, globs_in, single_by, group_by, tag_by, test_of, first_test, test_behind, condition, meant, meant_by};

use crate::expression::lower_expression;
use crate::filter::first_item;
use crate::pattern::pattern_of;
use crate::value::{name_of, template_of, value_name};
use sg_device::{Name, NoMemory};
use sg_filter::Expr;
use sg_names::Names;
use sg_options::{args_of, is_called, item_of, last_argument, text_of};
use sg_parse_base::Spot;
use sg_parse_expr::{Arg, Call, RawExpr};
use sg_rewrite::Op;
use sg_template::Template;
use std::alloc::Global;

fn second_item(args: &[Arg]) -> Option<&Spot>
    ensures { option_copied result ≡ second_item args.now }
{
    match args {
        [_, second, ..] => item_of(second),
        _ => None,
    }
}

fn first_template(alloc: Global, args: &[Arg]) -> Result<Template, NoMemory>
    ensures { IfOk result (λ template. template ≡ first_template args.now) }
{
    template_of(alloc, text_of(first_item(args)))
}

fn second_template(alloc: Global, args: &[Arg]) -> Result<Template, NoMemory>
    ensures { IfOk result (λ template. template ≡ second_template args.now) }
{
    template_of(alloc, text_of(second_item(args)))
}

fn push_text(texts: &mut Vec<Name>, arg: &Arg) -> Result<(), NoMemory>
    ensures { OnOk result (texts.new.items ≡ texts.old.items ++ text_if (item_of arg.now)) }
{
    match item_of(arg) {
        Some(spot) => {
            texts.push(spot.token.text.copy()?)?;
            Ok(())
        }
        None => Ok(()),
    }
}

/// The texts of the values among arguments.
pub fn texts_in(alloc: Global, args: &[Arg]) -> Result<Vec<Name>, NoMemory>
    ensures { IfOk result
        (λ texts. texts.items ≡ flat_map (λ arg. text_if (item_of arg)) args.now) }
{
    let mut texts = Vec::new(alloc);
    for arg in args {
        push_text(&mut texts, arg)?;
    }
    Ok(texts)
}

/// The globs of the last `values`.
fn globs_in(alloc: Global, args: &[Arg]) -> Result<Vec<Name>, NoMemory>
    ensures { IfOk result (λ globs. globs.items ≡ globs_in args.now) }
{
    match last_argument(&[b"values"], args) {
        Some(call) => texts_in(alloc, args_of(call)),
        None => Ok(Vec::new(alloc)),
    }
}

fn lower_single(alloc: Global, call: &Call) -> Result<Op, NoMemory>
    ensures { IfOk result (λ op. meant op ≡ single_by call.now) }
{
    if is_called(&[b"set"], call) {
        return Ok(Op::Set {
            name: value_name(alloc, args_of(call))?,
            text: first_template(alloc, args_of(call))?,
        });
    }
    if is_called(&[b"unset"], call) {
        return Ok(Op::Unset {
            name: value_name(alloc, args_of(call))?,
        });
    }
    Ok(Op::Subst {
        name: value_name(alloc, args_of(call))?,
        pattern: pattern_of(alloc, first_item(args_of(call)), args_of(call))?,
        text: second_template(alloc, args_of(call))?,
    })
}

fn lower_group(alloc: Global, call: &Call) -> Result<Op, NoMemory>
    ensures { IfOk result (λ op. meant op ≡ group_by call.now) }
{
    let globs = globs_in(alloc, args_of(call))?;
    if is_called(&[b"groupset"], call) {
        return Ok(Op::GroupSet {
            globs,
            text: first_template(alloc, args_of(call))?,
        });
    }
    Ok(Op::GroupUnset { globs })
}

fn lower_tag(alloc: Global, call: &Call) -> Result<Op, NoMemory>
    ensures { IfOk result (λ op. meant op ≡ tag_by call.now) }
{
    let tag = name_of(alloc, first_item(args_of(call)))?;
    if is_called(&[b"set-tag"], call) {
        return Ok(Op::SetTag { tag });
    }
    Ok(Op::ClearTag { tag })
}

#[tactic(auto, unfolding(crate::specs::Rewrites::meant_by))]
fn lower_op(alloc: Global, call: &Call) -> Result<Op, NoMemory>
    ensures { IfOk result (λ op. meant op ≡ meant_by call.now) }
{
    if is_called(&[b"set", b"unset", b"subst"], call) {
        return lower_single(alloc, call);
    }
    if is_called(&[b"groupset", b"groupunset"], call) {
        return lower_group(alloc, call);
    }
    lower_tag(alloc, call)
}

#[tactic(auto, unfolding(crate::specs::Rewrites::test_of))]
fn test_of(arg: &Arg) -> Option<&RawExpr>
    ensures { option_copied result ≡ test_of arg.now }
{
    match arg {
        Arg::Test(expr) => Some(expr),
        _ => None,
    }
}

fn first_test(args: &[Arg]) -> Option<&RawExpr>
    ensures { option_copied result ≡ first_test args.now }
{
    match args {
        [first, ..] => test_of(first),
        [] => None,
    }
}

fn test_behind(call: Option<&Call>) -> Option<&RawExpr>
    ensures { option_copied result ≡ test_behind (option_copied call.entry) }
{
    match call {
        Some(call) => first_test(args_of(call)),
        None => None,
    }
}

/// The expression of the last `condition`.
fn lower_condition(alloc: Global, names: &Names, args: &[Arg]) -> Result<Option<Expr>, NoMemory>
    ensures { IfOk result (λ lowered. lowered ≡ condition names.now args.now) }
{
    match test_behind(last_argument(&[b"condition"], args)) {
        Some(expr) => Ok(Some(lower_expression(alloc, names, expr)?)),
        None => Ok(None),
    }
}

/// What a rewrite does, and the condition that messages must meet.
pub fn lower_rewrite(
    alloc: Global,
    names: &Names,
    call: &Call,
) -> Result<(Op, Option<Expr>), NoMemory>
    ensures op { IfOk result (λ rewrite. meant rewrite.0 ≡ meant_by call.now) }
    ensures condition { IfOk result
        (λ rewrite. rewrite.1 ≡ condition names.now (args_of call.now)) }
{
    let op = lower_op(alloc, call)?;
    let condition = lower_condition(alloc, names, args_of(call))?;
    Ok((op, condition))
}
