// Rewrites with their conditions.
ghost use Rattle.std.specs.Prelude.{◌≡◌, ◌∷◌, ◌++◌, [], map, IfOk, OnOk, List, Some};
ghost use Rattle.std.specs.List.{flat_map};
ghost use Rattle.std.specs.Option.{option_to_list};
ghost use Rattle.sg_filter.specs.declared.expr.Expr.{Expr as Filter};
ghost use Rattle.sg_forest.specs.Written.{written_of, written_in};
ghost use Rattle.sg_forest.specs.Steps.{call_steps, rewrite_steps, parser_steps, parsers_steps};
ghost use Rattle.sg_forest.specs.Patterns.{call_patterns, rewrite_patterns};
ghost use Rattle.sg_forest.specs.Adds.{AddsElements};

use sg_device::NoMemory;
use sg_lower::{lower_parser, lower_rewrite};
use sg_names::Names;
use sg_parse_expr::Call;
use sg_tree::{Element, RewriteRule, is_sound};
use std::alloc::{AllocError, Global};

/// The rewrite that a call stands for: none where the name that it sets, unsets or searches is none that a pair
/// may have.
fn rule_of(alloc: Global, names: &Names, call: &Call) -> Result<Option<RewriteRule>, NoMemory>
    ensures { IfOk result
        (λ rule. map written_of (option_to_list rule) ≡ written_in names.now call.now) }
{
    let (op, condition) = lower_rewrite(alloc, names, call)?;
    if !is_sound(&op) {
        return Ok(None);
    }
    Ok(Some(RewriteRule { condition, op }))
}

fn append_rule(rules: &mut Vec<RewriteRule>, rule: RewriteRule) -> Result<(), AllocError>
    ensures { OnOk result (map written_of rules.new.items
        ≡ map written_of rules.old.items ++ map written_of (option_to_list (Some rule))) }
{
    rules.push(rule)?;
    Ok(())
}

fn push_rule(
    alloc: Global,
    names: &Names,
    call: &Call,
    rules: &mut Vec<RewriteRule>,
) -> Result<(), NoMemory>
    ensures { OnOk result (map written_of rules.new.items
        ≡ map written_of rules.old.items ++ written_in names.now call.now) }
{
    match rule_of(alloc, names, call)? {
        Some(rule) => {
            append_rule(rules, rule)?;
            Ok(())
        }
        None => Ok(()),
    }
}

/// Adds the rewrites that calls stand for.
pub fn push_rules(
    alloc: Global,
    names: &Names,
    calls: &[Call],
    rules: &mut Vec<RewriteRule>,
) -> Result<(), NoMemory>
    ensures { OnOk result (map written_of rules.new.items
        ≡ map written_of rules.old.items ++ flat_map (written_in names.now) calls.now) }
{
    for call in calls {
        push_rule(alloc, names, call, rules)?;
    }
    Ok(())
}

fn push_call(
    alloc: Global,
    names: &Names,
    call: &Call,
    elements: &mut Vec<Element>,
) -> Result<(), NoMemory>
    ensures { OnOk result ((named : List Filter)
        → AddsElements named elements.old.items elements.new.items
        (call_steps names.now named call.now) (call_patterns names.now named call.now)) }
{
    match rule_of(alloc, names, call)? {
        Some(rule) => {
            append(elements, Element::Rewrite(rule))?;
            Ok(())
        }
        None => Ok(()),
    }
}

fn push_parser(alloc: Global, call: &Call, elements: &mut Vec<Element>) -> Result<(), NoMemory>
    ensures { OnOk result ((named : List Filter)
        → AddsElements named elements.old.items elements.new.items
        (parser_steps call.now) []) }
{
    match lower_parser(alloc, call)? {
        Some(rule) => {
            append(elements, Element::Parse(rule))?;
            Ok(())
        }
        None => Ok(()),
    }
}

/// Adds the elements that calls of parsers stand for.
pub fn push_parsers(
    alloc: Global,
    calls: &[Call],
    elements: &mut Vec<Element>,
) -> Result<(), NoMemory>
    ensures { OnOk result ((named : List Filter)
        → AddsElements named elements.old.items elements.new.items
        (parsers_steps calls.now) []) }
{
    for call in calls {
        push_parser(alloc, call, elements)?;
    }
    Ok(())
}

/// Adds an item.
pub fn append<T: Drop>(items: &mut Vec<T>, item: T) -> Result<(), AllocError>
    ensures { OnOk result (items.new.items ≡ items.old.items ++ item ∷ []) }
{
    items.push(item)?;
    Ok(())
}

/// Adds the elements that calls stand for.
pub fn push_calls(
    alloc: Global,
    names: &Names,
    calls: &[Call],
    elements: &mut Vec<Element>,
) -> Result<(), NoMemory>
    ensures { OnOk result ((named : List Filter)
        → AddsElements named elements.old.items elements.new.items
        (rewrite_steps names.now named calls.now) (rewrite_patterns names.now named calls.now)) }
{
    for call in calls {
        push_call(alloc, names, call, elements)?;
    }
    Ok(())
}
