// Statements.
ghost use Rattle.std.specs.Prelude.{◌≡◌, ◌<◌, ◌^◌, ◌++◌, [], length, map, IfOk, OnOk};
ghost use Rattle.std.specs.List.{flat_map};
ghost use Rattle.sg_forest.specs.Written.{written_of};
ghost use Rattle.sg_forest.specs.Statements.{filters_at, filters_in, rewrites_at, rewrites_of, parsers_at, parsers_of, written_at, logs_at, logs_of};
ghost use Rattle.sg_forest.specs.Adds.{IsTop, AddsTops};

use crate::element::lower_log;
use crate::rule::{append, push_rules};
use crate::source::sources_of;
use sg_device::NoMemory;
use sg_filter::Expr;
use sg_lower::lower_expression;
use sg_names::Names;
use sg_parse_expr::Call;
use sg_parse_obj::Object;
use sg_parse_path::RawLog;
use sg_parse_text::Statement;
use sg_plan::Endpoints;
use sg_tree::{Path, RewriteRule};
use std::alloc::Global;

fn push_filter(
    alloc: Global,
    names: &Names,
    statement: &Statement,
    found: &mut Vec<Expr>,
) -> Result<(), NoMemory>
    ensures { OnOk result
        (found.new.items ≡ found.old.items ++ filters_at names.now statement.now) }
{
    match statement {
        Statement::Object(Object::Filter { expr, .. }) => {
            let lowered = lower_expression(alloc, names, expr)?;
            append(found, lowered)?;
            Ok(())
        }
        _ => Ok(()),
    }
}

/// The expression of each filter statement.
pub fn filters_of(
    alloc: Global,
    names: &Names,
    statements: &[Statement],
) -> Result<Vec<Expr>, NoMemory>
    ensures { IfOk result (λ filters. filters.items ≡ filters_in names.now statements.now) }
{
    let mut found = Vec::new(alloc);
    for statement in statements {
        push_filter(alloc, names, statement, &mut found)?;
    }
    Ok(found)
}

fn push_calls<'a>(statement: &'a Statement, found: &mut Vec<&'a [Call]>) -> Result<(), NoMemory>
    ensures { OnOk result (map (λ calls. calls.now) found.new.items
        ≡ map (λ calls. calls.now) found.old.items ++ rewrites_at statement.now) }
{
    match statement {
        Statement::Object(Object::Rewrite { calls, .. }) => {
            found.push(calls.as_slice())?;
            Ok(())
        }
        _ => Ok(()),
    }
}

/// The calls of each rewrite statement.
pub fn calls_by_place<'a>(
    alloc: Global,
    statements: &'a [Statement],
) -> Result<Vec<&'a [Call]>, NoMemory>
    ensures { IfOk result
        (λ found. map (λ calls. calls.now) found.items ≡ rewrites_of statements.now) }
{
    let mut found = Vec::new(alloc);
    for statement in statements {
        push_calls(statement, &mut found)?;
    }
    Ok(found)
}

fn push_parser_calls<'a>(
    statement: &'a Statement,
    found: &mut Vec<&'a [Call]>,
) -> Result<(), NoMemory>
    ensures { OnOk result (map (λ calls. calls.now) found.new.items
        ≡ map (λ calls. calls.now) found.old.items ++ parsers_at statement.now) }
{
    match statement {
        Statement::Object(Object::Parser { calls, .. }) => {
            found.push(calls.as_slice())?;
            Ok(())
        }
        _ => Ok(()),
    }
}

/// Adds the calls of each parser statement.
pub fn push_parsers_by_place<'a>(
    statements: &'a [Statement],
    found: &mut Vec<&'a [Call]>,
) -> Result<(), NoMemory>
    ensures { OnOk result (map (λ calls. calls.now) found.new.items
        ≡ map (λ calls. calls.now) found.old.items ++ parsers_of statements.now) }
{
    for statement in statements {
        push_parser_calls(statement, found)?;
    }
    Ok(())
}

/// The rewrites that the calls of all rewrite statements stand for.
pub fn rules_of(
    alloc: Global,
    names: &Names,
    rewrites: &[&[Call]],
) -> Result<Vec<RewriteRule>, NoMemory>
    ensures { IfOk result (λ rules. map written_of rules.items
        ≡ flat_map (written_at names.now) (map (λ calls. calls.now) rewrites.now)) }
{
    let mut found = Vec::new(alloc);
    for calls in rewrites {
        push_rules(alloc, names, calls, &mut found)?;
    }
    Ok(found)
}

/// A top-level log statement.
fn lower_top(
    alloc: Global,
    names: &Names,
    ends: &Endpoints,
    rewrites: &[&[Call]],
    log: &RawLog,
) -> Result<Path, NoMemory>
    requires inlets { length ends.now.inlets < 2 ^ 32 }
    requires outlets { length ends.now.outlets < 2 ^ 32 }
    ensures { IfOk result
        (IsTop names.now ends.now (map (λ calls. calls.now) rewrites.now) log.now) }
{
    let sources = sources_of(alloc, ends.inlets.as_slice(), log.elements.as_slice())?;
    let outlets = ends.outlets.as_slice();
    let path = lower_log(alloc, names, outlets, rewrites, sources, log)?;
    Ok(path)
}

fn push_top(
    alloc: Global,
    names: &Names,
    ends: &Endpoints,
    rewrites: &[&[Call]],
    statement: &Statement,
    found: &mut Vec<Path>,
) -> Result<(), NoMemory>
    requires inlets { length ends.now.inlets < 2 ^ 32 }
    requires outlets { length ends.now.outlets < 2 ^ 32 }
    ensures { OnOk result (AddsTops names.now ends.now (map (λ calls. calls.now) rewrites.now)
        (logs_at statement.now) found.old.items found.new.items) }
{
    match statement {
        Statement::Log(log) => {
            let path = lower_top(alloc, names, ends, rewrites, log)?;
            append(found, path)?;
            Ok(())
        }
        Statement::Object(_) => Ok(()),
    }
}

/// The top-level log statements.
pub fn tops_of(
    alloc: Global,
    names: &Names,
    ends: &Endpoints,
    rewrites: &[&[Call]],
    statements: &[Statement],
) -> Result<Vec<Path>, NoMemory>
    requires inlets { length ends.now.inlets < 2 ^ 32 }
    requires outlets { length ends.now.outlets < 2 ^ 32 }
    ensures { IfOk result (λ paths. AddsTops names.now ends.now
        (map (λ calls. calls.now) rewrites.now) (logs_of statements.now) [] paths.items) }
{
    let mut found = Vec::new(alloc);
    for statement in statements {
        push_top(alloc, names, ends, rewrites, statement, &mut found)?;
    }
    Ok(found)
}
