// Log statements, channels and branches.
ghost use Rattle.std.specs.Prelude.{◌≡◌, ◌<◌, ◌^◌, length, map, IfOk, OnOk, codes};
ghost use Rattle.sg_tree.specs.declared.tree.Path.{out-Path};
ghost use Rattle.sg_options.specs.Settings.{has_word};
ghost use Rattle.sg_forest.specs.References.{flags_of};
ghost use Rattle.sg_forest.specs.Statements.{line_in};
ghost use Rattle.sg_forest.specs.Adds.{AddsElement, AreElements, IsBranch, AreBranches, IsLoweredLog, AreLogs};

use crate::flag::has_flag;
use crate::reference::{calls_meant, filter_meant, parsers_meant};
use crate::rule::{append, push_calls, push_parsers};
use sg_device::NoMemory;
use sg_filter::Expr;
use sg_lower::lower_expression;
use sg_names::Names;
use sg_parse_base::line_of;
use sg_parse_expr::Call;
use sg_parse_path::{RawBranch, RawElement, RawLog};
use sg_plan::{Owner, numbers_of};
use sg_tree::{Element, Path};
use std::alloc::Global;

#[cycle(lower)]
fn push_element(
    alloc: Global,
    names: &Names,
    outlets: &[Owner],
    rewrites: &[&[Call]],
    element: &RawElement,
    found: &mut Vec<Element>,
) -> Result<(), NoMemory>
    requires { length outlets.now < 2 ^ 32 }
    ensures { OnOk result (AddsElement names.now outlets.now (map (λ calls. calls.now) rewrites.now)
        element.now found.old.items found.new.items) }
{
    match element {
        RawElement::Source(_, _) => Ok(()),
        RawElement::Destination(destination) => {
            let drivers = numbers_of(alloc, outlets, destination)?;
            append(found, Element::Deliver(drivers))?;
            Ok(())
        }
        RawElement::Filter(filter) => {
            let expr = filter_meant(alloc, names, filter)?;
            append(found, Element::Filter(expr))?;
            Ok(())
        }
        RawElement::Rewrite(rewrite) => {
            push_calls(alloc, names, calls_meant(names, &*rewrites, rewrite), found)?;
            Ok(())
        }
        RawElement::Parser(parser) => {
            push_parsers(alloc, parsers_meant(names, &*rewrites, parser), found)?;
            Ok(())
        }
        RawElement::Junction(channels) => {
            let paths = lower_logs(alloc, names, outlets, rewrites, channels.as_slice())?;
            append(found, Element::Junction(paths))?;
            Ok(())
        }
        RawElement::If { branches, other } => {
            let tests = lower_branches(alloc, names, outlets, rewrites, branches.as_slice())?;
            match other {
                Some(elements) => {
                    let rest = lower_elements(
                        alloc,
                        names,
                        outlets,
                        rewrites,
                        elements.as_slice(),
                    )?;
                    append(
                        found,
                        Element::If {
                            branches: tests,
                            other: Some(rest),
                        },
                    )?;
                    Ok(())
                }
                None => {
                    append(
                        found,
                        Element::If {
                            branches: tests,
                            other: None,
                        },
                    )?;
                    Ok(())
                }
            }
        }
    }
}

#[cycle(lower)]
fn lower_elements(
    alloc: Global,
    names: &Names,
    outlets: &[Owner],
    rewrites: &[&[Call]],
    elements: &[RawElement],
) -> Result<Vec<Element>, NoMemory>
    requires { length outlets.now < 2 ^ 32 }
    ensures { IfOk result (λ made. AreElements names.now outlets.now
        (map (λ calls. calls.now) rewrites.now) elements.now made.items) }
{
    let mut found = Vec::new(alloc);
    for element in elements {
        push_element(alloc, names, outlets, rewrites, element, &mut found)?;
    }
    Ok(found)
}

#[cycle(lower)]
fn lower_branch(
    alloc: Global,
    names: &Names,
    outlets: &[Owner],
    rewrites: &[&[Call]],
    branch: &RawBranch,
) -> Result<(Expr, Vec<Element>), NoMemory>
    requires { length outlets.now < 2 ^ 32 }
    ensures { IfOk result (λ made. IsBranch names.now outlets.now
        (map (λ calls. calls.now) rewrites.now) branch.now made) }
{
    let test = lower_expression(alloc, names, &branch.test)?;
    let elements = lower_elements(alloc, names, outlets, rewrites, branch.elements.as_slice())?;
    Ok((test, elements))
}

#[cycle(lower)]
fn lower_branches(
    alloc: Global,
    names: &Names,
    outlets: &[Owner],
    rewrites: &[&[Call]],
    branches: &[RawBranch],
) -> Result<Vec<(Expr, Vec<Element>)>, NoMemory>
    requires { length outlets.now < 2 ^ 32 }
    ensures { IfOk result (λ made. AreBranches names.now outlets.now
        (map (λ calls. calls.now) rewrites.now) branches.now made.items) }
{
    let mut made = Vec::new(alloc);
    for branch in branches {
        let one = lower_branch(alloc, names, outlets, rewrites, branch)?;
        append(&mut made, one)?;
    }
    Ok(made)
}

#[cycle(lower)]
fn lower_logs(
    alloc: Global,
    names: &Names,
    outlets: &[Owner],
    rewrites: &[&[Call]],
    logs: &[RawLog],
) -> Result<Vec<Path>, NoMemory>
    requires { length outlets.now < 2 ^ 32 }
    ensures { IfOk result (λ made. AreLogs names.now outlets.now
        (map (λ calls. calls.now) rewrites.now) logs.now made.items) }
{
    let mut made = Vec::new(alloc);
    for log in logs {
        let path = lower_log(alloc, names, outlets, rewrites, Vec::new(alloc), log)?;
        append(&mut made, path)?;
    }
    Ok(made)
}

/// The log statement or channel, with these inlets.
#[cycle(lower)]
pub fn lower_log(
    alloc: Global,
    names: &Names,
    outlets: &[Owner],
    rewrites: &[&[Call]],
    sources: Vec<u32>,
    log: &RawLog,
) -> Result<Path, NoMemory>
    requires { length outlets.now < 2 ^ 32 }
    ensures means { IfOk result
        (λ path. IsLoweredLog names.now outlets.now (map (λ calls. calls.now) rewrites.now)
        log.now path) }
    ensures sources { IfOk result (λ path. (out-Path path).sources.items ≡ sources.items) }
    ensures catchall { IfOk result
        (λ path. (out-Path path).catchall ≡ has_word (codes "catchall") (flags_of log.now)) }
    ensures line { IfOk result (λ path. (out-Path path).line ≡ line_in log.now) }
{
    let elements = lower_elements(alloc, names, outlets, rewrites, log.elements.as_slice())?;
    let embedded = lower_logs(alloc, names, outlets, rewrites, log.embedded.as_slice())?;
    let flags = log.flags.as_slice();
    Ok(Path {
        sources,
        elements,
        embedded,
        is_final: has_flag(flags, b"final"),
        fallback: has_flag(flags, b"fallback"),
        catchall: has_flag(flags, b"catchall"),
        flow: has_flag(flags, b"flow-control"),
        drop_unmatched: has_flag(flags, b"drop-unmatched"),
        line: line_of(&log.word.token, log.word.at),
    })
}
