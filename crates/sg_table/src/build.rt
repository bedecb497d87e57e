// The table of a tree, from the last element of a list to its first.
ghost use Rattle.std.specs.Prelude.{◌≡◌, ◌<◌, ◌∷◌, ◌++◌, [], length, map, IfOk, OnOk};
ghost use Rattle.sg_outside.specs.World.{OnlyBuilds};
ghost use Rattle.sg_filter.specs.Decisions.{decision_of};
ghost use Rattle.sg_filter.specs.Patterns.{patterns_of};
ghost use Rattle.sg_tree.specs.Offers.{top_view};
ghost use Rattle.sg_tree.specs.Plain.{choice_view, element_view, in_front, marks as path_marks, own_steps, steps_view};
ghost use Rattle.sg_tree.specs.Walk.{choose};
ghost use Rattle.sg_table.specs.Compiled.{Compiled, CompiledBranches, CompiledOther, CompiledTests, CompiledTops, IsTopOf, MadePipe, choices, own};
ghost use Rattle.sg_table.specs.Patterns.{MakesPatterns, choices_patterns, element_patterns, list_patterns, other_patterns, path_patterns, siblings_patterns};
ghost use Rattle.sg_table.specs.Table.{marks, steps_at};

use crate::copying::copied_numbers;
use crate::making::{make_filter, make_rule};
use crate::{Branch, Pipe, Test, Top};
use sg_filter::Expr;
use sg_pattern::Builder;
use sg_tree::{Element, Path, PathRefusal};
use std::alloc::{AllocError, Global};

/// Adds a pipe, and gives its place.
fn push(pipes: &mut Vec<Pipe>, pipe: Pipe) -> Result<u32, AllocError>
    ensures value { IfOk result
        (λ at. (at ≡ length pipes.old.items) × (pipes.new.items ≡ pipes.old.items ++ pipe ∷ [])) }
    ensures within { IfOk result (λ at. at < length pipes.new.items) }
{
    let at = pipes.len();
    if at >= u32::MAX as usize {
        return Err(AllocError);
    }
    pipes.push(pipe)?;
    Ok(at as u32)
}

fn append<T: Drop>(items: &mut Vec<T>, item: T) -> Result<(), AllocError>
    ensures { OnOk result (items.new.items ≡ items.old.items ++ item ∷ []) }
{
    items.push(item)?;
    Ok(())
}

fn branch_of(path: &Path, start: u32) -> Branch
    ensures { (result.start ≡ start) × (marks result ≡ path_marks path.now) }
{
    Branch {
        start,
        is_final: path.is_final,
        fallback: path.fallback,
        flow: path.flow,
        drop_unmatched: path.drop_unmatched,
    }
}

// One statement or channel.
#[cycle(compile)]
fn path<B: Builder>(
    alloc: Global,
    builder: &mut B,
    named: &[Expr],
    path: &Path,
    pipes: &mut Vec<Pipe>,
) -> Result<u32, PathRefusal>
    ensures compiled { IfOk result
        (λ at. Compiled pipes.old.items pipes.new.items at (own_steps named.now path.now)) }
    ensures makes { MakesPatterns (B.state builder.old) (B.state builder.new)
        (path_patterns named.now path.now) result }
    ensures only { OnlyBuilds (B.state builder.old) (B.state builder.new) }
{
    let next = match end(alloc, builder, named, &path.embedded, pipes) {
        Ok(next) => next,
        Err(refusal) => return Err(refusal),
    };
    list(alloc, builder, named, &path.elements, next, pipes)
}

// What stands behind the last element.
#[cycle(compile)]
fn end<B: Builder>(
    alloc: Global,
    builder: &mut B,
    named: &[Expr],
    embedded: &[Path],
    pipes: &mut Vec<Pipe>,
) -> Result<u32, PathRefusal>
    ensures compiled { IfOk result
        (λ at. Compiled pipes.old.items pipes.new.items at (steps_view named.now [] embedded.now)) }
    ensures makes { MakesPatterns (B.state builder.old) (B.state builder.new)
        (siblings_patterns named.now embedded.now) result }
    ensures only { OnlyBuilds (B.state builder.old) (B.state builder.new) }
{
    if embedded.is_empty() {
        return Ok(push(pipes, Pipe::End)?);
    }
    match siblings(alloc, builder, named, embedded, pipes) {
        Ok(logs) => Ok(push(pipes, Pipe::Embedded { logs })?),
        Err(refusal) => Err(refusal),
    }
}

// The elements in front of what stands at `next`.
#[cycle(compile)]
fn list<B: Builder>(
    alloc: Global,
    builder: &mut B,
    named: &[Expr],
    elements: &[Element],
    next: u32,
    pipes: &mut Vec<Pipe>,
) -> Result<u32, PathRefusal>
    requires { next < length pipes.old.items }
    ensures compiled { IfOk result (λ at. Compiled pipes.old.items pipes.new.items at
        (in_front (map (element_view named.now) elements.now) (steps_at pipes.old.items next))) }
    ensures makes { MakesPatterns (B.state builder.old) (B.state builder.new)
        (list_patterns named.now elements.now) result }
    ensures only { OnlyBuilds (B.state builder.old) (B.state builder.new) }
{
    let mut first = next;
    for i in (0..elements.len()).rev() {
        match element(alloc, builder, named, &elements[i], first, pipes) {
            Ok(pipe) => first = push(pipes, pipe)?,
            Err(refusal) => return Err(refusal),
        }
    }
    Ok(first)
}

// The pipe of an element, behind those that it refers to.
#[cycle(compile)]
fn element<B: Builder>(
    alloc: Global,
    builder: &mut B,
    named: &[Expr],
    element: &Element,
    next: u32,
    pipes: &mut Vec<Pipe>,
) -> Result<Pipe, PathRefusal>
    requires { next < length pipes.old.items }
    ensures compiled { IfOk result (λ pipe. MadePipe pipes.old.items pipes.new.items pipe
        (element_view named.now element.now (steps_at pipes.old.items next))) }
    ensures makes { MakesPatterns (B.state builder.old) (B.state builder.new)
        (element_patterns named.now element.now) result }
    ensures only { OnlyBuilds (B.state builder.old) (B.state builder.new) }
{
    match element {
        Element::Filter(expr) => match make_filter(alloc, builder, named, expr) {
            Ok(filter) => Ok(Pipe::Filter { filter, next }),
            Err(refusal) => Err(refusal),
        },
        Element::Rewrite(rule) => match make_rule(alloc, builder, named, rule) {
            Ok((condition, rewrite)) => Ok(Pipe::Rewrite {
                condition,
                rewrite,
                next,
            }),
            Err(refusal) => Err(refusal),
        },
        Element::Parse(rule) => {
            let rule = rule.share(alloc)?;
            Ok(Pipe::Parse { rule, next })
        }
        Element::Deliver(drivers) => {
            let drivers = copied_numbers(alloc, drivers)?;
            Ok(Pipe::Deliver { drivers, next })
        }
        Element::Junction(channels) => match siblings(alloc, builder, named, channels, pipes) {
            Ok(channels) => Ok(Pipe::Junction { channels, next }),
            Err(refusal) => Err(refusal),
        },
        Element::If { branches, other } => {
            choice(alloc, builder, named, branches, other, next, pipes)
        }
    }
}

// The pipe of an `if`.
#[cycle(compile)]
fn choice<B: Builder>(
    alloc: Global,
    builder: &mut B,
    named: &[Expr],
    branches: &[(Expr, Vec<Element>)],
    other: &Option<Vec<Element>>,
    next: u32,
    pipes: &mut Vec<Pipe>,
) -> Result<Pipe, PathRefusal>
    requires { next < length pipes.old.items }
    ensures compiled { IfOk result (λ pipe. MadePipe pipes.old.items pipes.new.items pipe
        (choose (choice_view named.now branches.now other.now) (steps_at pipes.old.items next))) }
    ensures makes { MakesPatterns (B.state builder.old) (B.state builder.new)
        (choices_patterns named.now branches.now ++ other_patterns named.now other.now) result }
    ensures only { OnlyBuilds (B.state builder.old) (B.state builder.new) }
{
    let tests = match tests(alloc, builder, named, branches, pipes) {
        Ok(tests) => tests,
        Err(refusal) => return Err(refusal),
    };
    match other_start(alloc, builder, named, other, pipes) {
        Ok(other) => Ok(Pipe::If { tests, other, next }),
        Err(refusal) => Err(refusal),
    }
}

#[cycle(compile)]
fn siblings<B: Builder>(
    alloc: Global,
    builder: &mut B,
    named: &[Expr],
    paths: &[Path],
    pipes: &mut Vec<Pipe>,
) -> Result<Vec<Branch>, PathRefusal>
    ensures compiled { IfOk result (λ branches. CompiledBranches pipes.old.items pipes.new.items
        branches.items (map (own named.now) paths.now)) }
    ensures makes { MakesPatterns (B.state builder.old) (B.state builder.new)
        (siblings_patterns named.now paths.now) result }
    ensures only { OnlyBuilds (B.state builder.old) (B.state builder.new) }
{
    let mut branches = Vec::new(alloc);
    for one in paths {
        match path(alloc, builder, named, one, pipes) {
            Ok(start) => append(&mut branches, branch_of(one, start))?,
            Err(refusal) => return Err(refusal),
        }
    }
    Ok(branches)
}

#[cycle(compile)]
fn tests<B: Builder>(
    alloc: Global,
    builder: &mut B,
    named: &[Expr],
    branches: &[(Expr, Vec<Element>)],
    pipes: &mut Vec<Pipe>,
) -> Result<Vec<Test>, PathRefusal>
    ensures compiled { IfOk result (λ tests. CompiledTests pipes.old.items pipes.new.items
        tests.items (choices named.now branches.now)) }
    ensures makes { MakesPatterns (B.state builder.old) (B.state builder.new)
        (choices_patterns named.now branches.now) result }
    ensures only { OnlyBuilds (B.state builder.old) (B.state builder.new) }
{
    let mut tests = Vec::new(alloc);
    for branch in branches {
        match test(alloc, builder, named, &branch.0, &branch.1, pipes) {
            Ok(test) => append(&mut tests, test)?,
            Err(refusal) => return Err(refusal),
        }
    }
    Ok(tests)
}

// One branch of an `if`, with its condition.
#[cycle(compile)]
fn test<B: Builder>(
    alloc: Global,
    builder: &mut B,
    named: &[Expr],
    expr: &Expr,
    elements: &[Element],
    pipes: &mut Vec<Pipe>,
) -> Result<Test, PathRefusal>
    ensures filter { IfOk result (λ test. test.filter ≡ decision_of named.now expr.now) }
    ensures compiled { IfOk result (λ test. Compiled pipes.old.items pipes.new.items test.start
        (steps_view named.now elements.now [])) }
    ensures makes { MakesPatterns (B.state builder.old) (B.state builder.new)
        (patterns_of named.now expr.now ++ list_patterns named.now elements.now) result }
    ensures only { OnlyBuilds (B.state builder.old) (B.state builder.new) }
{
    let filter = match make_filter(alloc, builder, named, expr) {
        Ok(filter) => filter,
        Err(refusal) => return Err(refusal),
    };
    match branch(alloc, builder, named, elements, pipes) {
        Ok(start) => Ok(Test { filter, start }),
        Err(refusal) => Err(refusal),
    }
}

// The elements of one branch of an `if`.
#[cycle(compile)]
fn branch<B: Builder>(
    alloc: Global,
    builder: &mut B,
    named: &[Expr],
    elements: &[Element],
    pipes: &mut Vec<Pipe>,
) -> Result<u32, PathRefusal>
    ensures compiled { IfOk result
        (λ at. Compiled pipes.old.items pipes.new.items at (steps_view named.now elements.now [])) }
    ensures makes { MakesPatterns (B.state builder.old) (B.state builder.new)
        (list_patterns named.now elements.now) result }
    ensures only { OnlyBuilds (B.state builder.old) (B.state builder.new) }
{
    let next = push(pipes, Pipe::End)?;
    list(alloc, builder, named, elements, next, pipes)
}

// The `else` branch.
#[cycle(compile)]
fn other_start<B: Builder>(
    alloc: Global,
    builder: &mut B,
    named: &[Expr],
    other: &Option<Vec<Element>>,
    pipes: &mut Vec<Pipe>,
) -> Result<Option<u32>, PathRefusal>
    ensures compiled { IfOk result
        (λ start. CompiledOther named.now pipes.old.items pipes.new.items start other.now) }
    ensures makes { MakesPatterns (B.state builder.old) (B.state builder.new)
        (other_patterns named.now other.now) result }
    ensures only { OnlyBuilds (B.state builder.old) (B.state builder.new) }
{
    match other {
        Some(elements) => match branch(alloc, builder, named, elements, pipes) {
            Ok(start) => Ok(Some(start)),
            Err(refusal) => Err(refusal),
        },
        None => Ok(None),
    }
}

// A top-level statement.
fn top<B: Builder>(
    alloc: Global,
    builder: &mut B,
    named: &[Expr],
    one: &Path,
    pipes: &mut Vec<Pipe>,
) -> Result<Top, PathRefusal>
    ensures top { IfOk result (IsTopOf one.now) }
    ensures compiled { IfOk result (λ top. Compiled pipes.old.items pipes.new.items top.branch.start
        (own_steps named.now one.now)) }
    ensures makes { MakesPatterns (B.state builder.old) (B.state builder.new)
        (path_patterns named.now one.now) result }
    ensures only { OnlyBuilds (B.state builder.old) (B.state builder.new) }
{
    match path(alloc, builder, named, one, pipes) {
        Ok(start) => Ok(Top {
            sources: copied_numbers(alloc, &one.sources)?,
            catchall: one.catchall,
            branch: branch_of(one, start),
        }),
        Err(refusal) => Err(refusal),
    }
}

/// The top-level statements.
pub(crate) fn tops<B: Builder>(
    alloc: Global,
    builder: &mut B,
    named: &[Expr],
    paths: &[Path],
    pipes: &mut Vec<Pipe>,
) -> Result<Vec<Top>, PathRefusal>
    ensures compiled { IfOk result (λ tops. CompiledTops pipes.old.items pipes.new.items tops.items
        (map (top_view named.now) paths.now)) }
    ensures makes { MakesPatterns (B.state builder.old) (B.state builder.new)
        (siblings_patterns named.now paths.now) result }
    ensures only { OnlyBuilds (B.state builder.old) (B.state builder.new) }
{
    let mut tops = Vec::new(alloc);
    for one in paths {
        match top(alloc, builder, named, one, pipes) {
            Ok(top) => append(&mut tops, top)?,
            Err(refusal) => return Err(refusal),
        }
    }
    Ok(tops)
}
