// The walk.
ghost use Rattle.std.specs.Prelude.{OnOk};
ghost use Rattle.std.specs.List.{flat_map};
ghost use Rattle.sg_visit.specs.Leaves.{element_leaves, branch_leaves, log_leaves, statement_leaves, leaves_of};
ghost use Rattle.sg_visit.specs.Visits.{Visits};

use crate::visit::Visit;
use sg_parse_path::{RawBranch, RawElement, RawLog, ReferenceKind};
use sg_parse_text::Statement;

/// An element, with all that stands in it.
#[cycle(walk)]
pub fn visit_element<V: Visit>(
    visitor: &V,
    state: &mut V::State,
    element: &RawElement,
) -> Result<(), V::Error>
    ensures { OnOk result
        (Visits (V.step visitor.now) (element_leaves element.now) state.old state.new) }
{
    match element {
        RawElement::Source(word, source) => {
            visitor.source(state, word)?;
            visitor.reference(state, ReferenceKind::Source, source)?;
            Ok(())
        }
        RawElement::Destination(destination) => {
            visitor.reference(state, ReferenceKind::Destination, destination)?;
            Ok(())
        }
        RawElement::Filter(filter) => {
            visitor.reference(state, ReferenceKind::Filter, filter)?;
            Ok(())
        }
        RawElement::Rewrite(rewrite) => {
            visitor.reference(state, ReferenceKind::Rewrite, rewrite)?;
            Ok(())
        }
        RawElement::Parser(parser) => {
            visitor.reference(state, ReferenceKind::Parser, parser)?;
            Ok(())
        }
        RawElement::Junction(channels) => {
            visit_logs(visitor, state, channels.as_slice())?;
            Ok(())
        }
        RawElement::If { branches, other } => {
            visit_branches(visitor, state, branches.as_slice())?;
            match other {
                Some(elements) => {
                    visit_elements(visitor, state, elements.as_slice())?;
                    Ok(())
                }
                None => Ok(()),
            }
        }
    }
}

#[cycle(walk)]
fn visit_elements<V: Visit>(
    visitor: &V,
    state: &mut V::State,
    elements: &[RawElement],
) -> Result<(), V::Error>
    ensures { OnOk result
        (Visits (V.step visitor.now) (flat_map element_leaves elements.now) state.old state.new) }
{
    for element in elements {
        visit_element(visitor, state, element)?;
    }
    Ok(())
}

#[cycle(walk)]
fn visit_branches<V: Visit>(
    visitor: &V,
    state: &mut V::State,
    branches: &[RawBranch],
) -> Result<(), V::Error>
    ensures { OnOk result
        (Visits (V.step visitor.now) (flat_map branch_leaves branches.now) state.old state.new) }
{
    for branch in branches {
        visit_branch(visitor, state, branch)?;
    }
    Ok(())
}

#[cycle(walk)]
fn visit_branch<V: Visit>(
    visitor: &V,
    state: &mut V::State,
    branch: &RawBranch,
) -> Result<(), V::Error>
    ensures { OnOk result
        (Visits (V.step visitor.now) (branch_leaves branch.now) state.old state.new) }
{
    visitor.test(state, &branch.test)?;
    visit_elements(visitor, state, branch.elements.as_slice())?;
    Ok(())
}

/// Channels or embedded log statements, with all that stands in them.
#[cycle(walk)]
pub fn visit_logs<V: Visit>(
    visitor: &V,
    state: &mut V::State,
    logs: &[RawLog],
) -> Result<(), V::Error>
    ensures { OnOk result
        (Visits (V.step visitor.now) (flat_map log_leaves logs.now) state.old state.new) }
{
    for log in logs {
        visit_log(visitor, state, log)?;
    }
    Ok(())
}

#[cycle(walk)]
fn visit_log<V: Visit>(visitor: &V, state: &mut V::State, log: &RawLog) -> Result<(), V::Error>
    ensures { OnOk result
        (Visits (V.step visitor.now) (log_leaves log.now) state.old state.new) }
{
    visit_elements(visitor, state, log.elements.as_slice())?;
    visit_logs(visitor, state, log.embedded.as_slice())?;
    visitor.flags(state, log.flags.as_slice())?;
    Ok(())
}

fn visit_statement<V: Visit>(
    visitor: &V,
    state: &mut V::State,
    statement: &Statement,
) -> Result<(), V::Error>
    ensures { OnOk result
        (Visits (V.step visitor.now) (statement_leaves statement.now) state.old state.new) }
{
    match statement {
        Statement::Object(object) => {
            visitor.object(state, object)?;
            Ok(())
        }
        Statement::Log(log) => {
            visit_log(visitor, state, log)?;
            Ok(())
        }
    }
}

/// All statements of a configuration.
#[tactic(auto, unfolding(crate::specs::Leaves::leaves_of))]
pub fn visit_statements<V: Visit>(
    visitor: &V,
    state: &mut V::State,
    statements: &[Statement],
) -> Result<(), V::Error>
    ensures { OnOk result
        (Visits (V.step visitor.now) (leaves_of statements.now) state.old state.new) }
{
    for statement in statements {
        visit_statement(visitor, state, statement)?;
    }
    Ok(())
}
