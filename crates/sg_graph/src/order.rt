// An order of nodes. What it says is looked at before it counts, so that no clause speaks of it.
ghost use Rattle.std.specs.Prelude.{◌<◌, ◌^◌, length};

use crate::row::{is_marked, mark, no_marks, row};
use sqlite_items::Items;
use std::alloc::{AllocError, Global};

/// What is to be done, in a walk from node to node.
#[derive(Clone, Copy, Drop)]
enum NodeStep {
    Enter(u32),
    Leave(u32),
}

/// Notes that a node is left when all that it names is done, which is done before.
fn enter(
    links: &[Items<u32>],
    node: u32,
    seen: &mut [bool],
    steps: &mut Vec<NodeStep>,
) -> Result<(), AllocError> {
    mark(seen, node);
    steps.push(NodeStep::Leave(node))?;
    for next in row(links, node) {
        if !is_marked(seen, *next) {
            steps.push(NodeStep::Enter(*next))?;
        }
    }
    Ok(())
}

/// One step: the node that it leaves, if any.
fn take_step(
    links: &[Items<u32>],
    step: NodeStep,
    seen: &mut [bool],
    steps: &mut Vec<NodeStep>,
) -> Result<Option<u32>, AllocError> {
    match step {
        NodeStep::Leave(node) => Ok(Some(node)),
        NodeStep::Enter(node) => {
            if !is_marked(seen, node) {
                enter(links, node, seen, steps)?;
            }
            Ok(None)
        }
    }
}

/// Walks from a node, and puts each node behind the others as it leaves it.
fn walk(
    links: &[Items<u32>],
    root: u32,
    seen: &mut [bool],
    steps: &mut Vec<NodeStep>,
    order: &mut Vec<u32>,
) -> Result<(), AllocError> {
    steps.push(NodeStep::Enter(root))?;
    for _turn in 0..u64::MAX {
        let Some(step) = steps.pop() else {
            return Ok(());
        };
        if let Some(left) = take_step(links, step, seen, steps)? {
            order.push(left)?;
        }
    }
    Ok(())
}

/// The nodes in an order in which each stands behind those that it names, where none names itself through
/// others (R. E. Tarjan, "Depth-first search and linear graph algorithms").
pub(crate) fn finishing_order(alloc: Global, links: &[Items<u32>]) -> Result<Vec<u32>, AllocError>
    requires { length links.now < 2 ^ 32 }
{
    let mut seen = no_marks(alloc, links.len())?;
    let mut steps = Vec::new(alloc);
    let mut order = Vec::new(alloc);
    for root in 0..links.len() {
        walk(links, root as u32, &mut seen, &mut steps, &mut order)?;
    }
    Ok(order)
}
