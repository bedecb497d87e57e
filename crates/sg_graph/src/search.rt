// All nodes that a node reaches.
ghost use Rattle.std.specs.Prelude.{◌≡◌, ◌<◌, ℕ, true, false, [], ◌∷◌, replicate, length, slice_index_or, IfOk, OnOk};
ghost use Rattle.sg_graph.specs.Graph.{ReachesNode};
ghost use Rattle.sg_graph.specs.Visits.{VisitsNodes};

use crate::row::{is_marked, mark, no_marks, row};
use sqlite_items::Items;
use std::alloc::{AllocError, Global};

/// Marks a node where it isn't marked yet, and puts it behind those that wait.
pub fn visit_one(seen: &mut [bool], waiting: &mut Vec<u32>, node: u32) -> Result<(), AllocError>
    ensures { OnOk result
        (VisitsNodes (node ∷ []) seen.old waiting.old.items seen.new waiting.new.items) }
{
    if !is_marked(seen, node) {
        mark(seen, node);
        waiting.push(node)?;
    }
    Ok(())
}

/// The same with each of these.
pub fn visit(seen: &mut [bool], waiting: &mut Vec<u32>, nodes: &[u32]) -> Result<(), AllocError>
    ensures { OnOk result (VisitsNodes nodes.now seen.old waiting.old.items seen.new
        waiting.new.items) }
{
    for node in nodes {
        visit_one(seen, waiting, *node)?;
    }
    Ok(())
}

/// Marks all that a node reaches, where nothing is marked and it alone waits.
fn search(
    links: &[Items<u32>],
    from: u32,
    seen: &mut [bool],
    waiting: &mut Vec<u32>,
) -> Result<(), AllocError>
    requires none { seen.old ≡ replicate (length links.now) false }
    requires one { waiting.old.items ≡ from ∷ [] }
    ensures found { OnOk result ((node : ℕ) → node < length links.now
        → slice_index_or seen.new node true ≡ true → ReachesNode links.now from node) }
    ensures all { OnOk result
        ((node : ℕ) → ReachesNode links.now from node → slice_index_or seen.new node true ≡ true) }
{
    while let Some(node) = waiting.pop() {
        visit(seen, waiting, row(links, node))?;
    }
    Ok(())
}

/// A mark at each node that this one reaches, itself where it names itself through others.
pub fn reached(alloc: Global, links: &[Items<u32>], from: u32) -> Result<Vec<bool>, AllocError>
    ensures found { IfOk result (λ seen. (node : ℕ) → node < length links.now
        → slice_index_or seen.items node true ≡ true → ReachesNode links.now from node) }
    ensures all { IfOk result (λ seen. (node : ℕ) → ReachesNode links.now from node
        → slice_index_or seen.items node true ≡ true) }
{
    let mut seen = no_marks(alloc, links.len())?;
    let mut waiting = vec![in alloc; from]?;
    search(links, from, &mut seen, &mut waiting)?;
    Ok(seen)
}
