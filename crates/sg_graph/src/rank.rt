// Ranks of nodes: none names a node of a higher rank, and one of the same rank only round a cycle. The ranks
// are looked at before they count.
ghost use Rattle.std.specs.Prelude.{◌≡◌, ◌+◌, ◌<◌, ◌≤◌, ◌^◌, ℕ, length, slice_index};
ghost use Rattle.std.specs.Bool.{OnTrue};
ghost use Rattle.std.specs.List.{Contains};
ghost use Rattle.sg_graph.specs.Graph.{row_of};

use crate::order::finishing_order;
use crate::row::{is_marked, no_marks, row};
use crate::search::{visit, visit_one};
use sqlite_items::Items;
use std::alloc::{AllocError, Global};

fn add_namer(named_by: &mut [Items<u32>], named: &[u32], node: u32) -> Result<(), AllocError> {
    for next in named {
        if let Some(namers) = named_by.get_mut(*next as usize) {
            namers.push(node)?;
        }
    }
    Ok(())
}

fn empty_rows(alloc: Global, count: usize) -> Result<Vec<Items<u32>>, AllocError> {
    let mut rows = Vec::with_capacity(alloc, count)?;
    for _row in 0..count {
        rows.push(Items::new(alloc))?;
    }
    Ok(rows)
}

/// For each node those that name it.
fn reversed(alloc: Global, links: &[Items<u32>]) -> Result<Vec<Items<u32>>, AllocError>
    requires { length links.now < 2 ^ 32 }
{
    let mut named_by = empty_rows(alloc, links.len())?;
    for node in 0..links.len() {
        add_namer(&mut named_by, row(links, node as u32), node as u32)?;
    }
    Ok(named_by)
}

fn set_rank(ranks: &mut [u32], node: u32, rank: u32) {
    let place = node as usize;
    if place < ranks.len() {
        ranks[place] = rank;
    }
}

/// Gives a rank to the nodes that wait, and to all without a mark that they reach.
fn flood(
    links: &[Items<u32>],
    rank: u32,
    seen: &mut [bool],
    waiting: &mut Vec<u32>,
    ranks: &mut [u32],
) -> Result<(), AllocError> {
    for _turn in 0..u64::MAX {
        let Some(node) = waiting.pop() else {
            return Ok(());
        };
        set_rank(ranks, node, rank);
        visit(seen, waiting, row(links, node))?;
    }
    Ok(())
}

/// Ranks, the same for nodes on a common cycle (S. R. Kosaraju's algorithm for strongly connected components).
pub(crate) fn ranks(alloc: Global, links: &[Items<u32>]) -> Result<Vec<u32>, AllocError>
    requires { length links.now < 2 ^ 32 }
{
    let order = finishing_order(alloc, links)?;
    let named_by = reversed(alloc, links)?;
    let mut ranks = vec![in alloc; 0; links.len()]?;
    let mut seen = no_marks(alloc, links.len())?;
    let mut waiting = Vec::new(alloc);
    let mut rank = links.len() as u32;
    for root in order.iter().rev() {
        if !is_marked(&seen, *root) {
            visit_one(&mut seen, &mut waiting, *root)?;
            flood(&named_by, rank, &mut seen, &mut waiting, &mut ranks)?;
            rank = rank.saturating_sub(1);
        }
    }
    Ok(ranks)
}

fn rank_of(ranks: &[u32], node: u32) -> u32
    ensures { result ≡ slice_index ranks.now node }
{
    match ranks.get(node as usize) {
        Some(rank) => *rank,
        None => 0,
    }
}

/// Whether each of these nodes has a lower rank.
fn are_below(ranks: &[u32], nodes: &[u32], rank: u64) -> bool
    ensures { OnTrue result ((j : ℕ) → Contains nodes.now j → slice_index ranks.now j < rank) }
{
    for node in nodes {
        if rank_of(ranks, *node) as u64 >= rank {
            return false;
        }
    }
    true
}

/// Whether this node names nodes of lower ranks alone.
pub fn falls(links: &[Items<u32>], ranks: &[u32], node: u32) -> bool
    ensures { OnTrue result ((j : ℕ) → Contains (row_of links.now node) j
        → slice_index ranks.now j < slice_index ranks.now node) }
{
    are_below(ranks, row(links, node), rank_of(ranks, node) as u64)
}

/// Whether no node names one of a higher rank.
pub fn never_rises(links: &[Items<u32>], ranks: &[u32]) -> bool
    requires { length links.now < 2 ^ 32 }
    ensures { OnTrue result ((i j : ℕ) → Contains (row_of links.now i) j
        → slice_index ranks.now j ≤ slice_index ranks.now i) }
{
    for node in 0..links.len() {
        let node = node as u32;
        if !are_below(ranks, row(links, node), rank_of(ranks, node) as u64 + 1) {
            return false;
        }
    }
    true
}
