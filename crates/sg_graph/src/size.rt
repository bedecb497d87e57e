// How large nodes are with all that they name, each after those that it names.
ghost use Rattle.std.specs.Prelude.{◌≡◌, ◌<◌, ◌≤◌, ◌+◌, ◌^◌, ℕ, true, false, min, length, slice_index, slice_index_or, slice_set, replicate, IfOk, MatchBool, MatchOption};
ghost use Rattle.std.specs.List.{Contains, sum_by};
ghost use Rattle.sg_graph.specs.Graph.{row_of, HasNoCycle};
ghost use Rattle.sg_graph.specs.Sizes.{size_of, AreSizes, IsNodeReady, IsNodeHeld};
ghost use Rattle.sg_graph.specs.Visits.{unseen};

use crate::order::finishing_order;
use crate::row::{is_marked, mark, no_marks, row};
use sqlite_items::Items;
use std::alloc::{AllocError, Global};

fn number_at(numbers: &[u64], place: u32) -> u64
    ensures { result ≡ slice_index numbers.now place }
{
    match numbers.get(place as usize) {
        Some(number) => *number,
        None => 0,
    }
}

/// What a node comes to where the sizes of all that it names are known: `most` where it is more.
fn size_now(links: &[Items<u32>], own: &[u64], sizes: &[u64], most: u64, node: u32) -> u64
    ensures { result ≡ min most
        (slice_index own.now node + sum_by (slice_index sizes.now) (row_of links.now node)) }
{
    let mut sum = number_at(own, node).min(most);
    for next in row(links, node) {
        sum = sum.saturating_add(number_at(sizes, *next)).min(most);
    }
    sum
}

fn set_number(numbers: &mut [u64], place: u32, number: u64)
    ensures { numbers.new ≡ slice_set numbers.old place number }
{
    let place = place as usize;
    if place < numbers.len() {
        numbers[place] = number;
    }
}

fn are_marked(marks: &[bool], nodes: &[u32]) -> bool
    ensures { MatchBool result
        ((j : ℕ) → Contains nodes.now j → slice_index_or marks.now j true ≡ true)
        ((j : ℕ) × Contains nodes.now j × (slice_index_or marks.now j true ≡ false)) }
{
    for node in nodes {
        if !is_marked(marks, *node) {
            return false;
        }
    }
    true
}

/// Whether a node's size isn't known, but the sizes of all that it names are.
fn is_ready(links: &[Items<u32>], done: &[bool], node: u32) -> bool
    ensures { MatchBool result (IsNodeReady links.now done.now node)
        (IsNodeHeld links.now done.now node) }
{
    if is_marked(done, node) {
        return false;
    }
    are_marked(done, row(links, node))
}

fn next_ready(links: &[Items<u32>], done: &[bool]) -> Option<u32>
    requires { length links.now < 2 ^ 32 }
    ensures { MatchOption result ((i : ℕ) → i < length links.now → IsNodeHeld links.now done.now i)
        (IsNodeReady links.now done.now) }
{
    for node in 0..links.len() {
        if is_ready(links, done, node as u32) {
            return Some(node as u32);
        }
    }
    None
}

/// Notes the size of a node that is ready.
fn settle(
    links: &[Items<u32>],
    own: &[u64],
    most: u64,
    node: u32,
    done: &mut [bool],
    sizes: &mut [u64],
)
    requires ready { IsNodeReady links.now done.old node }
    requires sized { length sizes.old ≡ length done.old }
    ensures known { AreSizes links.now own.now most done.old sizes.old
        → AreSizes links.now own.now most done.new sizes.new }
    ensures fewer { unseen done.new + 1 ≡ unseen done.old }
{
    let size = size_now(links, own, sizes, most, node);
    set_number(sizes, node, size);
    mark(done, node);
}

/// Goes over nodes in an order, and notes the size of each that is ready then.
fn settle_in_order(
    links: &[Items<u32>],
    own: &[u64],
    most: u64,
    order: &[u32],
    done: &mut [bool],
    sizes: &mut [u64],
)
    requires sized { length sizes.old ≡ length done.old }
    ensures known { AreSizes links.now own.now most done.old sizes.old
        → AreSizes links.now own.now most done.new sizes.new }
{
    for node in order {
        if is_ready(links, done, *node) {
            settle(links, own, most, *node, done, sizes);
        }
    }
}

/// Notes the size of each node, in this order as far as it serves.
fn settle_all(
    links: &[Items<u32>],
    own: &[u64],
    most: u64,
    order: &[u32],
    done: &mut [bool],
    sizes: &mut [u64],
)
    requires count { length links.now < 2 ^ 32 }
    requires acyclic { HasNoCycle links.now }
    requires marks { length done.old ≡ length links.now }
    requires sized { length sizes.old ≡ length links.now }
    requires known { AreSizes links.now own.now most done.old sizes.old }
    ensures { (i : ℕ) → slice_index sizes.new i ≡ min most (size_of links.now own.now i) }
{
    settle_in_order(links, own, most, order, done, sizes);
    while let Some(node) = next_ready(links, done) {
        settle(links, own, most, node, done, sizes);
    }
}

fn no_numbers(alloc: Global, count: usize) -> Result<Vec<u64>, AllocError>
    ensures { IfOk result (λ numbers. numbers.items ≡ replicate count 0) }
{
    vec![in alloc; 0; count]
}

/// The size of each node: its own, and that of each node that it names, as often as it names it. What is
/// more than `most` counts as `most`.
pub fn sizes(
    alloc: Global,
    links: &[Items<u32>],
    own: &[u64],
    most: u64,
) -> Result<Vec<u64>, AllocError>
    requires count { length links.now < 2 ^ 32 }
    requires own { length own.now ≡ length links.now }
    requires acyclic { HasNoCycle links.now }
    ensures each { IfOk result
        (λ sizes. (i : ℕ) → slice_index sizes.items i ≡ min most (size_of links.now own.now i)) }
    ensures count { IfOk result (λ sizes. length sizes.items ≡ length links.now) }
{
    let order = finishing_order(alloc, links)?;
    let mut done = no_marks(alloc, links.len())?;
    let mut sizes = no_numbers(alloc, links.len())?;
    settle_all(links, own, most, &order, &mut done, &mut sizes);
    Ok(sizes)
}
