// The nodes that a node names, and marks on nodes.
ghost use Rattle.std.specs.Prelude.{◌≡◌, [], true, false, length, slice_index_or, slice_set, replicate, IfOk};

use sqlite_items::Items;
use std::alloc::{AllocError, Global};

/// The nodes that this one names: none where there is no such node.
pub fn row(links: &[Items<u32>], node: u32) -> &[u32]
    ensures { result.now ≡ slice_index_or links.now node [] }
{
    match links.get(node as usize) {
        Some(row) => row.as_slice(),
        None => &[],
    }
}

/// Whether a node has its mark. One past the last counts as marked.
pub fn is_marked(marks: &[bool], node: u32) -> bool
    ensures { result ≡ slice_index_or marks.now node true }
{
    match marks.get(node as usize) {
        Some(mark) => *mark,
        None => true,
    }
}

pub fn mark(marks: &mut [bool], node: u32)
    ensures { marks.new ≡ slice_set marks.old node true }
{
    let place = node as usize;
    if place < marks.len() {
        marks[place] = true;
    }
}

/// No marks, for so many nodes.
pub fn no_marks(alloc: Global, count: usize) -> Result<Vec<bool>, AllocError>
    ensures { IfOk result (λ marks. marks.items ≡ replicate count false) }
{
    vec![in alloc; false; count]
}
