// The first node that names itself through others.
ghost use Rattle.std.specs.Prelude.{◌≡◌, ◌<◌, ◌^◌, length, IfOk, MatchBool};
ghost use Rattle.sg_graph.specs.Graph.{IsOnCycle, IsFirstOnCycle};

use crate::rank::{falls, never_rises, ranks};
use crate::row::is_marked;
use crate::search::reached;
use sqlite_items::Items;
use std::alloc::{AllocError, Global};

fn is_on_cycle(alloc: Global, links: &[Items<u32>], node: u32) -> Result<bool, AllocError>
    requires { node < length links.now }
    ensures { IfOk result
        (λ yes. MatchBool yes (IsOnCycle links.now node) (IsOnCycle links.now node → ⊥)) }
{
    let seen = reached(alloc, links, node)?;
    Ok(is_marked(&seen, node))
}

/// The first node that names itself, directly or through others.
pub fn first_on_cycle(alloc: Global, links: &[Items<u32>]) -> Result<Option<u32>, AllocError>
    requires { length links.now < 2 ^ 32 }
    ensures { IfOk result (IsFirstOnCycle links.now) }
{
    let ranks = ranks(alloc, links)?;
    let ranked = never_rises(links, &ranks);
    for node in 0..links.len() {
        let node = node as u32;
        if ranked && falls(links, &ranks, node) {
            continue;
        }
        if is_on_cycle(alloc, links, node)? {
            return Ok(Some(node));
        }
    }
    Ok(None)
}
