// The table of a filter.
ghost use Rattle.std.specs.Prelude.{◌≡◌, if◌then◌else◌, IfOk, slice_get};
ghost use Rattle.sg_filter.specs.Checks.{check_holds};
ghost use Rattle.sg_filter.specs.Decisions.{decides};
ghost use Rattle.sg_filter.specs.Table.{IsNodeTable, decision_at, next_of};

use crate::check::{Predicate, TextRoom};
use sg_msg::Message;
use std::alloc::{AllocError, Global};

/// A check, with the place to go on at where it holds, and where it doesn't. Place 0 answers false and
/// place 1 true; the nodes stand from place 2 on, each behind those that it refers to.
#[derive(Drop)]
pub(crate) struct Node {
    pub(crate) check: Predicate,
    pub(crate) yes: u32,
    pub(crate) no: u32,
}

impl Node {
    fn next(&mut self, room: &mut TextRoom, message: &Message) -> Result<u32, AllocError>
        ensures value { IfOk result (λ at. at
            ≡ (if check_holds self.old.check message.now then self.old.yes else self.old.no)) }
        ensures same { self.new ≡ self.old }
    {
        if self.check.holds(room, message)? {
            return Ok(self.yes);
        }
        Ok(self.no)
    }

    fn share(&self, alloc: Global) -> Result<Node, AllocError>
        ensures { IfOk result (λ node. node ≡ self.now) }
    {
        Ok(Node {
            check: self.check.share(alloc)?,
            yes: self.yes,
            no: self.no,
        })
    }
}

// The place to go on at, 0 where there is no such node.
fn next_place(
    nodes: &mut [Node],
    index: usize,
    room: &mut TextRoom,
    message: &Message,
) -> Result<u32, AllocError>
    ensures value { IfOk result (λ at. at ≡ next_of (slice_get nodes.old index) message.now) }
    ensures same { nodes.new ≡ nodes.old }
{
    if index >= nodes.len() {
        return Ok(0);
    }
    nodes[index].next(room, message)
}

/// What the table decides, from that place on.
pub(crate) fn decided(
    nodes: &mut [Node],
    start: u32,
    room: &mut TextRoom,
    message: &Message,
) -> Result<bool, AllocError>
    requires { IsNodeTable nodes.old }
    ensures value { IfOk result (λ b. b ≡ decides (decision_at nodes.old start) message.now) }
    ensures same { nodes.new ≡ nodes.old }
{
    let mut at = start;
    'asks: while at >= 2 {
        at = next_place(nodes, at as usize - 2, room, message)?;
    }
    Ok(at == 1)
}

/// A table equal to this one, whose matchers have caches of their own.
pub(crate) fn shared(alloc: Global, nodes: &[Node]) -> Result<Vec<Node>, AllocError>
    ensures { IfOk result (λ copy. copy.items ≡ nodes.now) }
{
    let mut copy = Vec::new(alloc);
    for node in nodes {
        copy.push(node.share(alloc)?)?;
    }
    Ok(copy)
}
