// Turns of reading and routing.
ghost use Rattle.std.specs.Prelude.{◌≡◌, ◌<◌, ◌≤◌, IfSome, length};
ghost use Rattle.sg_tree.specs.Bounds.{all_offers};
ghost use Rattle.sg_table.specs.Forest.{forest_of};

use crate::forest::{forest, inlet};
use crate::record::RECORD;
use bytes::Bytes;
use sg_pattern::Patterns;
use sg_pipes::{Pipes, names_within};
use sg_r5424::SdNames;
use sg_route::Router;
use sg_table::{Table, compile};
use sg_tree::{Forest, read_item};
use std::alloc::{AllocError, Global};

// Reads the record so many times.
fn read(alloc: Global, turns: u64) -> Result<bool, AllocError> {
    let rule = inlet(alloc);
    let item = Bytes::copy_from_slice(alloc, RECORD)?;
    let peer = Bytes::copy_from_slice(alloc, b"peer")?;
    let mut names = SdNames::new(alloc);
    for _ in 0..turns {
        read_item(alloc, &rule, &mut names, item.clone()?, 0, &peer)?;
    }
    Ok(true)
}

fn compiled(alloc: Global, forest: &Forest) -> Option<Table>
    ensures { IfSome result (λ table. all_offers (forest_of table).tops ≤ 1024) }
{
    let mut patterns = Patterns::new(alloc);
    match compile(alloc, forest, &mut patterns) {
        Ok(table) => Some(table),
        Err(_) => None,
    }
}

fn pipes(alloc: Global, forest: &Forest) -> Option<Pipes>
    ensures { IfSome result (λ pipes. 0 < length pipes.table.inlets.items) }
{
    let Some(table) = compiled(alloc, forest) else {
        return None;
    };
    if table.inlets.is_empty() {
        return None;
    }
    if !names_within(&table) {
        return None;
    }
    Some(Pipes::new(alloc, table))
}

fn turn<R: Router>(alloc: Global, router: &mut R, item: Bytes) -> Result<bool, AllocError>
    requires { 0 < R.inlets router.old }
    ensures { R.inlets router.new ≡ R.inlets router.old }
{
    let offers = router.route(alloc, 0, item, 0, b"peer")?;
    Ok(offers.len() == 1)
}

// Takes so many turns. Whether the record had an offer in each.
fn turns(alloc: Global, pipes: &mut Pipes, item: &Bytes, count: u64) -> Result<bool, AllocError>
    requires { 0 < length pipes.old.table.inlets.items }
{
    let mut good = true;
    for _ in 0..count {
        good &= turn(alloc, pipes, item.clone()?)?;
    }
    Ok(good)
}

fn routed(alloc: Global, forest: &Forest, item: &Bytes, count: u64) -> Result<bool, AllocError> {
    let mut made = pipes(alloc, forest);
    match &mut made {
        Some(pipes) => turns(alloc, pipes, item, count),
        None => Ok(false),
    }
}

// Routes the record so many times.
fn route(alloc: Global, turns: u64) -> Result<bool, AllocError> {
    let item = Bytes::copy_from_slice(alloc, RECORD)?;
    let forest = forest(alloc)?;
    routed(alloc, &forest, &item, turns)
}

/// Does this so many times. Whether it was done.
pub(crate) fn run(alloc: Global, what: &str, turns: u64) -> Result<bool, AllocError> {
    match what {
        "read" => read(alloc, turns),
        "route" => route(alloc, turns),
        _ => Ok(false),
    }
}
