// A compiled table at work.
ghost use Rattle.std.specs.Prelude.{◌≡◌, ◌<◌, ◌≤ℤ◌, pos, length, IfOk, Some, map, slice_get};
ghost use Rattle.sg_route.specs.Offers.{record_at};
ghost use Rattle.sg_tree.specs.Offers.{AreOffers, deliveries_of};
ghost use Rattle.sg_tree.specs.Readings.{inlet_of};
ghost use Rattle.sg_table.specs.Forest.{forest_of};
ghost use Rattle.sg_pipes.specs.Within.{AreWoodsWithin, AreWoodsWithin-prop};

use crate::peer::Peer;
use crate::work::WalkWork;
use bytes::Bytes;
use sg_msg::{Message, Offer};
use sg_r5424::SdNames;
use sg_route::Router;
use sg_table::{Pipe, Table};
use sg_tree::{InletRule, is_skipped, read_item};
use std::alloc::{AllocError, Global};

/// Log paths that give the offers of records.
pub struct Pipes {
    table: Table,
    /// Its memory is used again for each record.
    work: WalkWork,
    peer: Peer,
    names: SdNames,
    ghost within: { AreWoodsWithin (forest_of table) } by { AreWoodsWithin-prop (forest_of table) },
}

impl Drop for Pipes {
    fn drop(self) {
        let Pipes {
            table: _table,
            work: _work,
            peer: _peer,
            names: _names,
        } = self;
    }
}

// What the statements offer for a message of an inlet.
fn offers_of(
    table: &mut Table,
    work: &mut WalkWork,
    inlet: u32,
    message: Message,
) -> Result<Vec<Offer>, AllocError>
    ensures offers { IfOk result
        (λ offers. offers.items ≡ deliveries_of (forest_of table.old) inlet message) }
    ensures stays { forest_of table.new ≡ forest_of table.old }
    ensures rules { (table.new.inlets ≡ table.old.inlets) × (table.new.dests ≡ table.old.dests) }
{
    work.clear(&table.tops, inlet)?;
    work.offer(&mut table.pipes, message, false)?;
    work.work(&mut table.pipes)?;
    let nothing = Vec::new(work.alloc);
    Ok(std::mem::replace(&mut work.offers, nothing))
}

fn rule_at(table: &Table, inlet: u32) -> &InletRule
    requires { inlet < length table.now.inlets.items }
    ensures { slice_get (map inlet_of table.now.inlets.items) inlet ≡ Some (inlet_of result.now) }
{
    &table.inlets[inlet as usize]
}

// The offers of a record of an inlet.
fn routed(
    alloc: Global,
    table: &mut Table,
    work: &mut WalkWork,
    inlet: u32,
    item: Bytes,
    at: i64,
    peer: &[u8],
    last: &mut Peer,
    names: &mut SdNames,
) -> Result<Vec<Offer>, AllocError>
    requires inlet { inlet < length table.old.inlets.items }
    requires moment { (pos 0 ≤ℤ at) × (at ≤ℤ pos 250_000_000_000_000_000) }
    ensures offers { IfOk result
        (λ found. AreOffers (forest_of table.old) inlet (record_at peer.now item at) found.items) }
    ensures stays { forest_of table.new ≡ forest_of table.old }
    ensures rules { (table.new.inlets ≡ table.old.inlets) × (table.new.dests ≡ table.old.dests) }
{
    let rule = rule_at(table, inlet);
    if is_skipped(rule, item.as_slice()) {
        return Ok(Vec::new(alloc));
    }
    last.keep(alloc, peer)?;
    let message = read_item(alloc, rule, names, item, at, &last.name)?;
    offers_of(table, work, inlet, message)
}

impl Pipes {
    /// The log paths of a table whose statements name only destinations that are there, and that gives a
    /// record at most 1,024 offers.
    pub fn new(alloc: Global, table: Table) -> Pipes
        requires { AreWoodsWithin (forest_of table) }
        ensures { result.table ≡ table }
    {
        Pipes {
            table,
            work: WalkWork::new(alloc),
            peer: Peer::none(),
            names: SdNames::new(alloc),
        }
    }

    /// The table of pipes.
    pub fn table(&self) -> &[Pipe]
        ensures { result.now ≡ self.now.table.pipes.items }
    {
        &self.table.pipes
    }

    /// An equal one, with caches of its own. The patterns are made no second time.
    pub fn share(&self, alloc: Global) -> Result<Pipes, AllocError>
        ensures { IfOk result (λ pipes. forest_of pipes.table ≡ forest_of self.now.table) }
    {
        let table = self.table.share(alloc)?;
        Ok(Pipes {
            table,
            work: WalkWork::new(alloc),
            peer: Peer::none(),
            names: SdNames::new(alloc),
        })
    }
}

impl Router for Pipes {
    ghost inlets = { λ pipes. length pipes.table.inlets.items };

    ghost dests = { λ pipes. length pipes.table.dests.items };

    ghost offers = { λ pipes inlet record_of found. AreOffers (forest_of pipes.table)
        inlet record_of found };

    fn route(
        &mut self,
        alloc: Global,
        inlet: u32,
        item: Bytes,
        at: i64,
        peer: &[u8],
    ) -> Result<Vec<Offer>, AllocError> {
        routed(
            alloc,
            &mut self.table,
            &mut self.work,
            inlet,
            item,
            at,
            peer,
            &mut self.peer,
            &mut self.names,
        )
    }
}
