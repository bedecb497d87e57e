// One driver, behind those before it.
ghost use Rattle.std.specs.Prelude.{◌≡◌, OnOk, IfOk};
ghost use Rattle.sg_fault.specs.Faults.{least};
ghost use Rattle.sg_resolve.specs.Drivers.{no_drivers, own_faults, store_of, more_inlets, more_destinations, at_word, limit_faults, repeats, with_store, with_driver};

use crate::templates::TemplateTexts;
use sg_block::NameMap;
use sg_destination::{destination_fault, store_of_destination};
use sg_device::{Name, NoMemory};
use sg_fault::{Placed, earlier};
use sg_lex::ConfigKind;
use sg_parse_base::line_of;
use sg_parse_expr::Call;
use sg_parse_obj::Side;
use sg_source::{inlet_count, source_fault, store_of_source};
use std::alloc::Global;

/// How many inlets a configuration may have: files, and connections that listeners may have.
pub const INLET_LIMIT: u32 = 128;

/// How many drivers of destinations.
pub const DESTINATION_LIMIT: u32 = 64;

/// What was found of the drivers so far.
#[derive(Drop)]
pub struct DriverCounts {
    pub first: Option<Placed>,
    /// Counted no further than to the first number above the limit.
    pub inlets: u32,
    pub destinations: u32,
    /// The stores that drivers have, by their names.
    pub stores: NameMap<u32>,
}

pub fn no_drivers(alloc: Global) -> DriverCounts
    ensures { result ≡ no_drivers }
{
    DriverCounts {
        first: None,
        inlets: 0,
        destinations: 0,
        stores: NameMap::new(alloc),
    }
}

fn own_fault(
    alloc: Global,
    texts: &TemplateTexts,
    side: Side,
    call: &Call,
) -> Result<Option<Placed>, NoMemory>
    ensures { IfOk result (λ fault. fault ≡ least (own_faults texts.now side call.now)) }
{
    match side {
        Side::Source => source_fault(alloc, call),
        Side::Destination => destination_fault(alloc, call, texts),
    }
}

fn store_of(alloc: Global, side: Side, call: &Call) -> Result<Option<Name>, NoMemory>
    ensures { IfOk result (λ store. store ≡ store_of side call.now) }
{
    match side {
        Side::Source => store_of_source(alloc, call),
        Side::Destination => store_of_destination(alloc, call),
    }
}

fn more_inlets(inlets: u32, side: Side, call: &Call) -> u32
    ensures { result ≡ more_inlets inlets side call.now }
{
    match side {
        Side::Source => inlets
            .saturating_add(inlet_count(call))
            .min(INLET_LIMIT + 1),
        Side::Destination => inlets,
    }
}

fn more_destinations(destinations: u32, side: Side) -> u32
    ensures { result ≡ more_destinations destinations side }
{
    match side {
        Side::Source => destinations,
        Side::Destination => destinations.saturating_add(1).min(DESTINATION_LIMIT + 1),
    }
}

#[tactic(auto, unfolding(sg_options::specs::Settings::word_of))]
fn placed(kind: ConfigKind, call: &Call) -> Placed
    ensures { result ≡ at_word kind call.now }
{
    Placed {
        kind,
        line: line_of(&call.word.token, call.word.at),
    }
}

fn limit_fault(inlets: u32, destinations: u32, side: Side, call: &Call) -> Option<Placed>
    ensures { result ≡ least (limit_faults inlets destinations side call.now) }
{
    match side {
        Side::Source => {
            if inlets > INLET_LIMIT {
                return Some(placed(ConfigKind::Limit, call));
            }
            None
        }
        Side::Destination => {
            if destinations > DESTINATION_LIMIT {
                return Some(placed(ConfigKind::Limit, call));
            }
            None
        }
    }
}

fn repeat_fault(stores: &NameMap<u32>, store: &Option<Name>, call: &Call) -> Option<Placed>
    ensures { result ≡ least (repeats stores.now store.now call.now) }
{
    match store {
        Some(name) => {
            if stores.has(name.bytes()) {
                return Some(placed(ConfigKind::DuplicateName, call));
            }
            None
        }
        None => None,
    }
}

fn enter_store(stores: &mut NameMap<u32>, store: Option<Name>) -> Result<(), NoMemory>
    ensures { OnOk result (stores.new ≡ with_store stores.old store) }
{
    match store {
        Some(name) => {
            stores.insert(name.into_vec(), 0)?;
            Ok(())
        }
        None => Ok(()),
    }
}

/// Counts a driver, and keeps the first fault so far.
pub fn count_driver(
    alloc: Global,
    texts: &TemplateTexts,
    count: &mut DriverCounts,
    side: Side,
    call: &Call,
) -> Result<(), NoMemory>
    ensures { OnOk result (count.new ≡ with_driver texts.now count.old (side, call.now)) }
{
    let own = own_fault(alloc, texts, side, call)?;
    let store = store_of(alloc, side, call)?;
    count.inlets = more_inlets(count.inlets, side, call);
    count.destinations = more_destinations(count.destinations, side);
    let limit = limit_fault(count.inlets, count.destinations, side, call);
    let repeat = repeat_fault(&count.stores, &store, call);
    enter_store(&mut count.stores, store)?;
    count.first = earlier(count.first, earlier(own, earlier(limit, repeat)));
    Ok(())
}
