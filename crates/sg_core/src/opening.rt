// Opens a core.
ghost use Rattle.std.specs.Prelude.{◌≡◌, ◌≤◌, ◌<◌, ◌+◌, ◌^◌, ℕ, IfOk, IfErr, OnOk, map, length, slice_get, option_map};
ghost use Rattle.sg_offers.specs.Rooms.{seen_in};
ghost use Rattle.sg_sinks.specs.Fitting.{space};
ghost use Rattle.sg_stores.specs.Positions.{IsStoreThere};
ghost use Rattle.sg_core.specs.Opening.{NumberStores, HaveWindows, HaveCapacities, HaveStores, AreKinds, kind_by, AreThere, opened_source, opened_sink, recovers, lengths_in, CanRecover, AreRecoverable, IsOpen, IsUnopened};

use crate::flow::Core;
use sg_buffer::{BufferEntries, EntryHead};
use sg_device::Disk;
use sg_list::Seq;
use sg_machine::{BufferSetup, DestSetup, Setup, SourceSetup};
use sg_sinks::Sink;
use sg_standing::Source;
use sg_stores::{CoreRefusal, OpenedStores, StoreKind, Stores};
use sg_window::Tracker;
use std::alloc::{AllocError, Global};

// The store of a disk-buffer keeps its entries.
fn set_kind(kinds: &mut [StoreKind], buffer: BufferSetup)
    requires { buffer.store < length kinds.old }
    ensures count { length kinds.new ≡ length kinds.old }
    ensures kinds { (s : ℕ)
        → slice_get kinds.new s ≡ option_map (kind_by (Some buffer) s) (slice_get kinds.old s) }
{
    kinds[buffer.store as usize] = StoreKind::Buffer {
        capacity: buffer.capacity,
    };
}

// What each store keeps: the entries of a disk-buffer, or else a position.
fn kinds_of(alloc: Global, dests: &[DestSetup], count: usize) -> Result<Vec<StoreKind>, AllocError>
    requires { HaveStores dests.now count }
    ensures { IfOk result (λ kinds. AreKinds dests.now count kinds.items) }
{
    let mut kinds = vec![in alloc; StoreKind::Position; count]?;
    let mut d = dests.len();
    while d > 0 {
        d -= 1;
        if let Some(buffer) = dests[d].buffer {
            set_kind(&mut kinds, buffer);
        }
    }
    Ok(kinds)
}

// A source, which begins at the position in its store.
fn source_at<D: Disk>(
    alloc: Global,
    setup: SourceSetup,
    stores: &Stores<D>,
) -> Result<Source, AllocError>
    requires window { 0 < setup.window }
    requires store { IsStoreThere stores.now setup.store }
    ensures { IfOk result (λ source. source ≡ opened_source stores.now setup) }
{
    let tracker = Tracker::new(alloc, setup.window, 0)?;
    Ok(Source {
        setup,
        opening: stores.stored(setup.store),
        tracker,
    })
}

fn sources_at<D: Disk>(
    alloc: Global,
    setups: &[SourceSetup],
    stores: &Stores<D>,
) -> Result<Seq<Source>, AllocError>
    requires windows { HaveWindows setups.now }
    requires stores { AreThere stores.now setups.now }
    ensures { IfOk result (λ sources. sources ≡ map (opened_source stores.now) setups.now) }
{
    let mut sources = Vec::with_capacity(alloc, setups.len())?;
    for setup in setups {
        sources.push(source_at(alloc, *setup, stores)?)?;
    }
    Ok(Seq::new(sources))
}

// Adds the entries that were found to a destination.
fn recover_all(sink: &mut Sink, heads: &[EntryHead]) -> Result<(), AllocError>
    requires room { sink.old.room ≡ 0 }
    requires sum { space sink.old.seen.lengths + space (lengths_in heads.now) < 2 ^ 64 }
    ensures { OnOk result (sink.new.seen ≡ recovers sink.old.seen heads.now) }
{
    for head in heads {
        sink.recover(head.length)?;
    }
    Ok(())
}

// A destination with the entries of its disk-buffer.
fn sink_at(alloc: Global, setup: DestSetup, found: &Seq<BufferEntries>) -> Result<Sink, AllocError>
    requires { CanRecover found.now setup.buffer }
    ensures { IfOk result (λ sink. sink.seen ≡ opened_sink found.now setup) }
{
    let mut sink = Sink::new(alloc, setup);
    if let Some(buffer) = setup.buffer {
        recover_all(&mut sink, &found.at(buffer.store as usize).heads)?;
    }
    Ok(sink)
}

fn sinks_at(
    alloc: Global,
    setups: &[DestSetup],
    found: &Seq<BufferEntries>,
) -> Result<Seq<Sink>, AllocError>
    requires { AreRecoverable found.now setups.now }
    ensures { IfOk result (λ sinks. seen_in sinks ≡ map (opened_sink found.now) setups.now) }
{
    let mut sinks = Vec::with_capacity(alloc, setups.len())?;
    for setup in setups {
        sinks.push(sink_at(alloc, *setup, found)?)?;
    }
    Ok(Seq::new(sinks))
}

impl<D: Disk> Core<D> {
    /// Opens a core over these stores, which the setup names by their places. Each source begins at the
    /// position in its store, at 0 where it has none, and each destination with the entries of its
    /// disk-buffer; those of an older format are spelled anew. A refusal gives the stores back, with what
    /// they held.
    pub fn open(
        alloc: Global,
        setup: Setup,
        stores: Vec<D>,
    ) -> Result<Core<D>, (Vec<D>, CoreRefusal)>
        requires numbers { NumberStores setup (length stores.items) }
        requires windows { HaveWindows setup.sources }
        requires capacities { HaveCapacities setup.dests }
        requires sources { length setup.sources ≤ 128 }
        requires dests { length setup.dests ≤ 64 }
        requires stores { length stores.items ≤ 192 }
        ensures opened { IfOk result (IsOpen setup (map D.state stores.items)) }
        ensures refused { IfErr result
            (λ e. IsUnopened setup (map D.state stores.items) (map D.state e.0.items) e.1) }
    {
        let kinds = match kinds_of(alloc, setup.dests.as_slice(), stores.len()) {
            Ok(kinds) => kinds,
            Err(_) => return Err((stores, CoreRefusal::NoMemory)),
        };
        let OpenedStores { stores, found } = Stores::open(alloc, stores, &kinds)?;
        let sinks = match sinks_at(alloc, setup.dests.as_slice(), &found) {
            Ok(sinks) => sinks,
            Err(_) => return Err((stores.into_disks(), CoreRefusal::NoMemory)),
        };
        let sources = match sources_at(alloc, setup.sources.as_slice(), &stores) {
            Ok(sources) => sources,
            Err(_) => return Err((stores.into_disks(), CoreRefusal::NoMemory)),
        };
        Ok(Core {
            sources,
            sinks,
            stores,
            calls: 0,
        })
    }
}
