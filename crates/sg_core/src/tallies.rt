// The tally of a core.
ghost use Rattle.std.specs.Prelude.{◌≡◌, IfOk, map};
ghost use Rattle.sg_offers.specs.Rooms.{seen_in};
ghost use Rattle.sg_core.specs.Tallying.{source_tally_of, sink_tally_of, IsFit, AreFit};

use sg_device::Disk;
use sg_machine::{DestTally, SourceTally};
use sg_sinks::Sink;
use sg_standing::Source;
use sg_stores::Stores;
use std::alloc::{AllocError, Global};

fn tally_sink(sink: &Sink) -> DestTally
    ensures { result ≡ sink_tally_of sink.now.seen }
{
    let (dropped_full, dropped_disk) = sink.dropped();
    DestTally {
        taken: sink.taken(),
        dropped_full,
        dropped_disk,
        left: sink.left(),
    }
}

pub fn tally_sinks(alloc: Global, sinks: &[Sink]) -> Result<Vec<DestTally>, AllocError>
    ensures { IfOk result (λ tallies. tallies.items ≡ map sink_tally_of (seen_in sinks.now)) }
{
    let mut tallies = Vec::with_capacity(alloc, sinks.len())?;
    for sink in sinks {
        tallies.push(tally_sink(sink))?;
    }
    Ok(tallies)
}

fn tally_source<D: Disk>(source: &Source, stores: &Stores<D>) -> SourceTally
    requires { IsFit stores.now source.now }
    ensures { result ≡ source_tally_of stores.now source.now }
{
    SourceTally {
        records: source.tracker.begun(),
        mark: source.mark(),
        stored: match source.setup.store {
            Some(_) => Some(stores.stored(source.setup.store)),
            None => None,
        },
    }
}

/// The numbers of each source, with what is stored of it.
pub fn tally_sources<D: Disk>(
    alloc: Global,
    sources: &[Source],
    stores: &Stores<D>,
) -> Result<Vec<SourceTally>, AllocError>
    requires { AreFit stores.now sources.now }
    ensures { IfOk result
        (λ tallies. tallies.items ≡ map (source_tally_of stores.now) sources.now) }
{
    let mut tallies = Vec::with_capacity(alloc, sources.len())?;
    for source in sources {
        tallies.push(tally_source(source, stores))?;
    }
    Ok(tallies)
}
