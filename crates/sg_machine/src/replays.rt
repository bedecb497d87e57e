// A plain replay of events, which decides whether they are legal and adds up what they come to.
ghost use Rattle.std.specs.Prelude.{◌≡◌, ◌<◌, ◌^◌, map, length, IfOk};
ghost use Rattle.sg_machine.specs.Tallies.{replayed};
ghost use Rattle.sg_machine.specs.Fresh.{fresh_source, fresh_dest, fresh_run_of, source_sum, dest_sum, sum_of};

use crate::running::{DestRun, Run, SourceRun};
use crate::steps::step;
use crate::{DestSetup, DestTally, Event, Setup, SourceSetup, SourceTally, Tally};
use sg_list::Seq;
use std::alloc::{AllocError, Global};

fn empty_source(alloc: Global, setup: SourceSetup) -> SourceRun
    ensures { result ≡ fresh_source setup }
{
    SourceRun {
        setup,
        stored: 0,
        records: Seq::empty(alloc),
        acked: 0,
        mark: 0,
    }
}

fn empty_dest(alloc: Global, setup: DestSetup) -> DestRun
    ensures { result ≡ fresh_dest setup }
{
    DestRun {
        setup,
        kept: Seq::empty(alloc),
        taken: 0,
        moved: 0,
        unflowed: 0,
        used: 0,
        dropped_full: 0,
        dropped_disk: 0,
    }
}

fn empty_sources(alloc: Global, setups: &[SourceSetup]) -> Result<Vec<SourceRun>, AllocError>
    ensures { IfOk result (λ v. v.items ≡ map fresh_source setups.now) }
{
    setups
        .iter()
        .map(|s| empty_source(alloc, *s))
        .collect(alloc)
}

fn empty_dests(alloc: Global, setups: &[DestSetup]) -> Result<Vec<DestRun>, AllocError>
    ensures { IfOk result (λ v. v.items ≡ map fresh_dest setups.now) }
{
    setups.iter().map(|s| empty_dest(alloc, *s)).collect(alloc)
}

fn fresh_run(alloc: Global, setup: &Setup) -> Result<Run, AllocError>
    ensures { IfOk result (λ run. run ≡ fresh_run_of setup.now) }
{
    let sources = empty_sources(alloc, setup.sources.as_slice())?;
    let dests = empty_dests(alloc, setup.dests.as_slice())?;
    Ok(Run {
        sources: Seq::new(sources),
        dests: Seq::new(dests),
        failed: Seq::empty(alloc),
    })
}

fn tally_dest(dest: &DestRun) -> DestTally
    ensures { result ≡ dest_sum dest.now }
{
    DestTally {
        taken: dest.taken as u64,
        dropped_full: dest.dropped_full,
        dropped_disk: dest.dropped_disk,
        left: dest.kept.len().saturating_sub(dest.taken) as u64,
    }
}

fn tally_dests(alloc: Global, dests: &[DestRun]) -> Result<Vec<DestTally>, AllocError>
    ensures { IfOk result (λ v. v.items ≡ map dest_sum dests.now) }
{
    let mut tallies = Vec::with_capacity(alloc, dests.len())?;
    for dest in dests {
        tallies.push(tally_dest(dest))?;
    }
    Ok(tallies)
}

fn tally_source(source: &SourceRun) -> SourceTally
    ensures { result ≡ source_sum source.now }
{
    SourceTally {
        records: source.records.len() as u64,
        mark: source.mark,
        stored: match source.setup.store {
            Some(_) => Some(source.stored),
            None => None,
        },
    }
}

fn tally_sources(alloc: Global, sources: &[SourceRun]) -> Result<Vec<SourceTally>, AllocError>
    ensures { IfOk result (λ v. v.items ≡ map source_sum sources.now) }
{
    let mut tallies = Vec::with_capacity(alloc, sources.len())?;
    for source in sources {
        tallies.push(tally_source(source))?;
    }
    Ok(tallies)
}

fn tally(alloc: Global, run: &Run) -> Result<Tally, AllocError>
    ensures { IfOk result (λ t. t ≡ sum_of run.now) }
{
    let sources = tally_sources(alloc, run.sources.as_slice())?;
    let dests = tally_dests(alloc, run.dests.as_slice())?;
    Ok(Tally {
        sources: Seq::new(sources),
        dests: Seq::new(dests),
    })
}

/// The tally of the events over fresh stores; None exactly where they aren't legal. Messages are
/// shared, not copied. Each event takes time in proportion to its own size and to the entries that
/// it settles or moves.
pub fn replay(alloc: Global, setup: &Setup, events: &[Event]) -> Result<Option<Tally>, AllocError>
    requires { length events.now < 2 ^ 44 }
    ensures { IfOk result (λ t. t ≡ replayed setup.now events.now) }
{
    let mut run = fresh_run(alloc, setup)?;
    for event in events {
        if !step(&mut run, event)? {
            return Ok(None);
        }
    }
    Ok(Some(tally(alloc, &run)?))
}
