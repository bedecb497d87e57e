// What a run has come to.
ghost use Rattle.std.specs.Prelude.{◌≡◌, ◌<◌, ◌^◌, ◌++◌, ◌∷◌, [], map, length, IfOk, OnOk};
ghost use Rattle.sg_serve.specs.Counts.{gave_up_outlet, numbers_from, first_fault, tallied_of, AreCountsOf};

use crate::OutletRests;
use sg_actor::{DestActor, GivenUp, SourceActor};
use sg_core::Core;
use sg_device::{Disk, Inlet, NoMemory, Outlet};
use sg_list::Seq;
use sg_machine::Tally;
use sg_route::Router;
use std::alloc::Global;

/// What a run has come to, once its rounds have ended.
#[derive(Drop)]
pub struct Counts {
    pub tally: Tally,
    /// For each inlet the number of its parts that were given up for a bad count, 2^64 - 1 where there
    /// were more.
    pub bad_frames: Seq<u64>,
    /// The destinations that were given up as their outlets failed, in ascending order.
    pub sinks: Seq<u32>,
    /// The core's stores that have failed, in ascending order.
    pub stores: Seq<u32>,
    /// The inlets with a failed pull, in ascending order.
    pub inlets: Seq<u32>,
    /// What is left of the disk-buffers that aren't reliable, and the destinations and stores that failed
    /// with them.
    pub rests: OutletRests,
}

/// What failed in a run.
#[derive(Clone, Copy, PartialEq, Eq, Drop)]
pub enum Fault {
    /// A destination was given up, as its outlet failed, or its outlet didn't take what was held.
    Sink(u32),
    /// A store failed.
    Disk(u32),
    /// A pull of an inlet failed.
    Inlet(u32),
}

impl Counts {
    /// What failed, where anything did: a destination before a store, and that before an inlet, the
    /// lowest of its kind.
    pub fn fault(&self) -> Option<Fault>
        ensures { result
            ≡ first_fault self.now.rests.sinks self.now.rests.stores self.now.inlets }
    {
        if !self.rests.sinks.is_empty() {
            return Some(Fault::Sink(*self.rests.sinks.at(0)));
        }
        if !self.rests.stores.is_empty() {
            return Some(Fault::Disk(*self.rests.stores.at(0)));
        }
        if !self.inlets.is_empty() {
            return Some(Fault::Inlet(*self.inlets.at(0)));
        }
        None
    }
}

fn bad_frames<R: Router + Drop, I: Inlet>(
    alloc: Global,
    sources: &[SourceActor<R, I>],
) -> Result<Seq<u64>, NoMemory>
    ensures { IfOk result (λ counts. counts ≡ map (λ a. a.bad_frames) sources.now) }
{
    let mut counts = Seq::empty(alloc);
    for source in sources {
        counts.push(source.bad_frames())?;
    }
    Ok(counts)
}

// Notes the number of one that is marked.
pub(crate) fn note(numbers: &mut Seq<u32>, number: u32, marked: bool) -> Result<(), NoMemory>
    ensures { OnOk result (numbers.new ≡ numbers.old ++ numbers_from number (marked ∷ [])) }
{
    if marked {
        numbers.push(number)?;
    }
    Ok(())
}

fn failed_inlets<R: Router + Drop, I: Inlet>(
    alloc: Global,
    sources: &[SourceActor<R, I>],
) -> Result<Seq<u32>, NoMemory>
    requires few { length sources.now < 2 ^ 32 }
    ensures { IfOk result
        (λ numbers. numbers ≡ numbers_from 0 (map (λ a. a.reader.failed) sources.now)) }
{
    let mut numbers = Seq::empty(alloc);
    for i in 0..sources.len() {
        note(&mut numbers, i as u32, sources[i].failed())?;
    }
    Ok(numbers)
}

fn gave_up<O: Outlet>(dest: &DestActor<O>) -> bool
    ensures { result ≡ gave_up_outlet dest.now.outage.given_up }
{
    match dest.given_up() {
        Some(GivenUp::Outlet) => true,
        Some(GivenUp::Store) => false,
        None => false,
    }
}

fn failed_sinks<O: Outlet>(alloc: Global, dests: &[DestActor<O>]) -> Result<Seq<u32>, NoMemory>
    requires few { length dests.now < 2 ^ 32 }
    ensures { IfOk result (λ numbers. numbers
        ≡ numbers_from 0 (map (λ a. gave_up_outlet a.outage.given_up) dests.now)) }
{
    let mut numbers = Seq::empty(alloc);
    for d in 0..dests.len() {
        note(&mut numbers, d as u32, gave_up(&dests[d]))?;
    }
    Ok(numbers)
}

fn failed_stores<D: Disk>(alloc: Global, core: &Core<D>, count: u32) -> Result<Seq<u32>, NoMemory>
    requires { count ≡ length core.now.stores }
    ensures { IfOk result
        (λ numbers. numbers ≡ numbers_from 0 (map (λ s. s.failed) core.now.stores)) }
{
    let mut numbers = Seq::empty(alloc);
    for s in 0..count {
        note(&mut numbers, s, core.failed(s))?;
    }
    Ok(numbers)
}

/// What the core and what took the turns of its sources and destinations have come to, before their
/// outlets are finished.
#[derive(Drop)]
pub(crate) struct Tallied {
    pub(crate) tally: Tally,
    pub(crate) bad_frames: Seq<u64>,
    pub(crate) sinks: Seq<u32>,
    pub(crate) stores: Seq<u32>,
    pub(crate) inlets: Seq<u32>,
}

impl Tallied {
    /// With what is left.
    pub(crate) fn with_rests(self, rests: OutletRests) -> Counts
        ensures rests { result.rests ≡ rests }
        ensures counts { tallied_of result ≡ self }
    {
        let Tallied {
            tally,
            bad_frames,
            sinks,
            stores,
            inlets,
        } = self;
        Counts {
            tally,
            bad_frames,
            sinks,
            stores,
            inlets,
            rests,
        }
    }
}

/// What the core and what took the turns of its sources and destinations have come to. The core has so
/// many stores.
pub(crate) fn count_all<D: Disk, R: Router + Drop, I: Inlet, O: Outlet>(
    alloc: Global,
    core: &Core<D>,
    stores: u32,
    sources: &[SourceActor<R, I>],
    dests: &[DestActor<O>],
) -> Result<Tallied, NoMemory>
    requires stores { stores ≡ length core.now.stores }
    requires few_sources { length sources.now < 2 ^ 32 }
    requires few_dests { length dests.now < 2 ^ 32 }
    ensures { IfOk result (AreCountsOf core.now sources.now dests.now) }
{
    Ok(Tallied {
        tally: core.tally(alloc)?,
        bad_frames: bad_frames(alloc, sources)?,
        sinks: failed_sinks(alloc, dests)?,
        stores: failed_stores(alloc, core, stores)?,
        inlets: failed_inlets(alloc, sources)?,
    })
}
