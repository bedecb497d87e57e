// What is told of a run while it goes on.
ghost use Rattle.std.specs.Prelude.{◌≡◌, IfOk, map};
ghost use Rattle.sg_hub.specs.Counts.{offered_to};
ghost use Rattle.sg_crew.specs.Looks.{offered_by_both, offered_by_all, look_of_source, looks_of_dests};

use crate::worker::Worker;
use sg_actor::{DestActor, SourceActor};
use sg_device::{Disk, Inlet, Outlet};
use sg_hub::Offered;
use sg_outside::Machine;
use sg_route::Router;
use std::alloc::{AllocError, Global};

/// What a source has come to so far.
#[derive(Clone, Copy, PartialEq, Eq, Drop)]
pub struct SourceLook {
    pub records: u64,
    pub bad_frames: u64,
    /// What this run stored last of its position.
    pub stored: Option<u64>,
    /// Its window was full when it asked last.
    pub full: bool,
    /// How often it wasn't.
    pub eased: u64,
}

/// What a destination has come to so far.
#[derive(Clone, Copy, PartialEq, Eq, Drop)]
pub struct DestLook {
    pub offered: Offered,
    pub taken: u64,
    /// When the first entry that is left was received, in microseconds since 1970; behind a turn that took all it was
    /// shown, that of the last one taken.
    pub oldest: Option<i64>,
}

/// What looks at a run while it goes on.
pub trait Watch<W: Machine> {
    /// How many rounds may pass between two looks, 1 at least.
    fn most(&self) -> u64;

    /// Takes note of whether the outlet of this destination failed last.
    fn note(&mut self, world: &W, dest: usize, fails: bool);

    /// Whether it looks now.
    fn is_due(&mut self, world: &mut W) -> bool
        ensures { W.state world.new ≡ W.state world.old };

    /// Looks at all sources and destinations, in the order of their numbers; a last time where the run has ended.
    fn look(&mut self, world: &mut W, sources: &[SourceLook], dests: &[DestLook], last: bool)
        ensures { W.state world.new ≡ W.state world.old };
}

fn sum(one: Offered, other: Offered) -> Offered
    ensures { result ≡ offered_by_both one other }
{
    Offered {
        kept: one.kept.saturating_add(other.kept),
        dropped_full: one.dropped_full.saturating_add(other.dropped_full),
        dropped_disk: one.dropped_disk.saturating_add(other.dropped_disk),
    }
}

// What a source's offers to this destination came to.
fn offered_by<A, D: Disk>(source: &Worker<A, D>, dest: usize) -> Offered
    ensures { result ≡ offered_to dest source.now.passed.offered.items }
{
    if dest < source.passed.offered.len() {
        return source.passed.offered[dest];
    }
    Offered::none()
}

// What all sources' offers to this destination came to.
fn offered_to<A, D: Disk>(sources: &[Worker<A, D>], dest: usize) -> Offered
    ensures { result ≡ offered_by_all dest sources.now }
{
    let mut all = Offered::none();
    for source in sources {
        all = sum(all, offered_by(source, dest));
    }
    all
}

fn source_looks<R: Router + Drop, I: Inlet, D: Disk>(
    alloc: Global,
    sources: &[Worker<SourceActor<R, I>, D>],
) -> Result<Vec<SourceLook>, AllocError>
    ensures { IfOk result (λ looks. looks.items ≡ map look_of_source sources.now) }
{
    let mut looks = Vec::with_capacity(alloc, sources.len())?;
    for source in sources {
        looks.push(SourceLook {
            records: source.passed.records,
            bad_frames: source.actor.bad_frames(),
            stored: source.passed.stored,
            full: source.passed.full,
            eased: source.passed.eased,
        })?;
    }
    Ok(looks)
}

fn dest_looks<A, O: Outlet, D: Disk>(
    alloc: Global,
    sources: &[Worker<A, D>],
    dests: &[Worker<DestActor<O>, D>],
) -> Result<Vec<DestLook>, AllocError>
    ensures { IfOk result (λ looks. looks.items ≡ looks_of_dests sources.now 0 dests.now) }
{
    let mut looks = Vec::with_capacity(alloc, dests.len())?;
    for d in 0..dests.len() {
        let dest = &dests[d];
        looks.push(DestLook {
            offered: offered_to(sources, d),
            taken: dest.passed.taken,
            oldest: dest.passed.oldest,
        })?;
    }
    Ok(looks)
}

// Lets the watch take note of which outlets fail.
fn note_all<O: Outlet, D: Disk, W: Machine, V: Watch<W>>(
    dests: &[Worker<DestActor<O>, D>],
    watch: &mut V,
    world: &W,
) {
    for d in 0..dests.len() {
        watch.note(world, d, dests[d].actor.fails());
    }
}

// Lets the watch look at these, where there is memory for it.
fn look_at<R: Router + Drop, I: Inlet, O: Outlet, D: Disk, W: Machine, V: Watch<W>>(
    alloc: Global,
    sources: &[Worker<SourceActor<R, I>, D>],
    dests: &[Worker<DestActor<O>, D>],
    watch: &mut V,
    world: &mut W,
    last: bool,
)
    ensures { W.state world.new ≡ W.state world.old }
{
    let (Ok(read), Ok(sent)) = (
        source_looks(alloc, sources),
        dest_looks(alloc, sources, dests),
    ) else {
        return;
    };
    watch.look(world, &read, &sent, last);
}

/// Lets the watch take note of which outlets fail, and look where it is due.
pub(crate) fn look_if_due<R: Router + Drop, I: Inlet, O: Outlet, D: Disk, W: Machine, V: Watch<W>>(
    alloc: Global,
    sources: &[Worker<SourceActor<R, I>, D>],
    dests: &[Worker<DestActor<O>, D>],
    watch: &mut V,
    world: &mut W,
)
    ensures { W.state world.new ≡ W.state world.old }
{
    note_all(dests, watch, world);
    if watch.is_due(world) {
        look_at(alloc, sources, dests, watch, world, false);
    }
}

/// The same behind the last phase, where it looks in any case.
pub(crate) fn look_last<R: Router + Drop, I: Inlet, O: Outlet, D: Disk, W: Machine, V: Watch<W>>(
    alloc: Global,
    sources: &[Worker<SourceActor<R, I>, D>],
    dests: &[Worker<DestActor<O>, D>],
    watch: &mut V,
    world: &mut W,
)
    ensures { W.state world.new ≡ W.state world.old }
{
    note_all(dests, watch, world);
    look_at(alloc, sources, dests, watch, world, true);
}
