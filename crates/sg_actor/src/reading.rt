// What a source's turn does with its inlet.
ghost use Rattle.std.specs.Prelude.{◌≡◌, ◌≤◌, ◌<◌, ◌+◌, length, max, true};
ghost use Rattle.sg_route.specs.Offers.{SameRouter};
ghost use Rattle.sg_actor.specs.Sources.{source, IsReady};
ghost use Rattle.sg_actor.specs.Bringing.{ReadsOnTurn};
ghost use Rattle.sg_actor.specs.Steps.{is_spent, is_over, KeepsRecords, FindsWork, PullsAtMost, ReadsAll, IsAsBefore, PullFails};

use crate::SourceSpec;
use crate::admitting::hand_in;
use crate::pulling::{is_bad, pull_once};
use crate::reader::{Reader, feed_pulled};
use crate::taking::take_items;
use sg_counter::Counter;
use sg_device::{Inlet, NoMemory};
use sg_route::Router;
use std::alloc::Global;
use std::sync::Wait;

/// What there is for the core.
#[derive(Clone, Copy, PartialEq, Eq, Drop)]
pub(crate) enum SourceWork {
    /// Records that are held, or a bad count; or the inlet was pulled.
    Work { pulled: bool },
    /// The inlet has nothing at present.
    Idle,
    /// The inlet has ended or failed, and all that it gave is dealt with.
    Over,
}

/// What a source's turn did with its inlet.
#[derive(Clone, Copy, PartialEq, Eq, Drop)]
pub(crate) struct Doings {
    /// A pull brought bytes, a part or the end, or failed.
    pub(crate) pulled: bool,
    pub(crate) admitted: bool,
    /// A part was given up.
    pub(crate) gave_up: bool,
    /// A pull brought nothing at present.
    pub(crate) idle: bool,
}

fn is_spent(reader: &Reader) -> bool
    ensures { result ≡ is_spent reader.now }
{
    reader.held.is_empty() && !is_bad(reader)
}

fn is_over(reader: &Reader) -> bool
    ensures { result ≡ is_over reader.now }
{
    reader.ended || reader.failed
}

/// Holds the records of whole items until so many are held, also of what was pulled last.
fn read_whole<R: Router, I: Inlet>(
    alloc: Global,
    spec: &SourceSpec,
    router: &mut R,
    inlet: &I,
    reader: &mut Reader,
    buffer: &[u8],
    most: usize,
) -> Result<(), NoMemory>
    requires ready { IsReady (R.dests router.old) spec.now
        (source (I.state inlet.now) reader.old buffer.now) }
    requires inlet { spec.now.inlet < R.inlets router.old }
    requires most { most ≤ spec.now.fetch }
    ensures keeps { KeepsRecords (R.offers router.old) (R.dests router.old) spec.now
        (source (I.state inlet.now) reader.old buffer.now)
        (source (I.state inlet.now) reader.new buffer.now) }
    ensures reads { ReadsAll most reader.new result }
    ensures before { IsAsBefore reader.old reader.new }
    ensures few { length reader.new.held ≤ max (length reader.old.held) most }
    ensures router { SameRouter (R.offers router.old) (R.offers router.new) (R.inlets router.old)
        (R.inlets router.new) (R.dests router.old) (R.dests router.new) }
{
    feed_pulled(reader, buffer)?;
    take_items(alloc, spec, router, inlet, reader, most)?;
    Ok(())
}

/// Holds the records of whole items until so many are held; where there is neither one nor a bad
/// count, pulls once.
fn find_work<R: Router, I: Inlet>(
    alloc: Global,
    spec: &SourceSpec,
    router: &mut R,
    inlet: &mut I,
    reader: &mut Reader,
    buffer: &mut [u8],
    most: usize,
) -> Result<SourceWork, NoMemory>
    requires ready { IsReady (R.dests router.old) spec.now
        (source (I.state inlet.old) reader.old buffer.old) }
    requires inlet { spec.now.inlet < R.inlets router.old }
    requires some { 0 < most }
    requires most { most ≤ spec.now.fetch }
    ensures keeps { KeepsRecords (R.offers router.old) (R.dests router.old) spec.now
        (source (I.state inlet.old) reader.old buffer.old)
        (source (I.state inlet.new) reader.new buffer.new) }
    ensures finds { FindsWork (source (I.state inlet.old) reader.old buffer.old)
        (source (I.state inlet.new) reader.new buffer.new) result }
    ensures few { length reader.new.held ≤ max (length reader.old.held) most }
    ensures pulled { PullsAtMost (source (I.state inlet.old) reader.old buffer.old)
        (source (I.state inlet.new) reader.new buffer.new) }
    ensures router { SameRouter (R.offers router.old) (R.offers router.new) (R.inlets router.old)
        (R.inlets router.new) (R.dests router.old) (R.dests router.new) }
{
    read_whole(alloc, spec, router, inlet, reader, buffer, most)?;
    if !is_spent(reader) {
        return Ok(SourceWork::Work { pulled: false });
    }
    if is_over(reader) {
        return Ok(SourceWork::Over);
    }
    if pull_once(reader, buffer, inlet) {
        return Ok(SourceWork::Idle);
    }
    read_whole(alloc, spec, router, inlet, reader, buffer, most)?;
    Ok(SourceWork::Work { pulled: true })
}

/// How many records a turn takes at most.
fn least(fetch: u32, credit: u64) -> usize
    requires fetch { 0 < fetch }
    requires credit { 0 < credit }
    ensures some { 0 < result }
    ensures fetch { result ≤ fetch }
    ensures credit { result ≤ credit }
{
    if credit < u64::from(fetch) {
        credit as usize
    } else {
        fetch as usize
    }
}

/// Takes records of the inlet into the core, as many as the credit and a turn's bound allow.
pub(crate) fn read_on<T: Wait, C: Counter, R: Router, I: Inlet>(
    rt: &T,
    alloc: Global,
    counter: &mut C,
    spec: &SourceSpec,
    router: &mut R,
    inlet: &mut I,
    reader: &mut Reader,
    buffer: &mut [u8],
    credit: u64,
) -> Result<Doings, NoMemory>
    requires left { 0 < C.left counter.old }
    requires source { spec.now.inlet < length (C.setup counter.old).sources }
    requires inlet { spec.now.inlet < R.inlets router.old }
    requires dests { R.dests router.old ≡ length (C.setup counter.old).dests }
    requires fetch { (0 < spec.now.fetch) × (spec.now.fetch ≤ 1000) }
    requires ready { IsReady (R.dests router.old) spec.now
        (source (I.state inlet.old) reader.old buffer.old) }
    ensures reads { ReadsOnTurn (R.offers router.old) (R.dests router.old) spec.now C.step
        counter.old
        counter.new credit (source (I.state inlet.old) reader.old buffer.old)
        (source (I.state inlet.new) reader.new buffer.new) result }
    ensures ended { reader.old.ended ≡ true → reader.new.ended ≡ true }
    ensures failing { PullFails reader.old.failed reader.new.failed
        (I.state inlet.old).faults (I.state inlet.new).faults }
    ensures router { SameRouter (R.offers router.old) (R.offers router.new) (R.inlets router.old)
        (R.inlets router.new) (R.dests router.old) (R.dests router.new) }
    ensures setup { C.setup counter.new ≡ C.setup counter.old }
    ensures left { C.left counter.old ≤ C.left counter.new + 1 }
{
    let nothing = Doings {
        pulled: false,
        admitted: false,
        gave_up: false,
        idle: false,
    };
    if credit == 0 {
        return Ok(nothing);
    }
    let most = least(spec.fetch, credit);
    match find_work(alloc, spec, router, inlet, reader, buffer, most)? {
        SourceWork::Over => Ok(nothing),
        SourceWork::Idle => Ok(Doings {
            idle: true,
            ..nothing
        }),
        SourceWork::Work { pulled } => {
            let handed = hand_in(rt, alloc, counter, spec, inlet, reader)?;
            Ok(Doings {
                pulled,
                admitted: handed.admitted,
                gave_up: handed.gave_up,
                idle: false,
            })
        }
    }
}
