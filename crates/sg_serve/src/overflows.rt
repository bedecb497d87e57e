// What the disk-buffers that aren't reliable come to.
ghost use Rattle.std.specs.Prelude.{◌≡◌, ◌+◌, ◌<◌, ◌^◌, length, map, is_some, true, IfOk};
ghost use Rattle.sg_overflow.specs.Buffered.{buffered_of, held_state, IsToldBy};
ghost use Rattle.sg_serve.specs.Overflows.{is_among, is_sink, is_refused, RestsBegin, NotesHeld, IsFinished, AreFinished};

use crate::counts::note;
use sg_device::{Disk, NoMemory, Outlet};
use sg_list::Seq;
use sg_overflow::{Buffered, Finished};
use std::alloc::{AllocError, Global};

/// What is left at the end of a run.
#[derive(Drop)]
pub struct OutletRests {
    /// For each destination whose disk-buffer isn't reliable its number, and how many frames are held
    /// there.
    pub held: Seq<(u32, u64)>,
    /// The destinations that were given up as their outlets failed, and those whose outlets didn't take
    /// what was held, where the run has an end (`--once`); in ascending order.
    pub sinks: Seq<u32>,
    /// The stores that have failed, those of the disk-buffers that aren't reliable behind the others, in
    /// ascending order.
    pub stores: Seq<u32>,
}

// Whether frames are held back on an outlet.
fn is_held<O: Outlet, D: Disk>(outlet: &Buffered<O, D>) -> bool
    ensures { result ≡ is_some (held_state D.state outlet.now) }
{
    match outlet {
        Buffered::Direct(_) => false,
        Buffered::Overflow(_) => true,
    }
}

// Whether frames are held back on these outlets where that was asked for, and on no others.
fn are_asked<O: Outlet, D: Disk>(asked: &Seq<bool>, outlets: &[Buffered<O, D>]) -> bool
    ensures { result ≡ true
        → asked.now ≡ map (λ way. is_some (held_state D.state way)) outlets.now }
{
    if asked.len() != outlets.len() {
        return false;
    }
    for d in 0..outlets.len() {
        if *asked.at(d) != is_held(&outlets[d]) {
            return false;
        }
    }
    true
}

// Whether the number is one of these.
fn is_among(number: u32, numbers: &[u32]) -> bool
    ensures { result ≡ is_among number numbers.now }
{
    for other in numbers {
        if number == *other {
            return true;
        }
    }
    false
}

// What is left, before the first outlet is finished: these stores have failed.
fn begin(alloc: Global, stores: &Seq<u32>) -> Result<OutletRests, NoMemory>
    ensures { IfOk result (RestsBegin stores.now) }
{
    Ok(OutletRests {
        held: Seq::empty(alloc),
        sinks: Seq::empty(alloc),
        stores: stores.copy()?,
    })
}

// Notes the number of a destination and how many frames are held there, and the number of their store
// where that failed. How many stores more there are.
fn note_held<O: Outlet, D: Disk>(
    outlet: &Buffered<O, D>,
    dest: u32,
    store: u32,
    rests: &mut OutletRests,
) -> Result<u32, NoMemory>
    ensures held { IfOk result
        (λ more. NotesHeld (held_state D.state outlet.now) dest store rests.old rests.new more) }
    ensures told { IsToldBy D.state outlet.now }
{
    let failed = outlet.failed();
    match outlet.held() {
        Some(held) => {
            rests.held.push((dest, held))?;
            note(&mut rests.stores, store, failed)?;
            Ok(1)
        }
        None => Ok(0),
    }
}

// Whether a destination failed: it was given up, or with an end of the run its outlet didn't take what
// was held.
fn is_sink(dest: u32, gone: &[u32], once: bool, finished: Finished) -> bool
    ensures { result ≡ is_sink dest gone.now once (is_refused finished) }
{
    is_among(dest, gone) || (once && finished == Finished::Outlet)
}

// Finishes the outlet of the destination of this number, whose store has that one. How many stores more
// there are.
fn finish_one<O: Outlet, D: Disk>(
    outlet: &mut Buffered<O, D>,
    dest: u32,
    store: u32,
    gone: &[u32],
    once: bool,
    rests: &mut OutletRests,
) -> Result<u32, NoMemory>
    ensures finished { IfOk result (λ more. IsFinished O.state D.state outlet.old outlet.new dest
        store gone.now once rests.old rests.new more) }
    ensures stays { buffered_of O.state D.state outlet.new
        ≡ buffered_of O.state D.state outlet.old }
{
    let finished = outlet.finish()?;
    let more = note_held(outlet, dest, store, rests)?;
    note(&mut rests.sinks, dest, is_sink(dest, gone, once, finished))?;
    Ok(more)
}

/// Finishes outlets from one on, of which nothing is noted, as memory ran out.
pub(crate) fn finish_from<O: Outlet, D: Disk>(outlets: &mut Vec<Buffered<O, D>>, first: usize)
    ensures { map (buffered_of O.state D.state) outlets.new.items
        ≡ map (buffered_of O.state D.state) outlets.old.items }
{
    for d in first..outlets.len() {
        let _finished = outlets[d].finish();
    }
}

/// Finishes the outlets of destinations, of which these are gone, as they were given up, and whose stores are numbered from
/// `first` on; these stores have failed already. Where memory runs out each has done what it could. That frames are held back
/// where they were at the opening, and nowhere else, is looked at here, since no call of an outlet tells it.
pub(crate) fn finish_all<O: Outlet, D: Disk>(
    alloc: Global,
    outlets: &mut Vec<Buffered<O, D>>,
    asked: &Seq<bool>,
    gone: &Seq<u32>,
    stores: &Seq<u32>,
    first: u32,
    once: bool,
) -> Result<OutletRests, NoMemory>
    requires few { length outlets.old.items + first < 2 ^ 32 }
    ensures finished { IfOk result (AreFinished O.state D.state outlets.old.items outlets.new.items
        asked.now gone.now stores.now first once) }
    ensures stay { map (buffered_of O.state D.state) outlets.new.items
        ≡ map (buffered_of O.state D.state) outlets.old.items }
{
    let Ok(mut rests) = begin(alloc, stores) else {
        finish_from(outlets, 0);
        return Err(AllocError);
    };
    let mut store = first;
    for d in 0..outlets.len() {
        let dest = d as u32;
        let finished = finish_one(
            &mut outlets[d],
            dest,
            store,
            gone.as_slice(),
            once,
            &mut rests,
        );
        let Ok(more) = finished else {
            finish_from(outlets, d + 1);
            return Err(AllocError);
        };
        store += more;
    }
    if are_asked(asked, outlets) {
        Ok(rests)
    } else {
        Err(AllocError)
    }
}
