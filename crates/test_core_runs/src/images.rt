// What a crash leaves of the stores of a core, and what a core finds there.
ghost use Rattle.std.specs.Prelude.{◌≡◌, ◌≤◌, ◌<◌, ◌+◌, ◌^◌, IfOk, IfSome, length};
ghost use Rattle.test_core_runs.specs.Cores.{IsTried};

use crate::cores::{FIFO, FIRST, SECOND, WINDOW, open};
use crate::entries::{MadeOffer, numbers_of, short};
use crate::lines::DestLine;
use crate::openings::OpenedCore;
use crate::runs::{EndedRun, Positions};
use sg_core::{Core, CoreRefusal};
use sg_counter::CoreFront;
use sg_memory_disk::{MemoryDisk, Pick};
use std::alloc::{AllocError, Global};

/// What stands where the writes since the last sync went, one letter a write and the last for those behind it: `o`
/// what was there before, `n` what was written, `1` bytes FF, `0` bytes 0.
pub(crate) const PICKS: [&str; 10] = ["o", "n", "1", "0", "on", "no", "1o", "0n", "n0", "o1n"];

/// What images told.
#[derive(Clone, Copy, Drop)]
pub(crate) struct Told {
    pub(crate) openings: u64,
    pub(crate) entries: u64,
    pub(crate) right: bool,
}

/// Whether these are letters for picks, or a `-` for none.
pub(crate) fn are_picks(letters: &str) -> bool {
    for letter in letters.as_bytes() {
        if !matches!(*letter, b'o' | b'n' | b'1' | b'0') {
            return letters == "-";
        }
    }
    !letters.is_empty()
}

fn pick_of(letter: u8) -> Option<Pick> {
    match letter {
        b'o' => Some(Pick::Old),
        b'n' => Some(Pick::New),
        b'1' => Some(Pick::Ones),
        b'0' => Some(Pick::Zeros),
        _ => None,
    }
}

/// The picks of these letters; none for any other.
pub(crate) fn picks(alloc: Global, letters: &str) -> Result<Vec<Pick>, AllocError> {
    let mut picks = Vec::new(alloc);
    for letter in letters.as_bytes() {
        if let Some(pick) = pick_of(*letter) {
            picks.push(pick)?;
        }
    }
    Ok(picks)
}

/// What a crash leaves of these disks, by these picks for the writes of each.
pub(crate) fn images(
    alloc: Global,
    disks: &[MemoryDisk],
    picks: &[Pick],
) -> Result<Vec<MemoryDisk>, AllocError>
    ensures { IfOk result (λ images. length images.items ≡ length disks.now) }
{
    let mut images = Vec::new(alloc);
    for disk in disks {
        let bytes = disk.image(picks)?;
        images.push(MemoryDisk::new(alloc, bytes)?)?;
    }
    Ok(images)
}

// The numbers of the entries that a destination is left with, from its first one on.
fn found(
    alloc: Global,
    core: &mut Core<MemoryDisk>,
    d: u32,
    made: &[MadeOffer],
) -> Result<Option<Vec<u32>>, AllocError>
    requires tried { IsTried core.old }
    requires dest { d < 3 }
    requires calls { core.old.calls + 1 < 2 ^ 54 }
    ensures tried { IsTried core.new }
    ensures calls { core.new.calls ≤ core.old.calls + 1 }
{
    match core.front(alloc, d, 1000)? {
        CoreFront::Entries { place, messages } => {
            if place != 0 {
                return Ok(None);
            }
            Ok(Some(numbers_of(alloc, made, messages.as_slice())?))
        }
        CoreFront::Empty => Ok(Some(Vec::new(alloc))),
        CoreFront::Broken => Ok(None),
    }
}

// Whether each offer with flow-control to this destination of a record at or below its source's position is
// settled, or in the list.
fn covers(made: &[MadeOffer], d: u32, list: &[u32], positions: &[u64; 3]) -> bool {
    for number in 0..made.len() {
        let offer = made[number];
        if offer.dest == d && offer.flow && !offer.settled && offer.source < 3 {
            let below = offer.end <= positions[offer.source as usize];
            if below && !list.contains(&short(number)) {
                return false;
            }
        }
    }
    true
}

fn may_be(positions: Positions, found: u64) -> bool {
    found == positions.stored || Some(found) == positions.tried
}

// What a core finds in its stores; none where one of them fails.
fn find(
    alloc: Global,
    core: &mut Core<MemoryDisk>,
    made: &[MadeOffer],
) -> Result<Option<OpenedCore>, AllocError>
    requires tried { IsTried core.old }
    requires calls { core.old.calls ≡ 0 }
{
    let mut whole = true;
    let mut positions = [0u64; 3];
    let mut lines = [
        DestLine::new(alloc),
        DestLine::new(alloc),
        DestLine::new(alloc),
    ];
    for i in 0..3u32 {
        positions[i as usize] = core.position(i);
    }
    for d in 0..3u32 {
        match found(alloc, core, d, made)? {
            Some(list) => lines[d as usize] = DestLine::over(alloc, list),
            None => whole = false,
        }
    }
    if !whole {
        return Ok(None);
    }
    Ok(Some(OpenedCore { positions, lines }))
}

fn is_line(found: &OpenedCore, ended: &EndedRun, d: u32) -> bool
    requires { d < 3 }
{
    let list = found.lines[d as usize].on_disk();
    ended.run.lines[d as usize].may_find(list) & covers(&ended.run.made, d, list, &found.positions)
}

// Whether this is what a core may find behind the end of that run.
fn is_found(found: &OpenedCore, ended: &EndedRun, told: &mut Told) -> bool {
    let mut right = true;
    for i in 0..3usize {
        right = right & may_be(ended.positions[i], found.positions[i]);
    }
    for d in 0..3u32 {
        let count = found.lines[d as usize].on_disk().len();
        told.entries = told.entries.saturating_add(count as u64);
        right = right & is_line(found, ended, d);
    }
    right
}

// A core isn't opened over these disks: they fail for lack of memory alone.
fn not_opened(disks: &[MemoryDisk], told: &mut Told) -> Result<(), AllocError> {
    if disks.iter().any(|disk| disk.starved()) {
        return Err(AllocError);
    }
    told.right = false;
    Ok(())
}

// A core over what a crash leaves by these picks.
fn opened(
    alloc: Global,
    disks: &[MemoryDisk],
    letters: &str,
    told: &mut Told,
) -> Result<Option<Core<MemoryDisk>>, AllocError>
    requires { length disks.now ≡ 5 }
    ensures tried { IfOk result (λ made. IfSome made IsTried) }
    ensures calls { IfOk result (λ made. IfSome made (λ core. core.calls ≡ 0)) }
{
    let picks = picks(alloc, letters)?;
    let images = images(alloc, disks, &picks)?;
    match open(alloc, WINDOW, FIFO, FIRST, SECOND, images) {
        Ok(core) => Ok(Some(core)),
        Err((_, CoreRefusal::NoMemory)) => Err(AllocError),
        Err((disks, _)) => {
            not_opened(&disks, told)?;
            Ok(None)
        }
    }
}

/// Opens a core over what a crash leaves by these picks at the end of a run. What it finds, which must be what it may
/// find, and its disks then.
pub(crate) fn open_again(
    alloc: Global,
    disks: &[MemoryDisk],
    letters: &str,
    ended: &EndedRun,
    told: &mut Told,
) -> Result<Option<(OpenedCore, Vec<MemoryDisk>)>, AllocError>
    requires { length disks.now ≡ 5 }
{
    let Some(mut core) = opened(alloc, disks, letters, told)? else {
        return Ok(None);
    };
    told.openings = told.openings.saturating_add(1);
    let found = find(alloc, &mut core, &ended.run.made);
    let disks = core.into_stores();
    match found? {
        Some(found) => {
            told.right = is_found(&found, ended, told) & told.right;
            Ok(Some((found, disks)))
        }
        None => {
            told.right = false;
            Ok(None)
        }
    }
}

/// Opens over several images that a crash leaves of these disks at the end of a run.
pub(crate) fn look_into(
    alloc: Global,
    disks: &[MemoryDisk],
    ended: &EndedRun,
    told: &mut Told,
) -> Result<(), AllocError> {
    if disks.len() != 5 {
        told.right = false;
        return Ok(());
    }
    for letters in PICKS {
        let _again = open_again(alloc, disks, letters, ended, told)?;
    }
    Ok(())
}
