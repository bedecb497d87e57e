// What may be entries behind a store's damage, told so that they can be salvaged.
ghost use Rattle.std.specs.Prelude.{◌≡◌, ◌≤◌};

use crate::Unlisted;
use crate::about::append_message;
use crate::payload::{SpooledPayload, read_payload};
use sg_device::{Disk, NoMemory};
use sg_msg::Message;
use sg_world::World;
use std::alloc::Global;

/// Where the entries of a store begin.
const FIRST: u64 = 64;
/// So many bytes are looked through at once.
const PIECE: usize = 65_536;
/// A gate, a length, and the format and flow-control with which an entry begins.
const HEADER: usize = 7;
/// The bytes of the longest entry that is looked for.
const LONGEST: u64 = 4_194_304;
/// How often the store is read at most.
const READINGS: u64 = 50_000;

// Some bytes from this place on, none where they can't be read.
fn piece_at<D: Disk>(alloc: Global, disk: &mut D, at: u64, size: usize) -> Option<Vec<u8>>
    ensures told { (D.state disk.new).told ≡ (D.state disk.old).told }
    ensures later { (D.state disk.old).faults ≤ (D.state disk.new).faults }
{
    let mut bytes = Vec::new(alloc);
    if bytes.resize(size, 0).is_err() {
        return None;
    }
    match disk.read_at(at, &mut bytes) {
        Ok(count) => {
            bytes.truncate(count);
            Some(bytes)
        }
        Err(_) => None,
    }
}

fn number_of(a: u8, b: u8, c: u8, d: u8) -> u64 {
    let high = u64::from(a) * 256 + u64::from(b);
    let low = u64::from(c) * 256 + u64::from(d);
    high * 65_536 + low
}

// The length of the entry whose gate stands first, if one may.
fn length_of(bytes: &[u8]) -> Option<u64> {
    let [1, a, b, c, d, format, flow, ..] = bytes else {
        return None;
    };
    let length = number_of(*a, *b, *c, *d);
    if length > LONGEST || *format == 0 || *format > 2 || *flow > 1 {
        return None;
    }
    Some(length)
}

// The first place at which an entry may stand, and its length.
fn candidate(bytes: &[u8]) -> Option<(usize, u64)> {
    for at in 0..bytes.len() {
        if let Some(length) = length_of(behind(bytes, at)) {
            return Some((at, length));
        }
    }
    None
}

fn behind(bytes: &[u8], at: usize) -> &[u8] {
    match bytes.get(at..) {
        Some(rest) => rest,
        None => b"",
    }
}

fn line_of(alloc: Global, gate: u64, message: &Message) -> Result<Vec<u8>, NoMemory> {
    let mut line = Vec::new(alloc);
    let place = format!(in alloc; "# found at {gate} ")?;
    line.extend_from_slice(place.as_bytes())?;
    append_message(alloc, message, &mut line)?;
    Ok(line)
}

// Tells what is told of the entry that this payload is, if it is one.
fn tell_payload<W: World>(alloc: Global, gate: u64, payload: &[u8], world: &mut W) -> bool
    ensures { W.state world.new ≡ W.state world.old }
{
    let Ok(SpooledPayload::Entry(kept)) = read_payload(alloc, payload) else {
        return false;
    };
    if let Ok(line) = line_of(alloc, gate, &kept.message) {
        world.tell(&line);
    }
    true
}

// Tells of the entry at this gate, if one of that length is there, and answers where to go on.
fn try_entry<D: Disk, W: World>(
    alloc: Global,
    disk: &mut D,
    gate: u64,
    length: u64,
    world: &mut W,
) -> u64
    ensures told { (D.state disk.new).told ≡ (D.state disk.old).told }
    ensures later { (D.state disk.old).faults ≤ (D.state disk.new).faults }
    ensures world { W.state world.new ≡ W.state world.old }
{
    let first = gate.saturating_add(5);
    let Some(payload) = piece_at(alloc, disk, first, length as usize) else {
        return gate.saturating_add(1);
    };
    if tell_payload(alloc, gate, &payload, world) {
        first.saturating_add(length)
    } else {
        gate.saturating_add(1)
    }
}

// Tells of the first entry from this place on, and answers where to go on; none at the end.
fn try_piece<D: Disk, W: World>(alloc: Global, disk: &mut D, at: u64, world: &mut W) -> Option<u64>
    ensures told { (D.state disk.new).told ≡ (D.state disk.old).told }
    ensures later { (D.state disk.old).faults ≤ (D.state disk.new).faults }
    ensures world { W.state world.new ≡ W.state world.old }
{
    let Some(piece) = piece_at(alloc, disk, at, PIECE) else {
        return None;
    };
    match candidate(&piece) {
        Some((place, length)) => {
            let gate = at.saturating_add(place as u64);
            Some(try_entry(alloc, disk, gate, length, world))
        }
        None => if piece.len() < PIECE {
            None
        } else {
            Some(at.saturating_add((PIECE - HEADER) as u64))
        },
    }
}

// Tells of the entries from this place on.
fn try_all<D: Disk, W: World>(alloc: Global, disk: &mut D, from: u64, world: &mut W)
    ensures told { (D.state disk.new).told ≡ (D.state disk.old).told }
    ensures later { (D.state disk.old).faults ≤ (D.state disk.new).faults }
    ensures world { W.state world.new ≡ W.state world.old }
{
    let mut at = from;
    for _reading in 0..READINGS {
        match try_piece(alloc, disk, at, world) {
            Some(next) => at = next,
            None => return,
        }
    }
}

/// Tells of what may be entries behind the damage with which a listing ended, if it did: behind the gate at which it stands, or in
/// the whole of a store that couldn't be opened. What was delivered before may be among them.
pub(crate) fn salvage<D: Disk, W: World>(
    alloc: Global,
    disk: &mut D,
    ended: &Result<(), Unlisted>,
    opened: bool,
    world: &mut W,
)
    ensures told { (D.state disk.new).told ≡ (D.state disk.old).told }
    ensures later { (D.state disk.old).faults ≤ (D.state disk.new).faults }
    ensures world { W.state world.new ≡ W.state world.old }
{
    if let Err(Unlisted::Damage(at)) = ended {
        let from = if opened { at.saturating_add(1) } else { FIRST };
        try_all(alloc, disk, from, world);
    }
}
