// Spelling the entries anew.
ghost use Rattle.std.specs.Prelude.{◌≡◌, ◌≤◌, ◌<◌, ◌+◌, ◌-◌, ◌^◌, List, ℕ, length, map, OnOk, IfOk, IfErr, None, false};
ghost use Rattle.sg_device.specs.Disk.{content, IsImage, Within, EachNow, Changes, Elapses, HasCause};
ghost use Rattle.sg_stable.specs.Cell.{HasCell};
ghost use Rattle.sg_spool.specs.Answers.{HasRefusalCause, WhereNoMemory};
ghost use Rattle.sg_spool.specs.Copying.{Beyond};
ghost use Rattle.sg_spool.specs.Lists.{Perhaps, Recodes};
ghost use Rattle.sg_spool.specs.Places.{IsOrdered, gate_past};
ghost use Rattle.sg_spool.specs.Ring.{Entries, IsPayload};
ghost use Rattle.sg_spool.specs.Rewriting.{AddsSpelled, SpellsRing, KeepsRing, past, written_of};
ghost use Rattle.sg_spool.specs.Steps.{Stems, After};
ghost use Rattle.sg_spool.specs.View.{IsRing};

use crate::read::read_entry;
use crate::{Block, Places, RewriteRefusal};
use sg_device::{Disk, DiskFault, NoMemory};
use sg_stable::Pair;
use std::alloc::Global;

/// A new spelling of payloads.
pub trait Recode {
    /// The new payload of an old one.
    ghost meaning: { Self → List ℕ → List ℕ };

    /// Spells a payload anew. It is asked of any bytes, since a disk may give any.
    fn recode(&mut self, alloc: Global, payload: &[u8]) -> Result<Vec<u8>, NoMemory>
        ensures payload { IfOk result (λ spelled. spelled.items ≡ meaning self.old payload.now) }
        ensures stays { (bytes : List ℕ) → meaning self.new bytes ≡ meaning self.old bytes };

    /// A payload of 1 to 2^30 + 64 bytes has a new one of as many.
    ghost fits: { (recode : Self) (payload : List ℕ) → IsPayload payload
        → IsPayload (meaning recode payload) };
}

// Spells the entries anew behind all that the list uses, makes them stable, and then puts the cell.
pub(crate) fn rewrite_list<D: Disk, M: Recode>(
    alloc: Global,
    disk: &mut D,
    cell: &mut Pair,
    recode: &mut M,
    places: Places,
    count: u64,
) -> Result<Places, RewriteRefusal>
    requires ordered { IsOrdered places }
    requires some { 1 ≤ count }
    requires cell_open { cell.old.closed ≡ false }
    requires has_cell { EachNow (D.state disk.old) (HasCell cell.old.selector cell.old.value) }

    ensures within { (es : Entries) → EachNow (D.state disk.old) (λ bytes. count ≡ length es)
        → EachNow (D.state disk.old) (IsRing cell.old places es)
        → Within (D.state disk.old) (D.state disk.new)
        (Stems (IsImage (D.state disk.old)) (After (Perhaps (Recodes (M.meaning recode.old))) es)) }

    ensures ring { IfOk result (λ next. (es : Entries)
        → EachNow (D.state disk.old) (λ bytes. count ≡ length es)
        → EachNow (D.state disk.old) (IsRing cell.old places es)
        → EachNow (D.state disk.new) (Stems (IsImage (D.state disk.old))
        (IsRing cell.new next (map (M.meaning recode.old) es)))) }

    // Without memory the ring is as before.
    ensures no_memory { IfErr result (WhereNoMemory
        (KeepsRing (D.state disk.old) (D.state disk.new) cell.old cell.new places)) }

    ensures ordered { IfOk result (λ next. IsOrdered next) }
    ensures cell_open { OnOk result (cell.new.closed ≡ false) }
    ensures cause { HasRefusalCause (D.state disk.old).faults (D.state disk.new).faults result }
{
    let head = past(places);
    let end = write_anew(alloc, disk, recode, places, count)?;
    disk.sync()?;
    cell.put(disk, head - 64)?;
    Ok(Places {
        jump: None,
        head,
        end,
    })
}

// The place behind all that the list uses.
fn past(places: Places) -> u64
    requires { IsOrdered places }
    ensures past { result ≡ past places }
    ensures small { result ≤ 2 ^ 63 }
    ensures high { 64 < result }
{
    match places.jump {
        None => places.end + 1,
        Some(jump) => jump + 5,
    }
}

// Writes the new spellings of the entries behind all that the list uses: each in a write of its own
// with an open gate, and the last with a closed gate behind it. Answers the place of that gate.
fn write_anew<D: Disk, M: Recode>(
    alloc: Global,
    disk: &mut D,
    recode: &mut M,
    places: Places,
    count: u64,
) -> Result<u64, RewriteRefusal>
    requires ordered { IsOrdered places }
    requires some { 1 ≤ count }

    ensures spelled { IfOk result (λ end.
        Changes (SpellsRing (M.meaning recode.old) places count end)
        (content (D.state disk.old)) (content (D.state disk.new))) }
    ensures images { Elapses (Beyond (past places)) (D.state disk.old) (D.state disk.new) }
    ensures after { IfOk result (λ end. past places ≤ end) }
    ensures inside { IfOk result (λ end. end < 2 ^ 63) }
    ensures cause { HasRefusalCause (D.state disk.old).faults (D.state disk.new).faults result }
{
    let mut gate = places.gate_past(places.head);
    let mut at = past(places);
    let mut left = count;
    while left > 0 {
        let payload = read_entry(alloc, disk, gate)?;
        at = write_one(alloc, disk, recode, at, &payload, left == 1)?;
        gate = places.gate_past(behind(gate, &payload));
        left -= 1;
    }
    Ok(at)
}

// The gate behind an entry with this payload.
pub(crate) fn behind(gate: u64, payload: &[u8]) -> u64
    ensures { gate + 5 + length payload.now < 2 ^ 64 → result ≡ gate + 5 + length payload.now }
{
    gate.saturating_add(5).saturating_add(payload.len() as u64)
}

// Writes the new spelling of a payload with an open gate, and behind the last one a closed gate.
// Answers the place of the next gate.
fn write_one<D: Disk, M: Recode>(
    alloc: Global,
    disk: &mut D,
    recode: &mut M,
    at: u64,
    payload: &[u8],
    last: bool,
) -> Result<u64, RewriteRefusal>
    requires fits { IsPayload payload.now }
    requires small { at ≤ 2 ^ 63 }
    ensures added { IfOk result (λ next.
        Changes (AddsSpelled at (M.meaning recode.old payload.now) last)
        (content (D.state disk.old)) (content (D.state disk.new))) }
    ensures images { Elapses (Beyond at) (D.state disk.old) (D.state disk.new) }
    ensures next { IfOk result (λ next. next ≡ at + 5 + length (M.meaning recode.old payload.now)) }
    ensures inside { IfOk result (λ next. next < 2 ^ 63) }
    ensures stays { (bytes : List ℕ) → M.meaning recode.new bytes ≡ M.meaning recode.old bytes }
    ensures cause { HasRefusalCause (D.state disk.old).faults (D.state disk.new).faults result }
{
    let spelled = recode.recode(alloc, payload)?;
    let block = Block::new(alloc, spelled)?;
    write_block(disk, at, &block, last)?;
    Ok(at + 5 + block.size())
}

// Writes a block with its gate open, and behind the last one a closed gate.
fn write_block<D: Disk>(disk: &mut D, at: u64, block: &Block, last: bool) -> Result<(), DiskFault>
    requires { at ≤ 2 ^ 63 }
    ensures added { OnOk result (Changes (AddsSpelled at block.now last)
        (content (D.state disk.old))
        (content (D.state disk.new))) }
    ensures images { Elapses (Beyond at) (D.state disk.old) (D.state disk.new) }
    ensures inside { OnOk result (at + 5 + length block.now < 2 ^ 63) }
    ensures cause { HasCause (D.state disk.old).faults (D.state disk.new).faults result }
{
    disk.write_at(at, written(block, last))?;
    Ok(())
}

// The bytes of a block, without the last closed gate unless it is the last.
fn written(block: &Block, last: bool) -> &[u8]
    ensures bytes { result.now ≡ written_of last block.now }
    ensures payload { IsPayload block.now }
{
    let bytes = block.bytes();
    if last {
        return bytes;
    }
    &bytes[..bytes.len() - 1]
}
