// The walk over a disk-buffer at its opening.
ghost use Rattle.std.specs.Prelude.{◌≡◌, ◌≤◌, ◌^◌, List, ℕ, IfOk, IfErr, OnOk, true, false};
ghost use Rattle.sg_codec.specs.declared.kept.Kept.{Kept as Entry};
ghost use Rattle.sg_spool.specs.Calls.{OnlyReadsSpool};
ghost use Rattle.sg_spool.specs.Ring.{IsPayload};
ghost use Rattle.sg_buffer.specs.Entries.{IsStoredAs};
ghost use Rattle.sg_buffer.specs.Found.{FindsEntries, AddsEntry, AddReason, LookReason};

use crate::upgrade::{LONGEST, is_format1};
use crate::{BufferEntries, EntryHead};
use sg_codec::{CodecRefusal, decode};
use sg_device::Disk;
use sg_spool::{Spool, Walked, bytes_have_one_meaning};
use sg_stable::StoreRefusal;
use std::alloc::Global;

/// What stands in a disk-buffer that was just opened: each of its payloads is read and decoded, once.
/// Damage comes at the gate of the first that is no entry, and in a store of format 1 with more than 2^30
/// bytes. Nothing on the disk changes.
pub fn look<D: Disk>(alloc: Global, spool: &mut Spool<D>) -> Result<BufferEntries, StoreRefusal>
    requires open { spool.old.closed ≡ false }
    requires unstaged { spool.old.rows.staged ≡ 0 }
    ensures reads { OnlyReadsSpool D.state spool.old spool.new }
    ensures found { IfOk result (λ found. (entries : List Entry)
        × FindsEntries (D.state spool.old.disk) spool.old.rows found entries) }
    ensures open { IfOk result (λ _. spool.new.closed ≡ false) }
    ensures reason { IfErr result
        (LookReason (D.state spool.old.disk) (D.state spool.new.disk) spool.old.rows.list) }
{
    bytes_have_one_meaning();
    let mut found = BufferEntries::none(alloc);
    let mut gate = spool.head();
    for _turn in 0..spool.count() {
        match spool.item(alloc, gate)? {
            Walked::Item { payload, next } => {
                if let Err(refusal) = add(alloc, &mut found, &payload, gate) {
                    return Err(refusal);
                }
                gate = next;
            }
            Walked::Empty => return Err(StoreRefusal::Damage(gate)),
            Walked::DiskFailed => return Err(StoreRefusal::DiskFault),
        }
    }
    if !found.older && spool.live() != found.size {
        return Err(StoreRefusal::Damage(gate));
    }
    Ok(found)
}

// Adds the entry that a payload spells, which stands at this gate.
fn add(
    alloc: Global,
    found: &mut BufferEntries,
    payload: &[u8],
    gate: u64,
) -> Result<(), StoreRefusal>
    requires { IsPayload payload.now }
    ensures added { OnOk result
        ((kept : Entry) × IsStoredAs kept payload.now
        × AddsEntry kept payload.now found.old found.new) }
    ensures reason { IfErr result (AddReason payload.now gate) }
{
    let older = is_format1(payload);
    if older && payload.len() > LONGEST {
        return Err(StoreRefusal::Damage(gate));
    }
    match decode(alloc, payload) {
        Ok(kept) => {
            let head = EntryHead::of(&kept);
            found.push(head)?;
            found.older = found.older | older;
            found.size = found.size.saturating_add(5).saturating_add(head.length);
            Ok(())
        }
        Err(CodecRefusal::Damage(_)) => Err(StoreRefusal::Damage(gate)),
        Err(CodecRefusal::NoMemory) => Err(StoreRefusal::NoMemory),
    }
}
