// One entry of a store.
ghost use Rattle.std.specs.Prelude.{◌≡◌, ℕ, false, List, IfOk};
ghost use Rattle.sg_device.specs.Disk.{content, WhereTold};
ghost use Rattle.sg_spool.specs.Calls.{OnlyReadsSpool};
ghost use Rattle.sg_spool.specs.Places.{Remains};
ghost use Rattle.sg_spool.specs.Ring.{Entries};
ghost use Rattle.sg_spooled.specs.Walking.{AppendsRow, ListsEntry};

use crate::Unlisted;
use crate::about::append_about;
use crate::payload::{SpooledPayload, read_payload};
use sg_device::{Disk, NoMemory};
use sg_report::{entry_text, frame_text};
use sg_spool::{Spool, Walked};
use std::alloc::Global;

// Appends the line of an entry of this number, where the payload is one, and what is told of it.
fn append_entry(
    alloc: Global,
    number: u64,
    payload: &[u8],
    text: &mut Vec<u8>,
    about: &mut Vec<u8>,
) -> Result<bool, NoMemory>
    ensures { IfOk result (AppendsRow number payload.now text.old.items text.new.items) }
{
    let length = payload.len() as u64;
    match read_payload(alloc, payload)? {
        SpooledPayload::Entry(kept) => {
            entry_text(
                alloc,
                number,
                kept.source,
                kept.end,
                kept.flow,
                length,
                text,
            )?;
            append_about(alloc, number, &kept.message, about)?;
            Ok(true)
        }
        SpooledPayload::Frame => {
            frame_text(alloc, number, length.saturating_sub(1), text)?;
            Ok(true)
        }
        SpooledPayload::Other => Ok(false),
    }
}

// Appends the line of the entry at this gate, and answers the next gate. An end at this gate is damage, as
// a payload is that is no entry.
pub(crate) fn list_entry<D: Disk>(
    alloc: Global,
    spool: &mut Spool<D>,
    gate: u64,
    number: u64,
    text: &mut Vec<u8>,
    about: &mut Vec<u8>,
) -> Result<u64, Unlisted>
    requires unstaged { spool.old.rows.staged ≡ 0 }
    requires opened { spool.old.closed ≡ false }
    requires left { WhereTold (content (D.state spool.old.disk))
        (λ bytes. (entries : Entries)
        × Remains bytes spool.old.rows.list.jump gate entries spool.old.rows.list.end) }
    ensures reads { OnlyReadsSpool D.state spool.old spool.new }
    ensures lists { ListsEntry D.state spool.old spool.new gate number text.old.items text.new.items
        result }
{
    match spool.item(alloc, gate)? {
        Walked::Item { payload, next } => {
            if append_entry(alloc, number, &payload, text, about)? {
                Ok(next)
            } else {
                Err(Unlisted::Damage(gate))
            }
        }
        Walked::Empty => Err(Unlisted::Damage(gate)),
        Walked::DiskFailed => Err(Unlisted::DiskFault),
    }
}
