// Reading an entry.
ghost use Rattle.std.specs.Prelude.{◌≡◌, ◌≤◌, ◌<◌, ◌+◌, ◌^◌, List, ℕ, length, take, IfOk};
ghost use Rattle.sg_device.specs.Disk.{content, WhereTold, HasCause};
ghost use Rattle.sg_spool.specs.Answers.{HasRefusalCause};
ghost use Rattle.sg_spool.specs.Ring.{IsPayload, IsEntry};

use crate::RewriteRefusal;
use crate::walk::size_of;
use sg_device::{Disk, DiskFault};
use std::alloc::{AllocError, Global};

const LONGEST: u32 = (1 << 30) + 64;

// The length of the payload of the entry at this gate.
pub(crate) fn read_size<D: Disk>(disk: &mut D, gate: u64) -> Result<u64, DiskFault>
    ensures size { IfOk result (λ n. WhereTold (content (D.state disk.old))
        (λ b. (payload : List ℕ) → IsEntry b gate payload → n ≡ length payload)) }
    ensures some { IfOk result (λ n. 1 ≤ n) }
    ensures limit { IfOk result (λ n. n ≤ 2 ^ 30 + 64) }
    ensures told { (D.state disk.new).told ≡ (D.state disk.old).told }
    ensures cause { HasCause (D.state disk.old).faults (D.state disk.new).faults result }
{
    let mut bytes = [0; 5];
    disk.read_at(gate, &mut bytes)?;
    Ok(size_of(&bytes).max(1).min(LONGEST) as u64)
}

// The payload of the entry at this gate: the bytes that are read of it, one at least.
#[tactic(auto, using(crate::proofs::EntryReads::payload_read, crate::proofs::EntryReads::fits_read))]
pub(crate) fn read_entry<D: Disk>(
    alloc: Global,
    disk: &mut D,
    gate: u64,
) -> Result<Vec<u8>, RewriteRefusal>
    ensures payload { IfOk result (λ v. WhereTold (content (D.state disk.old))
        (λ b. (payload : List ℕ) → IsEntry b gate payload → v.items ≡ payload)) }
    ensures fits { IfOk result (λ v. IsPayload v.items) }
    ensures told { (D.state disk.new).told ≡ (D.state disk.old).told }
    ensures cause { HasRefusalCause (D.state disk.old).faults (D.state disk.new).faults result }
{
    let size = read_size(disk, gate)?;
    let mut payload = zeros(alloc, size as usize)?;
    let count = disk.read_at(gate.saturating_add(5), &mut payload)?;
    Ok(cut_to(payload, count.max(1)))
}

// The first bytes, so many.
fn cut_to(mut bytes: Vec<u8>, count: usize) -> Vec<u8>
    ensures { result.items ≡ take count bytes.items }
{
    bytes.truncate(count);
    bytes
}

// So many zeros.
fn zeros(alloc: Global, size: usize) -> Result<Vec<u8>, AllocError>
    ensures { IfOk result (λ v. length v.items ≡ size) }
{
    let mut bytes = Vec::new(alloc);
    bytes.resize(size, 0)?;
    Ok(bytes)
}

// An equal payload.
pub(crate) fn copy_of(alloc: Global, payload: &[u8]) -> Result<Vec<u8>, AllocError>
    ensures { IfOk result (λ v. v.items ≡ payload.now) }
{
    Ok(payload.to_vec(alloc)?)
}
