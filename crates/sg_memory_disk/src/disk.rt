// A disk in memory. It keeps its writes and syncs, by which it tells its images at past moments.
ghost use Rattle.std.specs.Prelude.{◌≡◌, false, ◌+◌, ◌-◌, ◌<◌, ◌≤◌, ◌^◌, ◌++◌, [], ◌∷◌, length, replicate, take, drop, Some, None, IfOk, IsErr, MatchResult};
ghost use Rattle.sg_device.specs.Disk.{DiskState, Measures, ReadsDisk, Writes, Syncs, IsShort, HasCause, bytes_after, Wrote};
ghost use Rattle.sg_device.specs.DiskBytes.{overwritten};
ghost use Rattle.sg_memory_disk.specs.DiskChange.{event_of, events_of};

use crate::laying::{copy_over, grow};
use crate::{DiskCalls, DiskChange, DiskPlan, DiskWrite};
use sg_device::{Disk, DiskFault, NoMemory};
use std::alloc::{AllocError, Global};

/// A disk in memory, which tells its bytes and its images. A write or a sync that finds no memory
/// fails as on a full disk.
pub struct MemoryDisk {
    pub(crate) alloc: Global,
    pub(crate) first: Vec<u8>,
    pub(crate) bytes: Vec<u8>,
    pub(crate) changes: Vec<DiskChange>,
    pub(crate) calls: DiskCalls,
    ghost reads: { bytes.items ≡ bytes_after first.items (events_of [] changes.items) },
    ghost short: { length bytes.items < 2 ^ 63 },
}

impl Drop for MemoryDisk {
    fn drop(self) {
        let MemoryDisk {
            alloc: _alloc,
            first: _first,
            bytes: _bytes,
            changes: _changes,
            calls: _calls,
        } = self;
    }
}

impl MemoryDisk {
    ghost use Rattle.sg_memory_disk.specs.MemoryDisk.{disk_of, fresh_disk};
    ghost use Rattle.sg_memory_disk.specs.DiskPlan.{IsDiskQuiet};

    /// A disk with these bytes, all of them stable. No call fails, but where memory runs out.
    pub fn new(alloc: Global, bytes: Vec<u8>) -> Result<MemoryDisk, NoMemory>
        requires { length bytes.items < 2 ^ 63 }
        ensures made { IfOk result (λ disk. disk_of disk ≡ fresh_disk bytes.items) }
        ensures quiet { IfOk result (λ disk. IsDiskQuiet disk.calls.plan) }
        ensures fed { IfOk result (λ disk. disk.calls.starved ≡ false) }
    {
        MemoryDisk::failing(alloc, bytes, DiskPlan::never(alloc))
    }

    /// The same, but calls fail by this plan.
    pub fn failing(alloc: Global, bytes: Vec<u8>, plan: DiskPlan) -> Result<MemoryDisk, NoMemory>
        requires { length bytes.items < 2 ^ 63 }
        ensures made { IfOk result (λ disk. disk_of disk ≡ fresh_disk bytes.items) }
        ensures plan { IfOk result (λ disk. disk.calls.plan ≡ plan) }
        ensures fed { IfOk result (λ disk. disk.calls.starved ≡ false) }
    {
        Ok(MemoryDisk {
            alloc,
            first: bytes.to_vec(alloc)?,
            bytes,
            changes: Vec::new(alloc),
            calls: DiskCalls::new(plan),
        })
    }

    /// From now on so many calls pass, but for those that fail anyway, and every later one fails.
    pub fn stop_after(&mut self, calls: u64)
        ensures left { self.new.calls
            ≡ record self.old.calls { plan = record self.old.calls.plan { left = Some calls } } }
        ensures state { disk_of self.new ≡ disk_of self.old }
    {
        self.calls.plan.left = Some(calls);
    }

    /// From now on calls fail by this plan, counted from 0.
    pub fn fail(&mut self, plan: DiskPlan)
        ensures plan { self.new.calls ≡ record self.old.calls { plan = plan } }
        ensures state { disk_of self.new ≡ disk_of self.old }
    {
        self.calls.plan = plan;
    }

    /// Whether a write or a sync found no memory.
    pub fn starved(&self) -> bool
        ensures { result ≡ self.now.calls.starved }
    {
        self.calls.starved
    }

    /// What the calls left, in order.
    pub fn changes(&self) -> &[DiskChange]
        ensures { result.now ≡ self.now.changes.items }
    {
        &self.changes
    }

    /// The bytes as a read gives them.
    pub fn bytes(&self) -> &[u8]
        ensures { result.now ≡ self.now.bytes.items }
    {
        &self.bytes
    }
}

impl Disk for MemoryDisk {
    ghost use Rattle.sg_memory_disk.specs.DiskPlan.{FailsAsPlanned, CallFails};
    ghost use Rattle.sg_memory_disk.specs.MemoryDisk.{disk_of};
    ghost use Rattle.sg_memory_disk.specs.MemoryDiskLaws.{is_short};

    ghost state = { disk_of };

    ghost short = { is_short };

    fn len(&mut self) -> Result<u64, DiskFault>
        ensures told { (disk_of self.new).told ≡ (disk_of self.old).told }
        ensures length { Measures (disk_of self.old) result }
        ensures bound { IfOk result (λ count. count < 2 ^ 63) }
        ensures cause { HasCause (disk_of self.old).faults (disk_of self.new).faults result }
        ensures fails { FailsAsPlanned self.old.calls self.new.calls result }
    {
        if self.calls.next() {
            return Err(DiskFault);
        }
        Ok(self.bytes.len() as u64)
    }

    fn read_at(&mut self, at: u64, into: &mut [u8]) -> Result<usize, DiskFault>
        ensures told { (disk_of self.new).told ≡ (disk_of self.old).told }
        ensures bytes { ReadsDisk (disk_of self.old) at into.old into.new result }
        ensures bound { IfOk result (λ count. count ≤ length into.old) }
        ensures cause { HasCause (disk_of self.old).faults (disk_of self.new).faults result }
        ensures fails { FailsAsPlanned self.old.calls self.new.calls result }
    {
        if self.calls.next() {
            return Err(DiskFault);
        }
        let size = self.bytes.len();
        let start = if at < size as u64 { at as usize } else { size };
        let count = into.len().min(size - start);
        into[..count].copy_from_slice(&self.bytes[start..start + count]);
        Ok(count)
    }

    fn write_at(&mut self, at: u64, from: &[u8]) -> Result<(), DiskFault>
        ensures past_end { 2 ^ 63 ≤ at + length from.now → IsErr result }
        ensures told { Writes (disk_of self.old) (disk_of self.new) at from.now result }
        ensures cause { HasCause (disk_of self.old).faults (disk_of self.new).faults result }
        ensures fails { CallFails self.old.calls self.new.calls (at + length from.now) result }
    {
        if self.calls.next() {
            self.tear(at, from);
            return Err(DiskFault);
        }
        if at >= 1 << 63 || from.len() as u64 >= (1 << 63) - at {
            self.calls.fault();
            return Err(DiskFault);
        }
        if write(self.alloc, &mut self.bytes, &mut self.changes, at, from).is_err() {
            self.calls.starve();
            return Err(DiskFault);
        }
        Ok(())
    }

    fn sync(&mut self) -> Result<(), DiskFault>
        ensures told { Syncs (disk_of self.old) (disk_of self.new) result }
        ensures cause { HasCause (disk_of self.old).faults (disk_of self.new).faults result }
        ensures fails { CallFails self.old.calls self.new.calls 0 result }
    {
        if self.calls.next() {
            self.lose();
            return Err(DiskFault);
        }
        if add(&mut self.changes, DiskChange::Synced).is_err() {
            self.calls.starve();
            return Err(DiskFault);
        }
        Ok(())
    }
}

// A write and its event, or neither where there is no memory for both.
fn write(
    alloc: Global,
    bytes: &mut Vec<u8>,
    changes: &mut Vec<DiskChange>,
    at: u64,
    from: &[u8],
) -> Result<(), AllocError>
    requires { at + length from.now < 2 ^ 63 }
    ensures bytes { MatchResult result
        (λ _. bytes.new.items ≡ overwritten at from.now bytes.old.items)
        (λ _. bytes.new.items ≡ bytes.old.items) }
    ensures events { MatchResult result
        (λ _. events_of [] changes.new.items ≡ Wrote at from.now ∷ events_of [] changes.old.items)
        (λ _. changes.new.items ≡ changes.old.items) }
{
    let change = DiskChange::Wrote(DiskWrite {
        at,
        bytes: from.to_vec(alloc)?,
    });
    put(bytes, changes, change, at, from)?;
    Ok(())
}

// These bytes at a place, and the event that left them, or neither where there is no memory for both.
pub(crate) fn put(
    bytes: &mut Vec<u8>,
    changes: &mut Vec<DiskChange>,
    change: DiskChange,
    at: u64,
    from: &[u8],
) -> Result<(), AllocError>
    requires { at + length from.now < 2 ^ 63 }
    ensures bytes { MatchResult result
        (λ _. bytes.new.items ≡ overwritten at from.now bytes.old.items)
        (λ _. bytes.new.items ≡ bytes.old.items) }
    ensures events { MatchResult result
        (λ _. events_of [] changes.new.items ≡ event_of change ∷ events_of [] changes.old.items)
        (λ _. changes.new.items ≡ changes.old.items) }
{
    let size = bytes.len();
    let start = at as usize;
    grow(bytes, start + from.len(), 0)?;
    if let Err(refusal) = add(changes, change) {
        bytes.truncate(size);
        return Err(refusal);
    }
    copy_over(bytes, start, from);
    Ok(())
}

// One change more, where there is memory for it.
pub(crate) fn add(changes: &mut Vec<DiskChange>, change: DiskChange) -> Result<(), AllocError>
    ensures { MatchResult result
        (λ _. events_of [] changes.new.items ≡ event_of change ∷ events_of [] changes.old.items)
        (λ _. changes.new.items ≡ changes.old.items) }
{
    changes.push(change)?;
    Ok(())
}
