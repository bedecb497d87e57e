// Records that are admitted and settled, turn after turn.
ghost use Rattle.std.specs.Prelude.{◌≡◌, ◌≤◌, ◌<◌, ◌+◌, ◌^◌, IfOk, OnOk, length};
ghost use Rattle.sg_counter.specs.Bringing.{AllMayEnter};
ghost use Rattle.bench_parts.specs.Cores.{IsMeasured};
ghost use Rattle.sg_msg.specs.Offers.{AllWithin};

use crate::cores::{buffered, queued};
use sg_core::Core;
use sg_counter::Settled;
use sg_device::Disk;
use sg_file::FileDisk;
use sg_list::Seq;
use sg_machine::Admission;
use sg_memory_disk::MemoryDisk;
use sg_msg::{Message, Offer};
use sg_time::Stamp;
use std::alloc::{AllocError, Global};

const STAMP: Stamp = Stamp { at: 0, offset: 0 };

// The turns at most.
const MOST: u64 = 1 << 40;

// A message of 200 encoded bytes.
fn message(alloc: Global) -> Result<Message, AllocError> {
    let value = vec![in alloc; b'x'; 142]?;
    let mut message = Message::new(alloc, 13, STAMP, STAMP)?;
    match message.set(b"MESSAGE", &value) {
        Ok(()) => Ok(message),
        Err(_) => Err(AllocError),
    }
}

// The one offer of a record.
fn offers(alloc: Global, message: &Message) -> Result<Vec<Offer>, AllocError>
    ensures within { IfOk result (λ offers. AllWithin 1 offers.items) }
    ensures few { IfOk result (λ offers. length offers.items ≤ 1024) }
{
    let mut offers = Vec::new(alloc);
    offers.push(Offer {
        dest: 0,
        message: message.share()?,
        flow: true,
    })?;
    Ok(offers)
}

// A record more.
#[tactic(auto, using(sg_counter::proofs::BringingLemmas::enter_push))]
fn add_record(records: &mut Vec<Admission>, end: u64, offers: Vec<Offer>) -> Result<(), AllocError>
    requires end { end < 2 ^ 63 }
    requires few { length offers.items ≤ 1024 }
    requires within { AllWithin 1 offers.items }
    requires each { AllMayEnter 1 records.old.items }
    ensures each { OnOk result (AllMayEnter 1 records.new.items) }
    ensures count { OnOk result (length records.new.items ≡ length records.old.items + 1) }
{
    records.push(Admission {
        end,
        offers: Seq::new(offers),
    })?;
    Ok(())
}

// So many records, the first of which ends there and each other one a byte later.
fn records(
    alloc: Global,
    message: &Message,
    end: u64,
    count: u32,
) -> Result<Vec<Admission>, AllocError>
    requires end { end < 2 ^ 62 }
    ensures each { IfOk result (λ records. AllMayEnter 1 records.items) }
    ensures count { IfOk result (λ records. length records.items ≡ count) }
{
    let mut records = Vec::new(alloc);
    for k in 0..count {
        let offers = offers(alloc, message)?;
        add_record(&mut records, end + u64::from(k), offers)?;
    }
    Ok(records)
}

// Admits so many records and settles them. Whether both were done.
#[tactic(auto, using(crate::proofs::CoreLemmas::batch_of))]
fn turn<D: Disk>(
    alloc: Global,
    core: &mut Core<D>,
    message: &Message,
    place: u64,
    count: u32,
) -> Result<bool, AllocError>
    requires measured { IsMeasured core.old }
    requires place { place < 2 ^ 62 }
    requires some { 0 < count }
    requires few { count ≤ 1000 }
    requires calls { core.old.calls + 2 < 2 ^ 54 }
    ensures measured { IsMeasured core.new }
    ensures calls { core.new.calls ≤ core.old.calls + 2 }
{
    let records = records(alloc, message, place, count)?;
    if core.admit(alloc, 0, records).is_err() {
        return Ok(false);
    }
    Ok(core.settle(0, place, count) == Settled::Done)
}

fn turns<D: Disk>(
    alloc: Global,
    core: &mut Core<D>,
    turns: u64,
    count: u32,
) -> Result<bool, AllocError>
    requires measured { IsMeasured core.old }
    requires calls { core.old.calls ≡ 0 }
{
    if turns > MOST || count == 0 || count > 1000 {
        return Ok(false);
    }
    let message = message(alloc)?;
    for k in 0..turns {
        if !turn(alloc, core, &message, k * u64::from(count), count)? {
            return Ok(false);
        }
    }
    Ok(true)
}

// Over a queue in memory.
fn over_queue(alloc: Global, count: u64, each: u32) -> Result<bool, AllocError> {
    let Some(mut core) = queued(alloc)? else {
        return Ok(false);
    };
    let done = turns(alloc, &mut core, count, each);
    let _disks = core.into_stores();
    done
}

// Over a disk-buffer on a disk in memory.
fn over_memory(alloc: Global, count: u64, each: u32) -> Result<bool, AllocError> {
    let disk = MemoryDisk::new(alloc, vec![in alloc; 0u8; 128]?)?;
    let Some(mut core) = buffered(alloc, disk)? else {
        return Ok(false);
    };
    let done = turns(alloc, &mut core, count, each);
    let _disks = core.into_stores();
    done
}

// Over a disk-buffer in this file, which is made where it is missing.
fn over_file(
    alloc: Global,
    rt: HostRuntime,
    path: &str,
    count: u64,
    each: u32,
) -> Result<bool, AllocError> {
    let Ok(disk) = FileDisk::open(alloc, rt, path.as_bytes(), Some(128)) else {
        return Ok(false);
    };
    let Some(mut core) = buffered(alloc, disk)? else {
        return Ok(false);
    };
    let done = turns(alloc, &mut core, count, each);
    let _disks = core.into_stores();
    done
}

/// Does so many turns of so many records each over such a core. Whether they were done.
pub(crate) fn run(rt: HostRuntime, place: &str, count: u64, each: u32) -> Result<bool, AllocError> {
    let alloc = rt.alloc();
    match place {
        "queue" => over_queue(alloc, count, each),
        "memory" => over_memory(alloc, count, each),
        path => over_file(alloc, rt, path, count, each),
    }
}
