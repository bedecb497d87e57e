// Lists over disks in memory, beside plain ones, stopped at each call and reopened from each image.
use sg_device::DiskFault;
use sg_memory_disk::{MemoryDisk, Pick};
use sg_spool::{Appended, Block, Front, Spool};
use sg_stable::StoreRefusal;
use std::alloc::Global;
use std::test::Fail;

const PICKS: [Pick; 4] = [Pick::Old, Pick::New, Pick::Ones, Pick::Zeros];

// The payload of an entry's number: 1 to 7 equal bytes.
fn payload(alloc: Global, number: u64) -> Result<Vec<u8>, Fail> {
    let byte = (number % 250) as u8 + 1;
    Ok(vec![in alloc; byte; 1 + (number % 7) as usize]?)
}

fn open(disk: MemoryDisk, capacity: u64) -> Result<Spool<MemoryDisk>, StoreRefusal> {
    match Spool::open(disk, capacity) {
        Ok(spool) => Ok(spool),
        Err((_, refusal)) => Err(refusal),
    }
}

// Whether the first entry is this one, which is taken off.
fn begins(alloc: Global, spool: &mut Spool<MemoryDisk>, number: u64) -> Result<bool, Fail> {
    if spool.staged() > 0 {
        return Ok(false);
    }
    let Front::Item(found) = spool.front(alloc)? else {
        return Ok(false);
    };
    Ok(found.as_slice() == payload(alloc, number)?.as_slice() && take_off(spool, 1)? == 1)
}

// Whether the list has these entries, which are taken off it.
fn drains(alloc: Global, spool: &mut Spool<MemoryDisk>, numbers: &[u64]) -> Result<bool, Fail> {
    if spool.count() != numbers.len() as u64 {
        return Ok(false);
    }
    for number in numbers {
        if !begins(alloc, spool, *number)? {
            return Ok(false);
        }
    }
    Ok(spool.count() == 0)
}

// Whether a store of these bytes has these entries.
fn holds(alloc: Global, bytes: Vec<u8>, numbers: &[u64]) -> Result<bool, Fail> {
    let mut spool = open(MemoryDisk::new(alloc, bytes)?, 0)?;
    let result = drains(alloc, &mut spool, numbers);
    let _ = spool.into_disk();
    result
}

// Takes entries off the list, as far as there are so many, and tells how many.
fn take_off(spool: &mut Spool<MemoryDisk>, n: u64) -> Result<u64, DiskFault> {
    let n = n.min(spool.count());
    if n == 0 || spool.staged() > 0 {
        return Ok(0);
    }
    spool.advance(n)?;
    Ok(n)
}

// Stages an entry.
fn stage(alloc: Global, spool: &mut Spool<MemoryDisk>, number: u64) -> Result<Appended, Fail> {
    let payload = payload(alloc, number)?;
    if payload.is_empty() || payload.len() > 7 {
        return Ok(Appended::NoRoom);
    }
    let block = Block::new(alloc, payload)?;
    Ok(spool.stage(&block))
}

// The number of the first entry that a step stages, and how many they are: 1 to 5.
fn batch(number: u64) -> (u64, u64) {
    ((number % 100_000) * 5, 1 + number / 5 % 5)
}

// Stages so many entries, as far as there is room. How many that were.
fn stage_all(
    alloc: Global,
    spool: &mut Spool<MemoryDisk>,
    first: u64,
    count: u64,
) -> Result<u64, Fail> {
    let mut staged: u64 = 0;
    for k in 0..count {
        if stage(alloc, spool, first.saturating_add(k))? != Appended::Done {
            break;
        }
        staged = staged.saturating_add(1);
    }
    Ok(staged)
}

// Stages entries and commits them, and else takes 1 to 3 off. How many that were.
fn take_step(alloc: Global, spool: &mut Spool<MemoryDisk>, number: u64) -> Result<u64, Fail> {
    if number % 5 >= 3 {
        return Ok(take_off(spool, 1 + number % 3).unwrap_or(0));
    }
    let (first, count) = batch(number);
    let staged = stage_all(alloc, spool, first, count)?;
    Ok(if spool.commit().is_ok() { staged } else { 0 })
}

// The same to a plain list.
fn follow(numbers: &mut Vec<u64>, number: u64, changed: u64) -> Result<(), Fail> {
    if number % 5 >= 3 {
        remove_first(numbers, changed);
        return Ok(());
    }
    let (first, _) = batch(number);
    for k in 0..changed {
        numbers.push(first.saturating_add(k))?;
    }
    Ok(())
}

fn remove_first(numbers: &mut Vec<u64>, count: u64) {
    for _ in 0..count {
        if !numbers.is_empty() {
            let _ = numbers.remove(0);
        }
    }
}

// So many steps on an open list and a plain one.
fn run(
    alloc: Global,
    spool: &mut Spool<MemoryDisk>,
    numbers: &mut Vec<u64>,
    steps: u64,
) -> Result<(), Fail> {
    for number in 0..steps {
        let changed = take_step(alloc, spool, number)?;
        follow(numbers, number, changed)?;
    }
    Ok(())
}

fn run_from(
    alloc: Global,
    disk: MemoryDisk,
    capacity: u64,
    numbers: &mut Vec<u64>,
    steps: u64,
) -> Result<MemoryDisk, Fail> {
    let mut spool = open(disk, capacity)?;
    let result = run(alloc, &mut spool, numbers, steps);
    let disk = spool.into_disk();
    result?;
    Ok(disk)
}

fn fresh(alloc: Global) -> Result<MemoryDisk, Fail> {
    Ok(MemoryDisk::new(alloc, vec![in alloc; 0u8; 128]?)?)
}

// The disk and the entries behind so many steps.
fn begun(alloc: Global, capacity: u64, steps: u64) -> Result<(MemoryDisk, Vec<u64>), Fail> {
    let mut numbers = Vec::new(alloc);
    let disk = run_from(alloc, fresh(alloc)?, capacity, &mut numbers, steps)?;
    Ok((disk, numbers))
}

// Some thousand steps. Whether the list is the plain one, and the file within its bound.
fn long(alloc: Global, capacity: u64, steps: u64) -> Result<bool, Fail> {
    let (disk, numbers) = begun(alloc, capacity, steps)?;
    let bytes = disk.bytes().to_vec(alloc)?;
    let bound = capacity.saturating_mul(2).saturating_add(68).max(128);
    Ok(bytes.len() as u64 <= bound && holds(alloc, bytes, &numbers)?)
}

#[test]
fn beside_plain_lists(rt: HostRuntime) -> Result<(), Fail> {
    for capacity in [0, 7, 20, 30, 37, 64, 100] {
        assert!(rt; long(rt.alloc(), capacity, 2500)?, "{capacity}");
    }
    Ok(())
}

// A step over a list: the entries before it, its number, and how many entries it changes.
#[derive(Drop)]
struct ListStep {
    numbers: Vec<u64>,
    number: u64,
    whole: u64,
}

// Whether a store of these bytes has the entries of a step that changed so many.
fn holds_after(alloc: Global, bytes: &[u8], step: &ListStep, changed: u64) -> Result<bool, Fail> {
    let mut after = step.numbers.to_vec(alloc)?;
    follow(&mut after, step.number, changed)?;
    holds(alloc, bytes.to_vec(alloc)?, &after)
}

// The same, where it changed as many as one of these says.
fn holds_one(alloc: Global, bytes: &[u8], step: &ListStep, changes: &[u64]) -> Result<bool, Fail> {
    for changed in changes {
        if holds_after(alloc, bytes, step, *changed)? {
            return Ok(true);
        }
    }
    Ok(false)
}

// Whether each image has the list after so many changes as one of these says.
fn images_hold(
    alloc: Global,
    disk: &MemoryDisk,
    step: &ListStep,
    changes: &[u64],
) -> Result<bool, Fail> {
    for pick in PICKS {
        let image = disk.image(&[pick])?;
        if !holds_one(alloc, &image, step, changes)? {
            return Ok(false);
        }
    }
    Ok(true)
}

// A step over an open list, and its disk.
fn stepped(
    alloc: Global,
    spool: Spool<MemoryDisk>,
    number: u64,
) -> Result<(MemoryDisk, u64), Fail> {
    let mut spool = spool;
    let result = take_step(alloc, &mut spool, number);
    let disk = spool.into_disk();
    Ok((disk, result?))
}

// A disk with these bytes that stops after so many calls.
fn stopping(alloc: Global, bytes: &[u8], calls: u64) -> Result<MemoryDisk, Fail> {
    let mut disk = MemoryDisk::new(alloc, bytes.to_vec(alloc)?)?;
    disk.stop_after(calls);
    Ok(disk)
}

// One step that is stopped after some calls, opening included. Whether each image then has the list
// before the step or after all of it; under a greater capacity also after the first ones that are staged.
fn stopped(
    alloc: Global,
    disk: MemoryDisk,
    capacity: u64,
    step: &ListStep,
    greater: bool,
) -> Result<bool, Fail> {
    let Ok(spool) = open(disk, capacity) else {
        return Ok(true);
    };
    let (disk, done) = stepped(alloc, spool, step.number)?;
    if done > 0 {
        return images_hold(alloc, &disk, step, &[step.whole]);
    }
    if greater {
        return images_hold(alloc, &disk, step, &[0, 1, 2, 3, 4, step.whole]);
    }
    images_hold(alloc, &disk, step, &[0, step.whole])
}

// One step on a store of these bytes, stopped at each of its calls.
fn stops(
    alloc: Global,
    bytes: &[u8],
    capacity: u64,
    step: &ListStep,
    greater: bool,
) -> Result<bool, Fail> {
    for calls in 0..40 {
        if !stopped(
            alloc,
            stopping(alloc, bytes, calls)?,
            capacity,
            step,
            greater,
        )? {
            return Ok(false);
        }
    }
    Ok(true)
}

// Takes the step, and notes how many entries it changes. The disk behind it.
fn take_and_count(
    alloc: Global,
    disk: MemoryDisk,
    capacity: u64,
    step: &mut ListStep,
) -> Result<MemoryDisk, Fail> {
    let (disk, whole) = stepped(alloc, open(disk, capacity)?, step.number)?;
    step.whole = whole;
    Ok(disk)
}

// Takes the step over the plain list.
fn follow_step(step: &mut ListStep) -> Result<(), Fail> {
    let (number, whole) = (step.number, step.whole);
    follow(&mut step.numbers, number, whole)
}

// Takes a step, and tries it stopped at each of its calls. The disk behind it, or None where an image has
// other entries.
fn try_step(
    alloc: Global,
    disk: MemoryDisk,
    capacity: u64,
    step: &mut ListStep,
    greater: bool,
) -> Result<Option<MemoryDisk>, Fail> {
    let bytes = disk.bytes().to_vec(alloc)?;
    let disk = take_and_count(alloc, disk, capacity, step)?;
    let whole = stops(alloc, &bytes, capacity, step, greater)?;
    follow_step(step)?;
    Ok(if whole { Some(disk) } else { None })
}

// A stretch of steps over the end of the ring, each stopped at each of its calls.
fn stretch(alloc: Global, before: u64, capacity: u64) -> Result<bool, Fail> {
    let (mut disk, numbers) = begun(alloc, before, 40)?;
    let mut step = ListStep {
        numbers,
        number: 40,
        whole: 0,
    };
    for number in 40..70 {
        step.number = number;
        let Some(next) = try_step(alloc, disk, capacity, &mut step, before < capacity)? else {
            return Ok(false);
        };
        disk = next;
    }
    holds(alloc, disk.bytes().to_vec(alloc)?, &step.numbers)
}

#[test]
fn at_each_call(rt: HostRuntime) -> Result<(), Fail> {
    for (before, capacity) in [(20, 20), (30, 30), (20, 60)] {
        assert!(rt; stretch(rt.alloc(), before, capacity)?, "{capacity}");
    }
    Ok(())
}
