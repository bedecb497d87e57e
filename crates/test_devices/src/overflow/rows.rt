// What a row asks.
use sg_device::Frames;
use sg_memory::OutletScript;
use sg_memory_disk::{DiskPlan, FaultPlan};
use std::alloc::{AllocError, Global};

/// How the devices of a row are set up.
#[derive(Drop)]
pub(crate) struct RowSetup<'a> {
    pub(crate) capacity: u64,
    pub(crate) memory: u32,
    pub(crate) fails: &'a str,
    pub(crate) waits: &'a str,
    pub(crate) disk: &'a str,
}

fn push_range(numbers: &mut Vec<u64>, first: u64, last: u64) -> Result<(), AllocError> {
    for number in first..last.saturating_add(1) {
        numbers.push(number)?;
    }
    Ok(())
}

// Numbers with commas between, each alone or as `FIRST-LAST`; another word stands for none.
fn plan(alloc: Global, text: &str) -> Result<FaultPlan, AllocError> {
    let mut numbers = Vec::new(alloc);
    for word in text.split(',') {
        let (first, last) = word.split_once('-').unwrap_or((word, word));
        if let (Ok(first), Ok(last)) = (first.parse::<u64>(), last.parse::<u64>()) {
            push_range(&mut numbers, first, last)?;
        }
    }
    Ok(FaultPlan::new(numbers))
}

/// The calls of the outlet inside that fail, having taken one frame where there are more, and the sends that are
/// too early.
pub(crate) fn script(alloc: Global, fails: &str, waits: &str) -> Result<OutletScript, AllocError> {
    let mut script = OutletScript::never(alloc);
    script.fails = plan(alloc, fails)?;
    script.waits = plan(alloc, waits)?;
    Ok(script)
}

pub(crate) fn disk_plan(alloc: Global, fails: &str) -> Result<DiskPlan, AllocError> {
    Ok(DiskPlan::failing(alloc, plan(alloc, fails)?))
}

/// The frames of words with commas between.
pub(crate) fn frames(alloc: Global, words: &str) -> Result<Frames, AllocError> {
    let mut frames = Frames::new(alloc);
    for word in words.split(',') {
        frames.push(word.as_bytes())?;
    }
    Ok(frames)
}

/// CAPACITY MEMORY FAILS WAITS DISK WORDS
pub(crate) fn parts(row: &str) -> Option<(RowSetup<'_>, &str)> {
    let (capacity, rest) = row.split_once(' ')?;
    let (memory, rest) = rest.split_once(' ')?;
    let (fails, rest) = rest.split_once(' ')?;
    let (waits, rest) = rest.split_once(' ')?;
    let (disk, words) = rest.split_once(' ')?;
    let setup = RowSetup {
        capacity: capacity.parse::<u64>().ok()?,
        memory: memory.parse::<u32>().ok()?,
        fails,
        waits,
        disk,
    };
    Some((setup, words))
}
