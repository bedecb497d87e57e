// How the parts of a row are read.

use sg_device::NoMemory;
use sg_memory_disk::FaultPlan;
use std::alloc::Global;

// Numbers of calls; None where these are none.
fn numbers(alloc: Global, text: &str) -> Result<Option<Vec<u64>>, NoMemory> {
    let mut numbers = Vec::new(alloc);
    for word in text.split(' ') {
        let Ok(number) = word.parse::<u64>() else {
            return Ok(None);
        };
        numbers.push(number)?;
    }
    Ok(Some(numbers))
}

fn all(alloc: Global) -> Result<Vec<u64>, NoMemory> {
    let mut numbers = Vec::new(alloc);
    for number in 0..1_000 {
        numbers.push(number)?;
    }
    Ok(numbers)
}

/// The calls that fail; None where a text doesn't say which.
pub(crate) fn calls(alloc: Global, text: &str) -> Result<Option<FaultPlan>, NoMemory> {
    let numbers = match text {
        "none" => Some(Vec::new(alloc)),
        "all" => Some(all(alloc)?),
        _ => numbers(alloc, text)?,
    };
    Ok(numbers.map(FaultPlan::new))
}

/// IP, PORT, SLOT, PEER and TEXT.
pub(crate) fn peer_parts(text: &str) -> Option<(&str, u16, u16, &str, &str)> {
    let Some((ip, rest)) = text.split_once(' ') else {
        return None;
    };
    let Some((port, rest)) = rest.split_once(' ') else {
        return None;
    };
    let Some((slot, rest)) = rest.split_once(' ') else {
        return None;
    };
    let (peer, text) = rest.split_once(' ').unwrap_or((rest, ""));
    let (Ok(port), Ok(slot)) = (port.parse::<u16>(), slot.parse::<u16>()) else {
        return None;
    };
    Some((ip, port, slot, peer, text))
}
