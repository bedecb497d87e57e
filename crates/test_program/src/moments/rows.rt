// What rows come to.
use crate::moments::due::Due;
use crate::moments::images::{are_picks, begun, left, picks};
use crate::moments::runs::{DeviceStops, EndedProgram, NEVER, run};
use sg_device::NoMemory;
use sg_memory_disk::MemoryStores;
use std::alloc::Global;
use std::sync::Wait;
use std::thread::Threads;

/// Lists of picks, in letters.
const PICKS: [&str; 10] = ["o", "n", "1", "0", "on", "no", "1o", "0n", "n0", "o1n"];

// How many runs were stopped, and how many of them before their rounds; how many runs came behind them, and how many of these
// were right; and what one of the others came to.
#[derive(Drop)]
struct MomentSums {
    stopped: u64,
    early: u64,
    runs: u64,
    right: u64,
    differs: Option<String>,
}

// A code, - where there is none.
fn code_text(alloc: Global, code: Option<u8>) -> Result<String, NoMemory> {
    match code {
        Some(code) => Ok(format!(in alloc; "{code}")?),
        None => Ok(format!(in alloc; "-")?),
    }
}

// The exit status of a run with working devices.
fn working<T: Threads + Wait + Eprint + Sync>(
    rt: &T,
    alloc: Global,
    stores: MemoryStores,
    due: &mut Due,
) -> Result<Option<u8>, NoMemory> {
    let ran = run(rt, alloc, stores, NEVER, due)?;
    Ok(ran.code)
}

fn end_text(alloc: Global, code: Option<u8>, due: &Due) -> Result<String, NoMemory> {
    let code = code_text(alloc, code)?;
    let taken = due.said(alloc)?;
    format!(in alloc; "status {code}, {taken}")
}

// A run with working devices. None where it is right, and else what it came to.
fn finish<T: Threads + Wait + Eprint + Sync>(
    rt: &T,
    alloc: Global,
    stores: MemoryStores,
    due: &mut Due,
) -> Result<Option<String>, NoMemory> {
    let code = working(rt, alloc, stores, due)?;
    if code == Some(0) && due.is_done() {
        return Ok(None);
    }
    Ok(Some(end_text(alloc, code, due)?))
}

fn place_text(alloc: Global, stopped: u64, letters: &str, said: &str) -> Result<String, NoMemory> {
    format!(in alloc; "behind {stopped} by {letters}: {said}")
}

// What a crash leaves of these stores by these picks.
fn crashed(
    alloc: Global,
    stores: &MemoryStores,
    position: &str,
    buffer: &str,
) -> Result<MemoryStores, NoMemory> {
    let position = picks(alloc, position)?;
    let buffer = picks(alloc, buffer)?;
    left(alloc, stores, &position, &buffer)
}

// A run over what a crash leaves of these stores by these picks.
fn look<T: Threads + Wait + Eprint + Sync>(
    rt: &T,
    alloc: Global,
    stores: &MemoryStores,
    letters: &str,
    due: &Due,
    sums: &mut MomentSums,
) -> Result<(), NoMemory> {
    let mut due = due.copy(alloc)?;
    let images = crashed(alloc, stores, letters, letters)?;
    sums.runs = sums.runs.saturating_add(1);
    match finish(rt, alloc, images, &mut due)? {
        None => sums.right = sums.right.saturating_add(1),
        Some(said) => sums.differs = Some(place_text(alloc, sums.stopped, letters, &said)?),
    }
    Ok(())
}

fn look_all<T: Threads + Wait + Eprint + Sync>(
    rt: &T,
    alloc: Global,
    stores: &MemoryStores,
    due: &Due,
    sums: &mut MomentSums,
) -> Result<(), NoMemory> {
    for letters in PICKS {
        look(rt, alloc, stores, letters, due, sums)?;
    }
    Ok(())
}

// A run whose devices stop so, and the runs behind it; whether it met a stop.
fn stop<T: Threads + Wait + Eprint + Sync>(
    rt: &T,
    alloc: Global,
    stores: MemoryStores,
    stops: DeviceStops<'_>,
    sums: &mut MomentSums,
) -> Result<bool, NoMemory> {
    let mut due = Due::new(alloc)?;
    let ran = run(rt, alloc, stores, stops, &mut due)?;
    let stopped = ran.code == Some(7);
    if stopped {
        sums.stopped = sums.stopped.saturating_add(1);
    }
    if ran.early {
        sums.early = sums.early.saturating_add(1);
    }
    look_all(rt, alloc, &ran.stores, &due, sums)?;
    Ok(stopped)
}

// Where the store stops behind so many calls.
fn at<'a>(store: &str, calls: u64, tear: &'a str) -> Option<DeviceStops<'a>> {
    let stops = DeviceStops { tear, ..NEVER };
    match store {
        "position" => Some(DeviceStops {
            position: Some(calls),
            ..stops
        }),
        "buffer" => Some(DeviceStops {
            buffer: Some(calls),
            ..stops
        }),
        _ => None,
    }
}

fn said(alloc: Global, sums: &MomentSums) -> Result<String, NoMemory> {
    let MomentSums {
        stopped,
        early,
        runs,
        right,
        differs,
    } = sums;
    if let Some(differs) = differs {
        let wrong = runs.saturating_sub(*right);
        return Ok(format!(in alloc; "DIFFERS {wrong} times, {differs}")?);
    }
    if stopped <= early {
        return Ok(format!(in alloc; "DIFFERS, no stop in the rounds")?);
    }
    Ok(format!(in alloc; "right behind each stop, {early} of them before the rounds")?)
}

// BEGIN, STORE and TEAR; none where the row has other words.
fn series(row: &str) -> Option<(&str, &str, &str)> {
    let mut words = row.split(' ');
    let (Some(begin), Some(store), Some(tear)) = (words.next(), words.next(), words.next()) else {
        return None;
    };
    if words.next().is_some() || !(tear == "-" || are_picks(tear)) {
        return None;
    }
    Some((begin, store, tear))
}

// A run in which the store of these words stops behind so many calls, and those behind it: whether it met a stop; none where the
// words are others.
fn stop_behind<T: Threads + Wait + Eprint + Sync>(
    rt: &T,
    alloc: Global,
    words: (&str, &str, &str),
    calls: u64,
    sums: &mut MomentSums,
) -> Result<Option<bool>, NoMemory> {
    let (begin, store, tear) = words;
    let Some(stops) = at(store, calls, tear) else {
        return Ok(None);
    };
    match begun(alloc, begin)? {
        Some(stores) => Ok(Some(stop(rt, alloc, stores, stops, sums)?)),
        None => Ok(None),
    }
}

// Runs in which the store of these words stops at each of its calls. Whether one met no stop.
fn stop_each<T: Threads + Wait + Eprint + Sync>(
    rt: &T,
    alloc: Global,
    words: (&str, &str, &str),
    sums: &mut MomentSums,
) -> Result<bool, NoMemory> {
    for calls in 0..1_000 {
        match stop_behind(rt, alloc, words, calls, sums)? {
            Some(true) => {}
            Some(false) => return Ok(true),
            None => return Ok(false),
        }
    }
    Ok(false)
}

// What comes of these runs; none where the row has other words.
fn sum_up<T: Threads + Wait + Eprint + Sync>(
    rt: &T,
    alloc: Global,
    row: &str,
) -> Result<Option<MomentSums>, NoMemory> {
    let Some(words) = series(row) else {
        return Ok(None);
    };
    let mut sums = MomentSums {
        stopped: 0,
        early: 0,
        runs: 0,
        right: 0,
        differs: None,
    };
    if stop_each(rt, alloc, words, &mut sums)? {
        Ok(Some(sums))
    } else {
        Ok(None)
    }
}

/// Runs in which a store stops at each of its calls, and those behind them.
pub(crate) fn each<T: Threads + Wait + Eprint + Sync>(
    rt: &T,
    alloc: Global,
    row: &str,
) -> Result<Option<Vec<u8>>, NoMemory> {
    match sum_up(rt, alloc, row)? {
        Some(sums) => Ok(Some(said(alloc, &sums)?.into_bytes())),
        None => Ok(None),
    }
}

/// How many such runs met a stop.
pub(crate) fn stops<T: Threads + Wait + Eprint + Sync>(
    rt: &T,
    alloc: Global,
    row: &str,
) -> Result<Option<Vec<u8>>, NoMemory> {
    match sum_up(rt, alloc, row)? {
        Some(sums) => Ok(Some(format!(in alloc; "{}", sums.stopped)?.into_bytes())),
        None => Ok(None),
    }
}

// A number of calls; none for any other word.
fn count(word: Option<&str>) -> Option<u64> {
    match word {
        Some(word) => word.parse().ok(),
        None => None,
    }
}

fn is_count(word: Option<&str>) -> bool {
    match word {
        Some(word) => word == "-" || word.parse::<u64>().is_ok(),
        None => false,
    }
}

// Whether these are the words of a stop.
fn is_stop(text: &str) -> bool {
    let mut words = text.split_whitespace();
    let devices = is_count(words.next()) && is_count(words.next()) && is_count(words.next());
    let stores = are_picks(words.next().unwrap_or("")) && are_picks(words.next().unwrap_or(""));
    devices && stores && words.next().is_none()
}

fn are_stops(text: &str) -> bool {
    for part in text.split('/') {
        if !is_stop(part) {
            return false;
        }
    }
    true
}

// A run that stops as these words say, and what a crash leaves of its stores.
fn stop_once<T: Threads + Wait + Eprint + Sync>(
    rt: &T,
    alloc: Global,
    stores: MemoryStores,
    text: &str,
    due: &mut Due,
) -> Result<MemoryStores, NoMemory> {
    let mut words = text.split_whitespace();
    let stops = DeviceStops {
        position: count(words.next()),
        buffer: count(words.next()),
        outlet: count(words.next()),
        tear: "",
    };
    let position = words.next().unwrap_or("");
    let buffer = words.next().unwrap_or("");
    let ran = run(rt, alloc, stores, stops, due)?;
    crashed(alloc, &ran.stores, position, buffer)
}

fn differs(alloc: Global, said: &str, stops: &str) -> Result<Vec<u8>, NoMemory> {
    Ok(format!(in alloc; "DIFFERS {said}: {stops}")?.into_bytes())
}

// What comes of runs over these stores that stop as the words say, one behind the other.
fn chained<T: Threads + Wait + Eprint + Sync>(
    rt: &T,
    alloc: Global,
    mut stores: MemoryStores,
    stops: &str,
) -> Result<Vec<u8>, NoMemory> {
    let mut due = Due::new(alloc)?;
    for text in stops.split('/') {
        stores = stop_once(rt, alloc, stores, text, &mut due)?;
    }
    match finish(rt, alloc, stores, &mut due)? {
        None => b"right".to_vec(alloc),
        Some(said) => differs(alloc, &said, stops),
    }
}

/// Runs one behind the other.
pub(crate) fn chain<T: Threads + Wait + Eprint + Sync>(
    rt: &T,
    alloc: Global,
    row: &str,
) -> Result<Option<Vec<u8>>, NoMemory> {
    let (begin, rest) = row.split_once(' ').unwrap_or((row, ""));
    if !are_stops(rest) {
        return Ok(None);
    }
    match begun(alloc, begin)? {
        Some(stores) => Ok(Some(chained(rt, alloc, stores, rest)?)),
        None => Ok(None),
    }
}
