// Runs of two sources and two destinations.
ghost use Rattle.std.specs.Prelude.{◌<◌, ◌≤◌};

use crate::watched::{Noted, machine};
use sg_crew::serve;
use sg_device::NoMemory;
use std::alloc::Global;
use std::sync::Wait;
use std::thread::Threads;
use test_flow::{FlowOutcome, FlowRow, Prepared, finish, lines, prepare, read_row, rounds_of};

// What is shown; the bytes of each of two files, a line feed written as $; the sends and reopenings of the
// first destination that fail, counted from 0; whether it gives up; the rounds at most; and how the run
// ends, what each destination took, first what came of the first file, then what came of the second, and the
// stored position of each file. A line that begins with 1 goes to the second destination, and its second
// letter tells its file: of two files, whose lines come first is free. A file `many N` has N lines, in turn to the
// one destination and the other, and `all N` is what they take of two such files. The first round of each run is
// taken on threads.
const ROWS: &str = "\
each line to its destination / 0a1$1a2$0a3$ / 1b1$0b2$1b3$ / / / 20 / quiet / 0a1 0a3 0b2 | 1a2 1b1 1b3 | / 12 12
two empty files / / / / / 20 / quiet / | | / 0 0
two empty files and one round / / / / / 1 / spent / | | / 0 0
one file is empty / / 0b1$ / / / 20 / quiet / 0b1 | | / 0 4
an open last line stays / 0a1$0b / / / / 20 / quiet / 0a1 | | / 4 0
a send that fails once / 0a1$1a2$ / 1b1$0b2$ / 0 / / 20 / quiet / 0a1 0b2 | 1a2 1b1 | / 8 8
a destination that is given up / 0a1$1a2$ / 1b1$0b2$ / 0 1 2 / gives-up / 20 / quiet / | 1a2 1b1 | / 0 4
a destination that fails for ever / 0a1$ / 1b1$ / 0 1 2 3 4 5 6 7 8 9 / / 8 / spent / | 1b1 | / 0 4
many lines / 0a1$1a2$0a3$0a4$0a5$1a6$0a7$0a8$ / 0b1$0b2$0b3$1b4$0b5$1b6$0b7$ / / / 40 / quiet / 0a1 0a3 0a4 0a5 0a7 0a8 0b1 0b2 0b3 0b5 0b7 | 1a2 1a6 1b4 1b6 | / 32 28
thousands of lines / many 2000 / many 2000 / / / 200 / quiet / all 2000 / 12890 12890";

// So many lines of a file.
fn lines_of(alloc: Global, file: &str, count: u64) -> Result<Vec<u8>, NoMemory> {
    let mut bytes = Vec::new(alloc);
    for k in 0..count {
        let line = format!(in alloc; "{}{file}{k}\n", k % 2)?;
        bytes.extend_from_slice(line.as_bytes())?;
    }
    Ok(bytes)
}

// A number of lines; 0 where it can't be read.
fn count_of(word: &str) -> u64 {
    word.parse().unwrap_or(0)
}

fn bytes_of(alloc: Global, file: &str, text: &str) -> Result<Vec<u8>, NoMemory> {
    match text.strip_prefix("many ") {
        Some(count) => lines_of(alloc, file, count_of(count)),
        None => lines(alloc, text),
    }
}

fn add_word(bytes: &mut Vec<u8>, word: &str) -> Result<(), NoMemory> {
    bytes.extend_from_slice(word.as_bytes())?;
    bytes.push(b' ')?;
    Ok(())
}

// Those of these words that came of one file, each with a space behind it.
fn add_words(bytes: &mut Vec<u8>, words: &str, file: u8) -> Result<(), NoMemory> {
    for word in words.split(' ') {
        if word.as_bytes().get(1) == Some(&file) {
            add_word(bytes, word)?;
        }
    }
    Ok(())
}

// What the destinations took, of each first what came of the first file, parted by a bar.
fn by_file(alloc: Global, taken: &str) -> Result<Vec<u8>, NoMemory> {
    let mut bytes = Vec::new(alloc);
    for frames in taken.split_terminator("| ") {
        add_words(&mut bytes, frames, b'a')?;
        add_words(&mut bytes, frames, b'b')?;
        bytes.extend_from_slice(b"| ")?;
    }
    Ok(bytes)
}

// What a destination takes of so many lines of a file.
fn add_lines(
    bytes: &mut Vec<u8>,
    alloc: Global,
    dest: u64,
    file: &str,
    count: u64,
) -> Result<(), NoMemory> {
    for k in 0..count {
        if k % 2 == dest {
            let word = format!(in alloc; "{dest}{file}{k} ")?;
            bytes.extend_from_slice(word.as_bytes())?;
        }
    }
    Ok(())
}

// What the destinations take of so many lines of each file.
fn all_lines(alloc: Global, count: u64) -> Result<Vec<u8>, NoMemory> {
    let mut bytes = Vec::new(alloc);
    for dest in 0..2u64 {
        add_lines(&mut bytes, alloc, dest, "a", count)?;
        add_lines(&mut bytes, alloc, dest, "b", count)?;
        bytes.extend_from_slice(b"| ")?;
    }
    Ok(bytes)
}

// What the destinations are to take, as `by_file` says it.
fn wanted(alloc: Global, frames: &str) -> Result<Vec<u8>, NoMemory> {
    match frames.strip_prefix("all ") {
        Some(count) => all_lines(alloc, count_of(count)),
        None => Ok(frames.as_bytes().to_vec(alloc)?),
    }
}

// Whether the destinations took what the row says.
fn took(alloc: Global, taken: &[u8], frames: &str) -> Result<bool, NoMemory> {
    let Ok(taken) = str::from_utf8(taken) else {
        return Ok(false);
    };
    let sorted = by_file(alloc, taken)?;
    let wanted = wanted(alloc, frames)?;
    Ok(sorted.trim_ascii() == wanted.trim_ascii())
}

fn came(alloc: Global, outcome: &FlowOutcome, row: &FlowRow<'_>) -> Result<bool, NoMemory> {
    let took = took(alloc, &outcome.frames, row.frames)?;
    Ok(took && outcome.end == row.end && outcome.has_positions(row.positions))
}

fn sum_of(words: &str) -> u64 {
    let mut sum = 0u64;
    for word in words.split(' ') {
        sum = sum.saturating_add(count_of(word));
    }
    sum
}

// Whether the watch saw the run to its end, where all that was kept was taken if nothing failed; a record of these rows is offered
// once. What fails in one turn alone may work again before the watch looks.
fn is_noted(noted: Noted, row: &FlowRow<'_>) -> bool {
    let whole = noted.kept == noted.taken && noted.kept == noted.records;
    let failed = noted.failed != row.fails.is_empty() || row.fails == "0";
    let stored = noted.stored == sum_of(row.positions) && noted.eased > 0;
    noted.last && noted.looks > 1 && failed && stored && (whole || !row.fails.is_empty())
}

fn runs<T: Threads + Wait + Eprint + Sync>(
    rt: &T,
    alloc: Global,
    row: &FlowRow<'_>,
    rounds: u64,
) -> Result<(FlowOutcome, Noted), NoMemory>
    requires some { 0 < rounds }
    requires most { rounds ≤ 1000 }
{
    let first = bytes_of(alloc, "a", row.first)?;
    let second = bytes_of(alloc, "b", row.second)?;
    let Prepared {
        core,
        sources,
        dests,
    } = prepare(alloc, row, first, second)?;
    let mut noted = Noted::new();
    let mut machine = machine(alloc);
    let served = serve(
        rt,
        alloc,
        core,
        sources,
        dests,
        rounds,
        &mut noted,
        &mut machine,
    );
    let outcome = finish(alloc, served)?;
    Ok((outcome, noted))
}

// Whether the run is that of the row.
fn shows<T: Threads + Wait + Eprint + Sync>(
    rt: &T,
    alloc: Global,
    row: &str,
) -> Result<bool, NoMemory> {
    let Some(row) = read_row(row) else {
        return Ok(false);
    };
    let Some(rounds) = rounds_of(row.rounds) else {
        return Ok(false);
    };
    let (outcome, noted) = runs(rt, alloc, &row, rounds)?;
    Ok(is_noted(noted, &row) && came(alloc, &outcome, &row)?)
}

#[test]
fn runs_end(rt: HostRuntime) -> Result<(), NoMemory> {
    for row in ROWS.lines() {
        assert!(rt; shows(&rt, rt.alloc(), row)?, "{row}");
    }
    Ok(())
}
