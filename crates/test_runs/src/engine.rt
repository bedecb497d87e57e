// Runs of two sources and two destinations.
ghost use Rattle.std.specs.Prelude.{◌<◌, ◌≤◌};

use sg_device::NoMemory;
use sg_engine::serve;
use std::alloc::Global;
use std::sync::Wait;
use test_flow::{FlowOutcome, FlowRow, Prepared, finish, lines, prepare, read_row, rounds_of};

// What is shown; the bytes of each of two files, a line feed written as $; the sends and reopenings of the
// first destination that fail, counted from 0; whether it gives up; the rounds at most; and how the run
// ends, what each destination took, and the stored position of each file. A line that begins with 1 goes
// to the second destination.
const ROWS: &str = "\
each line to its destination / 0a$1b$ / 1c$0d$ / / / 20 / quiet / 0a 0d | 1b 1c | / 6 6
two empty files / / / / / 20 / quiet / | | / 0 0
one file is empty / / 0a$ / / / 20 / quiet / 0a | | / 0 3
an open last line stays / 0a$0b / / / / 20 / quiet / 0a | | / 3 0
one round / 0a$1b$ / 1c$0d$ / / / 1 / spent / 0a 0d | 1b 1c | / 0 0
a send that fails once / 0a$1b$ / 1c$0d$ / 0 / / 20 / quiet / 0a 0d | 1b 1c | / 6 6
a destination that is given up / 0a$1b$ / 1c$0d$ / 0 1 2 / gives-up / 20 / quiet / | 1b 1c | / 0 3
a destination that fails for ever / 0a$ / 1c$ / 0 1 2 3 4 5 6 7 8 9 / / 8 / spent / | 1c | / 0 3";

// Whether the run came to what the row says.
fn came(outcome: &FlowOutcome, row: &FlowRow<'_>) -> bool {
    outcome.end == row.end
        && outcome.frames.trim_ascii() == row.frames.as_bytes()
        && outcome.has_positions(row.positions)
}

fn runs<T: Wait>(
    rt: &T,
    alloc: Global,
    row: &FlowRow<'_>,
    rounds: u64,
) -> Result<FlowOutcome, NoMemory>
    requires some { 0 < rounds }
    requires most { rounds ≤ 1000 }
{
    let first = lines(alloc, row.first)?;
    let second = lines(alloc, row.second)?;
    let Prepared {
        core,
        sources,
        dests,
    } = prepare(alloc, row, first, second)?;
    let served = serve(rt, alloc, core, sources, dests, rounds);
    Ok(finish(alloc, served)?)
}

// Whether the run is that of the row.
fn shows<T: Wait>(rt: &T, alloc: Global, row: &str) -> Result<bool, NoMemory> {
    let Some(row) = read_row(row) else {
        return Ok(false);
    };
    let Some(rounds) = rounds_of(row.rounds) else {
        return Ok(false);
    };
    let outcome = runs(rt, alloc, &row, rounds)?;
    Ok(came(&outcome, &row))
}

#[test]
fn runs_end(rt: HostRuntime) -> Result<(), NoMemory> {
    for row in ROWS.lines() {
        assert!(rt; shows(&rt, rt.alloc(), row)?, "{row}");
    }
    Ok(())
}
