// Runs that tell their counts while they go on.
use crate::answer::answer;
use crate::failing::fail_all;
use crate::machine::{add_file, with_files};
use sg_world::MemoryMachine;
use std::alloc::{AllocError, Global};
use std::sync::Wait;
use std::test::Fail;
use std::thread::Threads;

// A row, its cells parted by `/`: options; flags of the log path; how many lines of four bytes come in, one in each round; the calls
// that fail, among them the rounds before which a look is due; how the run is bounded; the exit status; and what is told, with `@` for
// the moment, `~` for LF, `s` for the words of a source, and `d` for those of a destination. Behind the last round one look more is
// told where counts are asked for. A position is stored in a round in which the source does nothing else.
const ROWS: &str = "\
stats(freq(1)); / flow-control / 5 / due 0 / --once / 0 / s 0 bad-frames 0 position 0~d 0 dropped-full 0 left 0~s 5 bad-frames 0 position 20~d 5 dropped-full 0 left 0~
stats-freq(30); / flow-control / 5 / due 2 / --once / 0 / s 2 bad-frames 0 position 0~d 2 dropped-full 0 left 0~s 5 bad-frames 0 position 20~d 5 dropped-full 0 left 0~
stats(level(2) freq(9)); stats_freq(7); / flow-control / 1 / say 9 / --once / 0 / s 1 bad-frames 0 position 4~d 1 dropped-full 0 left 0~
stats-freq(7); stats(freq(0)); / flow-control / 5 / due 0 1 2 / --once / 0 /
stats(level(2)); / flow-control / 5 / due 0 1 2 / --once / 0 /
log-fifo-size(2); / / 5 / due 0 1 2 3 4 5 6 7, send 0 1 2 / --once / 6 / d 0 dropped-full 1 left 2 oldest 0 fails-since @~d 0 dropped-full 2 left 2 oldest 0 fails-since @~d 0 dropped-full 3 left 2 oldest 0 fails-since @~
log-fifo-size(2); stats(freq(5)); / / 5 / due 1, send 0 / --once / 0 / s 1 bad-frames 0 position 0~d 0 dropped-full 0 left 1 oldest 0 fails-since @~s 5 bad-frames 0 position 20~d 5 dropped-full 0 left 0~
stats(freq(1)); / flow-control / 120 / due 101, send 0 1 2 / --once / 6 / s 100 bad-frames 0 position 0~d 0 dropped-full 0 left 100 oldest 0 fails-since @~s 100 bad-frames 0 position 0 window full~d 0 dropped-full 0 left 100 oldest 0 fails-since @~
stats(freq(0)); / flow-control / 120 / due 100 101, sends 0 / --rounds 104 / 9 /
stats(freq(0)); / flow-control / 120 / due 101 102, sends 0 / --rounds 104 / 9 / s 100 bad-frames 0 position 0 window full~
";

const MOMENT: &str = "2026-02-05T17:32:21+00:00";

// What a row has at a place.
fn cell(row: &str, place: usize) -> &str {
    row.split('/').nth(place).unwrap_or("").trim()
}

// What a letter of a row stands for, behind a line's beginning or a space.
fn long(word: &str) -> &str {
    match word {
        "@" => MOMENT,
        "s" => "2026-02-05T17:32:21+00:00 source 0 records",
        "d" => "2026-02-05T17:32:21+00:00 destination 0 taken",
        "left" => "dropped-disk 0 left",
        word => word,
    }
}

fn append_line(line: &str, text: &mut Vec<u8>) -> Result<(), AllocError> {
    for (at, word) in line.split(' ').enumerate() {
        if at > 0 {
            text.push(b' ')?;
        }
        text.extend_from_slice(long(word).as_bytes())?;
    }
    text.push(b'\n')?;
    Ok(())
}

fn text_of(alloc: Global, told: &str) -> Result<Vec<u8>, AllocError> {
    let mut text = Vec::new(alloc);
    for line in told.split_terminator('~') {
        append_line(line, &mut text)?;
    }
    Ok(text)
}

fn config(alloc: Global, options: &str, flags: &str) -> Result<Vec<u8>, AllocError> {
    let config = format!(in alloc;
        "@version: 4.2\noptions {{ {options} }};\nlog {{ source {{ file(\"in\" flags(no-parse)); }}; destination {{ file(\"out\" template(\"$MSG\\n\")); }}; flags({flags}); }};\n"
    )?;
    Ok(config.into_bytes())
}

fn lines(alloc: Global, count: &str) -> Result<Vec<u8>, AllocError> {
    let mut lines = Vec::new(alloc);
    for _line in 0..count.parse().unwrap_or(0u32) {
        lines.extend_from_slice(b"row\n")?;
    }
    Ok(lines)
}

fn machine(alloc: Global, row: &str) -> Result<MemoryMachine, AllocError> {
    let mut files = Vec::new(alloc);
    let config = config(alloc, cell(row, 0), cell(row, 1))?;
    add_file(alloc, b"c", &config, &mut files)?;
    let lines = lines(alloc, cell(row, 2))?;
    add_file(alloc, b"in", &lines, &mut files)?;
    Ok(with_files(alloc, files))
}

// Whether the run of a row ends as it says, and tells what it says.
fn holds<T: Threads + Wait + Eprint + Sync>(
    rt: &T,
    alloc: Global,
    row: &str,
) -> Result<bool, Fail> {
    let mut machine = machine(alloc, row)?;
    fail_all(alloc, cell(row, 3), &mut machine.world)?;
    let command = format!(in alloc; "run c {}", cell(row, 4))?;
    let answer = answer(rt, alloc, &command, &mut machine)?;
    let told = text_of(alloc, cell(row, 6))?;
    Ok(answer.starts_with(cell(row, 5).as_bytes()) && machine.world.hints() == told.as_slice())
}

#[test]
fn counts_while_a_run_goes_on(rt: HostRuntime) -> Result<(), Fail> {
    for row in ROWS.lines() {
        assert!(rt; holds(&rt, rt.alloc(), row)?, "{row}");
    }
    Ok(())
}
