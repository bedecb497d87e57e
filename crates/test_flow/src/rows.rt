// The rows of tests of runs.
ghost use Rattle.std.specs.Prelude.{◌<◌, ◌≤◌, IfSome};

use sg_device::NoMemory;
use std::alloc::Global;

/// What a row says of a run of two files, its cells parted by `/`, behind what is shown: the texts of the
/// files; the sends and reopenings of the first destination that fail; whether it gives up; the rounds at
/// most; how the run ends; what each destination took; and the stored position of each file.
#[derive(Drop)]
pub struct FlowRow<'a> {
    pub first: &'a str,
    pub second: &'a str,
    pub fails: &'a str,
    pub gives_up: &'a str,
    pub rounds: &'a str,
    pub end: &'a str,
    pub frames: &'a str,
    pub positions: &'a str,
}

fn cell(row: &str, place: usize) -> &str {
    row.split('/').nth(place).unwrap_or("").trim()
}

fn cells_of(row: &str) -> FlowRow<'_> {
    FlowRow {
        first: cell(row, 1),
        second: cell(row, 2),
        fails: cell(row, 3),
        gives_up: cell(row, 4),
        rounds: cell(row, 5),
        end: cell(row, 6),
        frames: cell(row, 7),
        positions: cell(row, 8),
    }
}

fn are_numbers(words: &str) -> bool {
    for word in words.split_whitespace() {
        if word.parse::<u64>().is_err() {
            return false;
        }
    }
    true
}

/// Reads a row, or gives None where it isn't understood.
pub fn read_row(row: &str) -> Option<FlowRow<'_>> {
    let cells = cells_of(row);
    let known = cells.gives_up.is_empty() || cells.gives_up == "gives-up";
    if known && are_numbers(cells.fails) && row.split('/').count() == 9 {
        Some(cells)
    } else {
        None
    }
}

/// Numbers from words, of which each one is a number.
pub(crate) fn numbers(alloc: Global, words: &str) -> Result<Vec<u64>, NoMemory> {
    let mut numbers = Vec::new(alloc);
    for word in words.split_whitespace() {
        numbers.push(word.parse::<u64>().unwrap_or(0))?;
    }
    Ok(numbers)
}

/// A number of rounds, 1 to 1000.
pub fn rounds_of(word: &str) -> Option<u64>
    ensures some { IfSome result (λ rounds. 0 < rounds) }
    ensures most { IfSome result (λ rounds. rounds ≤ 1000) }
{
    match word.parse::<u64>() {
        Ok(rounds) if rounds > 0 && rounds <= 1000 => Some(rounds),
        _ => None,
    }
}

/// A text in which a line feed is written as `$`.
pub fn lines(alloc: Global, text: &str) -> Result<Vec<u8>, NoMemory> {
    let mut bytes = Vec::new(alloc);
    for byte in text.as_bytes() {
        bytes.push(if *byte == b'$' { b'\n' } else { *byte })?;
    }
    Ok(bytes)
}
