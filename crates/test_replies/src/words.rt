// The words of calls.

/// The number of a word, 2^32 - 1 where it is none.
pub fn number(word: Option<&str>) -> u32 {
    match word {
        Some(word) => word.parse().unwrap_or(u32::MAX),
        None => u32::MAX,
    }
}

// Whether these are so many numbers.
fn are_numbers(text: &str, count: usize) -> bool {
    for word in text.split(',') {
        if word.parse::<u32>().is_err() {
            return false;
        }
    }
    text.split(',').count() == count
}

fn is_size(word: &str) -> bool {
    match word.parse::<u32>() {
        Ok(size) => size <= 1 << 30,
        Err(_) => false,
    }
}

// Whether it is one of so many destinations, at most ten, by its number.
fn is_dest(word: &str, dests: u32) -> bool {
    match word.parse::<u32>() {
        Ok(dest) => word.len() == 1 && dest < dests,
        Err(_) => false,
    }
}

// Whether it is the end of a record, or an offer.
fn is_entry(word: &str, dests: u32) -> bool {
    if let Some(end) = word.strip_prefix('r') {
        return are_numbers(end, 1);
    }
    let Some(offer) = word.strip_prefix('d') else {
        return false;
    };
    match offer.split_once(if offer.contains('f') { 'f' } else { 'n' }) {
        Some((dest, size)) => is_dest(dest, dests) && is_size(size),
        None => false,
    }
}

// Whether these are records, the first one first.
fn are_records(text: &str, dests: u32) -> bool {
    for word in text.split_whitespace() {
        if !is_entry(word, dests) {
            return false;
        }
    }
    text.starts_with('r')
}

/// Whether these words are a call on a core of so many destinations. `a0` is an admit of source 0, behind which stand `r9`, a record that
/// ends at 9, and `d0f100`, its offer to destination 0 with flow-control (`n` without) of 100 encoded bytes; `f0,5` the front of destination
/// 0, at most 5 entries; `s0,1,2` settles 2 from place 1 on; `m0` is a refill, `p0` stores the position of source 0, `c0` asks for its credit.
pub fn is_call(text: &str, dests: u32) -> bool {
    let (first, rest) = text.split_once(' ').unwrap_or((text, ""));
    let (letter, numbers) = first.split_at_checked(1).unwrap_or(("", ""));
    match letter {
        "a" => are_numbers(numbers, 1) && are_records(rest, dests),
        "m" => are_numbers(numbers, 1) && rest.is_empty(),
        "p" => are_numbers(numbers, 1) && rest.is_empty(),
        "c" => are_numbers(numbers, 1) && rest.is_empty(),
        "f" => are_numbers(numbers, 2) && rest.is_empty(),
        "s" => are_numbers(numbers, 3) && rest.is_empty(),
        _ => false,
    }
}
