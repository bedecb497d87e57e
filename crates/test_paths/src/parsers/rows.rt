// Rows as they are written.
use std::alloc::{AllocError, Global};

#[derive(Drop)]
pub(crate) struct ParserRow<'r> {
    pub(crate) is_csv: bool,
    pub(crate) count: u32,
    pub(crate) greedy: bool,
    pub(crate) drop_invalid: bool,
    // the delimiters, or the pair separator
    pub(crate) between: &'r str,
    // the columns, or the value separator
    pub(crate) names: &'r str,
    pub(crate) prefix: &'r str,
    pub(crate) text: &'r str,
}

// What stands before the parts.
#[derive(Drop)]
struct Head {
    is_csv: bool,
    count: u32,
    greedy: bool,
    drop_invalid: bool,
}

fn kind_of(word: &str) -> Option<bool> {
    match word {
        "csv" => Some(true),
        "kv" => Some(false),
        _ => None,
    }
}

// Whether each letter is that of a flag.
fn are_flags(word: &str) -> bool {
    for letter in word.chars() {
        if !(letter == 'g' || letter == 'd' || letter == '-') {
            return false;
        }
    }
    true
}

// How often the text stands there, and the flags.
fn count_of(words: &str) -> Option<(u32, &str)> {
    let Some((number, flags)) = words.split_once(' ') else {
        return Some((1, words));
    };
    match number.parse::<u32>() {
        Ok(count) => Some((count, flags)),
        Err(_) => None,
    }
}

fn head_of(words: &str) -> Option<Head> {
    let Some((kind, rest)) = words.split_once(' ') else {
        return None;
    };
    let (Some(is_csv), Some((count, flags))) = (kind_of(kind), count_of(rest)) else {
        return None;
    };
    if !are_flags(flags) {
        return None;
    }
    Some(Head {
        is_csv,
        count,
        greedy: flags.contains('g'),
        drop_invalid: flags.contains('d'),
    })
}

// The first two parts of a row behind its head, and the rest.
fn parts_of(rest: &str) -> Option<(&str, &str, &str)> {
    let Some((between, rest)) = rest.split_once(" ~ ") else {
        return None;
    };
    match rest.split_once(" ~ ") {
        Some((names, rest)) => Some((between, names, rest)),
        None => None,
    }
}

fn row_of<'r>(head: Head, parts: &'r str) -> Option<ParserRow<'r>> {
    let Some((between, names, rest)) = parts_of(parts) else {
        return None;
    };
    match rest.split_once(" ~ ") {
        Some((prefix, text)) => Some(ParserRow {
            is_csv: head.is_csv,
            count: head.count,
            greedy: head.greedy,
            drop_invalid: head.drop_invalid,
            between,
            names,
            prefix,
            text,
        }),
        None => None,
    }
}

pub(crate) fn read_row(line: &str) -> Option<ParserRow<'_>> {
    let Some((words, rest)) = line.split_once(" ~ ") else {
        return None;
    };
    match head_of(words) {
        Some(head) => row_of(head, rest),
        None => None,
    }
}

fn put_piece(alloc: Global, text: &[u8], number: u32, out: &mut Vec<u8>) -> Result<(), AllocError> {
    for byte in text {
        if *byte == b'%' {
            let digits = format!(in alloc; "{number}")?;
            out.extend_from_slice(digits.as_bytes())?;
        } else {
            out.push(*byte)?;
        }
    }
    Ok(())
}

pub(crate) fn text_of(alloc: Global, row: &ParserRow<'_>) -> Result<Vec<u8>, AllocError> {
    let mut text = Vec::new(alloc);
    if row.count == 1 {
        text.extend_from_slice(row.text.as_bytes())?;
        return Ok(text);
    }
    for number in 0..row.count {
        put_piece(alloc, row.text.as_bytes(), number, &mut text)?;
    }
    Ok(text)
}
