// How long values may become, how many pairs there may be, and which patterns are refused.
use crate::messages::{message_without_pairs, set};
use crate::ops::{LINE, checked_op, op_of, rewrite_of};
use sg_msg::Message;
use sg_pattern::{BuildRefusal, Patterns};
use sg_rewrite::{Op, Rewrite};
use std::alloc::{AllocError, Global};
use std::test::Fail;

// A value of so many bytes.
fn long_value(alloc: Global, length: usize) -> Result<Vec<u8>, AllocError> {
    let mut value = Vec::new(alloc);
    for _ in 0..length {
        value.push(b'a')?;
    }
    Ok(value)
}

// A message of one pair with a value of 600,000 bytes.
fn long_message(alloc: Global) -> Option<Message> {
    let Ok(value) = long_value(alloc, 600_000) else {
        return None;
    };
    let Some(mut message) = message_without_pairs(alloc, 13) else {
        return None;
    };
    if set(&mut message, b"k", &value) {
        Some(message)
    } else {
        None
    }
}

// The length of the pair's value after the rewrite.
fn length_after(
    alloc: Global,
    rewrite: &mut Rewrite,
    message: &mut Message,
) -> Result<usize, AllocError> {
    rewrite.apply(alloc, message)?;
    match message.get(b"k") {
        Some(value) => Ok(value.len()),
        None => Ok(0),
    }
}

// The length after the rewrite of another handle of the message.
fn other_length(
    alloc: Global,
    rewrite: &mut Rewrite,
    message: &Message,
) -> Result<usize, AllocError> {
    let mut other = message.share()?;
    length_after(alloc, rewrite, &mut other)
}

// How many bytes the rewrite makes of the pair's value.
fn length_of(
    alloc: Global,
    message: &Message,
    words: &str,
    pattern: &str,
    text: &str,
) -> Option<usize> {
    let mut made = rewrite_of(alloc, words, "k", pattern, text);
    match &mut made {
        Some(rewrite) => other_length(alloc, rewrite, message).ok(),
        None => None,
    }
}

// The rewrite, its pattern and its template, and how many bytes it makes of 600,000.
const LENGTHS: [(&str, &str, &str, usize); 4] = [
    ("set", "", "${k}${k}", 1_048_576),
    ("groupset", "", "$_$_", 1_048_576),
    ("regex g", "a", "bb", 1_048_576),
    ("text sg", "aa", "b", 300_000),
];

// The words of the first row that doesn't hold; empty where each does.
fn wrong_length(alloc: Global, message: &Message) -> &'static str {
    for (words, pattern, text, length) in LENGTHS {
        if length_of(alloc, message, words, pattern, text) != Some(length) {
            return words;
        }
    }
    ""
}

#[test]
fn lengths(rt: HostRuntime) -> Result<(), Fail> {
    let message = long_message(rt.alloc()).ok_or("no message")?;
    assert_eq!(rt; wrong_length(rt.alloc(), &message), "");
    Ok(())
}

// Sets the pair `n` with this number behind it. Says whether it could.
fn set_numbered(alloc: Global, message: &mut Message, place: usize) -> bool {
    match format!(in alloc; "n{place}") {
        Ok(name) => set(message, name.as_bytes(), b"v"),
        Err(_) => false,
    }
}

fn set_many(alloc: Global, message: &mut Message) -> bool {
    for place in 0..1000 {
        if !set_numbered(alloc, message, place) {
            return false;
        }
    }
    true
}

// The pairs `n0` to `n999` and a tag more, and how many pairs the rewrite leaves, where the tag is.
fn pairs_after(alloc: Global, rewrite: &mut Rewrite, message: &mut Message) -> Option<usize> {
    if !set_many(alloc, message) || message.set_tag(b"red").is_err() {
        return None;
    }
    if rewrite.apply(alloc, message).is_err() {
        return None;
    }
    match message.tag(0) {
        Some(_) => Some(message.pair_count()),
        None => None,
    }
}

fn pairs_of_many(alloc: Global, rewrite: &mut Rewrite) -> Option<usize> {
    let mut made = message_without_pairs(alloc, 13);
    match &mut made {
        Some(message) => pairs_after(alloc, rewrite, message),
        None => None,
    }
}

// How many pairs are left of 1,000 without those whose names match.
fn left_without(alloc: Global, glob: &str) -> Option<usize> {
    let mut made = rewrite_of(alloc, "groupunset", glob, "", "");
    match &mut made {
        Some(rewrite) => pairs_of_many(alloc, rewrite),
        None => None,
    }
}

// Why a rewrite isn't made, and the count of patterns that were too large.
fn refusal_by(alloc: Global, op: &Op) -> (Option<BuildRefusal>, u64) {
    let Some(()) = checked_op(op) else {
        return (None, 0);
    };
    let mut patterns = Patterns::new(alloc);
    let refusal = Rewrite::new(alloc, &mut patterns, op).err();
    (refusal, patterns.too_large)
}

// Why a pattern is refused, and the count of those that were too large.
fn refusal_of(alloc: Global, pattern: &str) -> (Option<BuildRefusal>, u64) {
    let made = op_of(alloc, "regex -", "k", pattern, "");
    match &made {
        Some(op) => refusal_by(alloc, op),
        None => (None, 0),
    }
}

#[test]
fn limits(rt: HostRuntime) {
    assert_eq!(rt; left_without(rt.alloc(), "*0"), Some(900));
    let bad = refusal_of(rt.alloc(), "a(");
    assert!(rt; bad == (Some(BuildRefusal::BadPattern(LINE)), 0));
    let large = refusal_of(rt.alloc(), "(\\w{1000}){1000}");
    assert!(rt; large == (Some(BuildRefusal::TooLarge(LINE)), 1));
}
