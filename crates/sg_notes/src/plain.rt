// Notes that show no other place.

use crate::limits::{limit_at, offers_limit, patterns_limit};
use crate::missing::missing_at;
use crate::ranges::{is_catchall, range_of};
use crate::remedies::{compared_remedy, quoted_remedy, remedy_at};
use sg_device::NoMemory;
use sg_hint::append_shown;
use sg_lex::{ConfigKind, Token};
use sg_listing::append_text;

// `    note: WORD AND WORDS`
fn append_words(word: &[u8], words: &[u8], out: &mut Vec<u8>) -> Result<(), NoMemory> {
    append_text(b"    note: ", out)?;
    append_shown(word, out)?;
    append_text(words, out)?;
    append_text(b"\n", out)?;
    Ok(())
}

fn append_range(tokens: &[Token], at: usize, out: &mut Vec<u8>) -> Result<(), NoMemory> {
    if is_catchall(tokens, at) {
        return append_words(
            b"catchall",
            b" is a flag of top-level log statements alone",
            out,
        );
    }
    if let Some((option, range)) = range_of(tokens, at) {
        append_text(b"    note: ", out)?;
        append_shown(option, out)?;
        append_words_behind(b" takes ", range, out)?;
    }
    Ok(())
}

fn append_words_behind(words: &[u8], told: &[u8], out: &mut Vec<u8>) -> Result<(), NoMemory> {
    append_text(words, out)?;
    append_text(told, out)?;
    append_text(b"\n", out)?;
    Ok(())
}

/// Appends `    instead of `WORD`: WORDS`.
pub fn append_remedy(word: &[u8], remedy: &[u8], out: &mut Vec<u8>) -> Result<(), NoMemory> {
    append_text(b"    instead of `", out)?;
    append_shown(word, out)?;
    append_words_behind(b"`: ", remedy, out)
}

fn append_missing(tokens: &[Token], at: usize, out: &mut Vec<u8>) -> Result<(), NoMemory> {
    match missing_at(tokens, at) {
        Some(words) => append_words(words, b"", out),
        None => Ok(()),
    }
}

fn append_remedy_at(tokens: &[Token], at: usize, out: &mut Vec<u8>) -> Result<(), NoMemory> {
    if let Some((word, remedy)) = compared_remedy(tokens, at) {
        return append_remedy(word, remedy, out);
    }
    match remedy_at(tokens, at) {
        Some((word, remedy)) => append_remedy(word, remedy, out),
        None => Ok(()),
    }
}

fn append_number_notes(tokens: &[Token], at: usize, out: &mut Vec<u8>) -> Result<(), NoMemory> {
    append_range(tokens, at, out)?;
    match quoted_remedy(tokens, at) {
        Some((word, remedy)) => append_remedy(word, remedy, out),
        None => Ok(()),
    }
}

/// Appends the notes on a fault of this kind whose token has this place, but those that show another place.
pub fn append_plain(
    tokens: &[Token],
    kind: ConfigKind,
    at: usize,
    out: &mut Vec<u8>,
) -> Result<(), NoMemory> {
    match kind {
        ConfigKind::BadValue => append_range(tokens, at, out),
        ConfigKind::BadNumber => append_number_notes(tokens, at, out),
        ConfigKind::MissingOption => append_missing(tokens, at, out),
        ConfigKind::Unsupported => append_remedy_at(tokens, at, out),
        ConfigKind::Function => append_remedy(b"$(..)", b"nothing", out),
        ConfigKind::Limit => append_words(limit_at(tokens, at), b"", out),
        ConfigKind::TooManyOffers => append_words(offers_limit(), b"", out),
        ConfigKind::PatternTooLarge => append_words(patterns_limit(), b"", out),
        _ => Ok(()),
    }
}
