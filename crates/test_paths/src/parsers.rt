//! What parsers make of messages. A row has a parser and a text, its parts after `~`:
//! - `csv FLAGS ~ DELIMITERS ~ COLUMNS ~ PREFIX ~ TEXT`: the flags are g for greedy, d for drop-invalid, and - for
//!   none; the columns stand with `,` between them
//! - `kv - ~ PAIR-SEPARATOR ~ VALUE-SEPARATOR ~ PREFIX ~ TEXT`
//!
//! A number before the flags is how often the text stands behind itself, with each `%` as the number of the piece; of
//! such a text only the number of pairs and the lengths of their values are said. The message has the pairs HOST, h, and
//! OLD, o, and MESSAGE, the text. What is said of it are its pairs but for MESSAGE where that is still the text, each as
//! its name and in brackets its value.

mod making;
mod messages;
mod rows;

use crate::copied;
use messages::{message_of, pairs_said, sums_said};
use rows::{ParserRow, read_row, text_of};
use sg_msg::Message;
use sg_parsers::ParserRule;
use std::alloc::{AllocError, Global};

fn said(
    alloc: Global,
    row: &ParserRow<'_>,
    text: &[u8],
    message: &Message,
    taken: bool,
) -> Result<Vec<u8>, AllocError> {
    let mut out = Vec::new(alloc);
    if !taken {
        out.extend_from_slice(b"refused ")?;
    }
    if row.count == 1 {
        pairs_said(message, text, &mut out)?;
    } else {
        sums_said(alloc, message, &mut out)?;
    }
    Ok(out)
}

fn applied(
    alloc: Global,
    row: &ParserRow<'_>,
    text: &[u8],
    rule: &ParserRule,
) -> Result<Vec<u8>, AllocError> {
    let mut message = message_of(alloc, text)?;
    let other = message.share()?;
    let taken = rule.apply(alloc, &mut message)?;
    if other.pair_count() != 3 {
        return copied(alloc, b"the other handle changed");
    }
    said(alloc, row, text, &message, taken)
}

fn told(alloc: Global, row: &ParserRow<'_>) -> Result<Vec<u8>, AllocError> {
    let text = text_of(alloc, row)?;
    let made = making::rule(alloc, row)?;
    match &made {
        Some(rule) => applied(alloc, row, &text, rule),
        None => copied(alloc, b"no parser"),
    }
}

/// What a row comes to.
pub(crate) fn answer(alloc: Global, line: &str) -> Result<Vec<u8>, AllocError> {
    let read = read_row(line);
    match &read {
        Some(row) => told(alloc, row),
        None => copied(alloc, b"not understood"),
    }
}
