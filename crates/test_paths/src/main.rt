//! Says what log paths and parsers make of records, one row of standard input after the other. The first word of a row
//! tells its kind:
//!
//! - `paths ..`: what log paths offer for records, as is said below.
//! - `parsers ..`: what a parser makes of a message: the module `parsers` says how they are written.
//!
//! A row of `paths` has log paths, the number of an inlet, and records with `|` between them, each after `~`; an
//! offer is said as its destination, `w` where it is flow-controlled, `=` and MESSAGE. They are those of the tree, and
//! those of its table where these are others.
//!
//! Paths are said part after part, with `;` between them:
//! - `has TEXT`, `is N`, `tagged TAG`: a filter; the message contains the text, meets what the filter of that
//!   number asks (0: contains a, 1: contains z), or has the tag
//! - `set TEXT`: a rewrite that makes MESSAGE the text; `when TEXT NEW`: one that makes it the new text where
//!   it contains the text
//! - `columns NAMES`: a parser of as many fields with `,` between them, which refuses others
//! - `keys PREFIX`: a parser of key=value pairs, whose names it puts the prefix before; `-` is none
//! - `to D..`: destinations
//! - `channel N FLAGS`: a channel of the last N elements
//! - `log SOURCES N E FLAGS`: a statement of the last N elements, behind which the last E statements are
//!   embedded; `-` names no source
//! - `junction N`: of the last N channels
//! - `if TEXT N`, `else TEXT N M`: the last N elements where the message contains the text, and else the last
//!   M, which stand behind them; `first TEXT N`: the last N before the last `if` as its first branch, where the
//!   message contains the text
//!
//! Flags are f for final, b for fallback, c for catchall, w for flow-control, d for drop-unmatched, and - for
//! none. There are three destinations. Inlet 2 takes empty lines, inlet 3 reads RFC 5424 and tags with t, and inlet 4
//! makes one line of MESSAGE. In records `\n`, `\r` and `\0` stand for LF, CR and NUL.
#![tactic(auto)]

mod applied;
mod forest;
mod gone;
mod inlets;
mod offers;
mod parsers;
mod plain;
mod rules;
mod table;
mod walk;

use sg_tree::{Forest, PathRefusal};
use std::alloc::{AllocError, Global};
use std::io;

pub(crate) fn copied(alloc: Global, text: &[u8]) -> Result<Vec<u8>, AllocError> {
    Vec::from_slice(alloc, text)
}

fn refused(alloc: Global, refusal: &PathRefusal) -> Result<Vec<u8>, AllocError> {
    match refusal {
        PathRefusal::BadPattern(_) => copied(alloc, b"no pattern"),
        PathRefusal::PatternTooLarge(_) => copied(alloc, b"too large"),
        PathRefusal::TooManyOffers(_) => copied(alloc, b"too many offers"),
        PathRefusal::NoMemory => Err(AllocError),
    }
}

fn offered(
    alloc: Global,
    forest: &Forest,
    inlet: u32,
    records: &str,
) -> Result<Vec<u8>, AllocError> {
    if inlet as usize >= forest.inlets.len() {
        return copied(alloc, b"no such inlet");
    }
    let mut made = table::pipes(alloc, forest, inlet);
    match &mut made {
        Ok(Some(pipes)) => offers::said(alloc, forest, pipes, inlet, records),
        Ok(None) => copied(alloc, b"no such destination"),
        Err(refusal) => refused(alloc, refusal),
    }
}

// What log paths offer for records.
fn told(alloc: Global, parts: &str, inlet: u32, records: &str) -> Result<Vec<u8>, AllocError> {
    let read = forest::read(alloc, parts)?;
    match &read {
        Some(forest) => offered(alloc, forest, inlet, records),
        None => copied(alloc, b"not understood"),
    }
}

// What log paths, an inlet and records come to.
fn of_paths(alloc: Global, row: &str) -> Result<Vec<u8>, AllocError> {
    let Some((parts, rest)) = row.split_once(" ~ ") else {
        return copied(alloc, b"no paths");
    };
    let Some((inlet, records)) = rest.split_once(" ~ ") else {
        return copied(alloc, b"no inlet");
    };
    match inlet.parse::<u32>() {
        Ok(inlet) => told(alloc, parts, inlet, records),
        Err(_) => copied(alloc, b"no inlet"),
    }
}

// What a line of standard input comes to.
fn answer(alloc: Global, line: &str) -> Result<Vec<u8>, AllocError> {
    let (kind, row) = line.split_once(' ').unwrap_or((line, ""));
    match kind {
        "paths" => of_paths(alloc, row),
        "parsers" => parsers::answer(alloc, row),
        _ => copied(alloc, b"no such row"),
    }
}

fn main(rt: HostRuntime) -> io::Result<()> {
    let alloc = rt.alloc();
    for line in rt.lines(alloc) {
        let said = answer(alloc, line?.as_str())?;
        println!(rt; "{}", said.escape_ascii())?;
    }
    Ok(())
}
