//! Says what comes of the texts of configurations, one for each line of standard input. The line's first word tells what
//! is asked of the text behind it:
//!
//! - `parse`: the statement at its front and how many tokens that has, or its fault.
//! - `driver`: of each driver its fault, or what its options make of it.
//! - `forest`: the log paths. Each driver of a source is one inlet.
//! - `lower`: what the filters and rewrites are meant to be.
//! - `resolve`: what is wrong, or how many statements of each kind there are.
//! - `plan`: the inlets, the outlets and the stores.
//! - `load`: the inlets, outlets and stores, and the log paths in short; or what is wrong.
//!
//! For the end of a line stands a `|` behind `forest`, `lower` and `load`, and a blank behind the others, so that the number
//! of a fault's line is that of its word. A text `COUNT HEAD|PIECE|TAIL` that begins with a number stands for one of that many
//! pieces, in each of which `%` is its number and `^` the next one. Of such a text `parse` says the end alone, and a blank
//! stays one.
#![tactic(auto)]

ghost use Rattle.std.specs.Prelude.{◌<◌, ◌^◌, length};

mod driver;
mod forest;
mod load;
mod lower;
mod parse;
mod plan;
mod resolve;
mod rows;
mod text;

use rows::{Area, ConfigurationRow, read_row};
use sg_lex::{TEXT_LIMIT, Token, tokens};
use sg_parse_text::{Statement, statements};
use std::alloc::Global;
use std::io;
use text::copied;

fn of_statements(alloc: Global, area: Area, all: &[Statement]) -> io::Result<Vec<u8>> {
    if all.len() > u32::MAX as usize {
        return copied(alloc, b"too many");
    }
    match area {
        Area::Forest => forest::answer(alloc, all),
        Area::Lower => lower::answer(alloc, all),
        _ => plan::answer(alloc, all),
    }
}

fn of_text(alloc: Global, area: Area, tokens: &[Token]) -> io::Result<Vec<u8>>
    requires { length tokens.now < 2 ^ 32 }
{
    let read = statements(alloc, tokens);
    match &read {
        Ok(found) => of_statements(alloc, area, found.as_slice()),
        Err(_) => copied(alloc, b"no configuration"),
    }
}

fn of_tokens(alloc: Global, area: Area, is_long: bool, tokens: &[Token]) -> io::Result<Vec<u8>> {
    if tokens.len() > u32::MAX as usize {
        return copied(alloc, b"too many");
    }
    match area {
        Area::Parse => parse::answer(alloc, tokens, !is_long),
        Area::Driver => driver::answer(alloc, tokens),
        Area::Resolve => resolve::answer(alloc, tokens),
        Area::Load => load::answer(alloc, tokens),
        Area::Forest | Area::Lower | Area::Plan => of_text(alloc, area, tokens),
    }
}

fn of_row(alloc: Global, row: &ConfigurationRow) -> io::Result<Vec<u8>> {
    if row.text.len() > TEXT_LIMIT {
        return copied(alloc, b"too long");
    }
    let read = tokens(alloc, 0, &row.text);
    match &read {
        Ok(found) => of_tokens(alloc, row.area, row.is_long, found),
        Err(_) => copied(alloc, b"no tokens"),
    }
}

// What a line of standard input comes to.
fn answer(alloc: Global, line: &str) -> io::Result<Vec<u8>> {
    let read = read_row(alloc, line)?;
    match &read {
        Some(row) => of_row(alloc, row),
        None => copied(alloc, b"not understood"),
    }
}

fn main(rt: HostRuntime) -> io::Result<()> {
    let alloc = rt.alloc();
    for line in rt.lines(alloc) {
        let said = answer(alloc, line?.as_str())?;
        println!(rt; "{}", said.escape_ascii())?;
    }
    Ok(())
}
