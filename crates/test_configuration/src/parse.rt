// The statement at the front of a text.
ghost use Rattle.std.specs.Prelude.{◌<◌, ◌^◌, length};

mod paths;
mod say;

use crate::text::{copied, put_number};
use sg_device::NoMemory;
use sg_lex::Token;
use sg_parse_base::is_keyword;
use sg_parse_obj::{Object, ParseRefusal, statement};
use sg_parse_path::{RawLog, log_statement};
use std::alloc::Global;
use std::io;

fn refused(alloc: Global, refusal: &ParseRefusal) -> io::Result<Vec<u8>> {
    let mut out = Vec::new(alloc);
    match refusal {
        ParseRefusal::Bad(fault) => say::fault(alloc, &mut out, fault)?,
        ParseRefusal::NoMemory => out.extend_from_slice(b"no memory")?,
    }
    Ok(out)
}

fn put_log(out: &mut Vec<u8>, log: &RawLog, whole: bool) -> Result<(), NoMemory> {
    if whole {
        paths::log(out, log)?;
        out.push(b' ')?;
    }
    Ok(())
}

fn log_text(alloc: Global, log: &RawLog, whole: bool, end: usize) -> io::Result<Vec<u8>> {
    let mut out = Vec::new(alloc);
    put_log(&mut out, log, whole)?;
    put_number(alloc, &mut out, b"", end as u64)?;
    Ok(out)
}

fn parsed_log(alloc: Global, tokens: &[Token], whole: bool) -> io::Result<Vec<u8>>
    requires { (0 < length tokens.now) × (length tokens.now < 2 ^ 32) }
{
    let read = log_statement(alloc, tokens, 0);
    match &read {
        Ok((log, end)) => log_text(alloc, log, whole, *end),
        Err(refusal) => refused(alloc, refusal),
    }
}

fn put_object(out: &mut Vec<u8>, object: &Object, whole: bool) -> Result<(), NoMemory> {
    if whole {
        say::object(out, object)?;
        out.push(b' ')?;
    }
    Ok(())
}

fn object_text(alloc: Global, object: &Object, whole: bool, end: usize) -> io::Result<Vec<u8>> {
    let mut out = Vec::new(alloc);
    put_object(&mut out, object, whole)?;
    put_number(alloc, &mut out, b"", end as u64)?;
    Ok(out)
}

fn parsed_statement(alloc: Global, tokens: &[Token], whole: bool) -> io::Result<Vec<u8>>
    requires { (0 < length tokens.now) × (length tokens.now < 2 ^ 32) }
{
    let read = statement(alloc, tokens, 0);
    match &read {
        Ok((object, end)) => object_text(alloc, object, whole, *end),
        Err(refusal) => refused(alloc, refusal),
    }
}

/// What stands at the front of these tokens.
pub(crate) fn answer(alloc: Global, tokens: &[Token], whole: bool) -> io::Result<Vec<u8>>
    requires { length tokens.now < 2 ^ 32 }
{
    if tokens.is_empty() {
        return copied(alloc, b"nothing");
    }
    if is_keyword(&tokens[0], b"log") {
        return parsed_log(alloc, tokens, whole);
    }
    parsed_statement(alloc, tokens, whole)
}
