// What is wrong with a configuration.
ghost use Rattle.std.specs.Prelude.{◌<◌, ◌^◌, length};

use crate::text::{copied, fault, put_number};
use sg_device::NoMemory;
use sg_fault::fault_at;
use sg_lex::Token;
use sg_names::{Names, names_of};
use sg_parse_obj::ParseRefusal;
use sg_parse_text::{Statement, statements};
use sg_resolve::first_fault;
use std::alloc::Global;
use std::io;

fn put_counts(alloc: Global, out: &mut Vec<u8>, names: &Names) -> Result<(), NoMemory> {
    put_number(alloc, out, b"ok ", u64::from(names.sources.count))?;
    put_number(alloc, out, b" ", u64::from(names.destinations.count))?;
    put_number(alloc, out, b" ", u64::from(names.filters.count))?;
    put_number(alloc, out, b" ", u64::from(names.rewrites.count))?;
    put_number(alloc, out, b" ", u64::from(names.templates.count))
}

// How many statements of each kind there are.
fn counted(alloc: Global, statements: &[Statement]) -> io::Result<Vec<u8>>
    requires { length statements.now < 2 ^ 32 }
{
    let mut out = Vec::new(alloc);
    let (names, _) = names_of(alloc, statements)?;
    put_counts(alloc, &mut out, &names)?;
    Ok(out)
}

fn checked(alloc: Global, statements: &[Statement]) -> io::Result<Vec<u8>> {
    if statements.len() > u32::MAX as usize {
        return copied(alloc, b"too many");
    }
    if let Some(found) = first_fault(alloc, statements)? {
        return fault(alloc, &fault_at(found));
    }
    counted(alloc, statements)
}

/// What is wrong with these tokens, or how many statements they have.
pub(crate) fn answer(alloc: Global, tokens: &[Token]) -> io::Result<Vec<u8>>
    requires { length tokens.now < 2 ^ 32 }
{
    match statements(alloc, tokens) {
        Ok(found) => checked(alloc, found.as_slice()),
        Err(ParseRefusal::Bad(found)) => fault(alloc, &found),
        Err(ParseRefusal::NoMemory) => copied(alloc, b"no memory"),
    }
}
