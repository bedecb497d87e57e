// The log paths of a configuration.
ghost use Rattle.std.specs.Prelude.{◌<◌, ◌^◌, length};

mod ends;
mod say;

use crate::text::copied;
use ends::ends_of;
use sg_forest::forest_of;
use sg_names::{Names, names_of};
use sg_parse_text::Statement;
use sg_plan::Endpoints;
use sg_tree::Forest;
use std::alloc::Global;
use std::io;

fn forest_text(alloc: Global, forest: &Forest) -> io::Result<Vec<u8>> {
    let mut out = Vec::new(alloc);
    say::forest(alloc, &mut out, forest)?;
    Ok(out)
}

fn lowered(
    alloc: Global,
    names: &Names,
    ends: &Endpoints,
    statements: &[Statement],
) -> io::Result<Vec<u8>> {
    if ends.inlets.len() > u32::MAX as usize || ends.outlets.len() > u32::MAX as usize {
        return copied(alloc, b"too many");
    }
    let forest = forest_of(alloc, names, ends, Vec::new(alloc), statements)?;
    forest_text(alloc, &forest)
}

fn named(alloc: Global, names: &Names, statements: &[Statement]) -> io::Result<Vec<u8>> {
    let ends = ends_of(alloc, statements)?;
    lowered(alloc, names, &ends, statements)
}

/// The log paths of these statements.
pub(crate) fn answer(alloc: Global, statements: &[Statement]) -> io::Result<Vec<u8>>
    requires { length statements.now < 2 ^ 32 }
{
    let (names, _) = names_of(alloc, statements)?;
    named(alloc, &names, statements)
}
