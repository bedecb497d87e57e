// What is told on standard error.
ghost use Rattle.sg_outside.specs.World.{OnlyReads};

use crate::destinations::destinations_text;
use crate::further::{Further, further_faults};
use crate::included::include_note;
use crate::noting::notes;
use sg_device::{Name, NoMemory};
use sg_hint::{Spotted, line_of, write_hint};
use sg_lex::ConfigFault;
use sg_listing::{Listing, Location, read_listing};
use sg_outside::Files;
use sg_world::World;
use std::alloc::Global;

/// The notes beside the first fault of the configuration in the file `main`.
pub fn notes_text<F: Files>(
    alloc: Global,
    files: &mut F,
    main: &[u8],
    fault: &ConfigFault,
) -> Result<Vec<u8>, NoMemory>
    ensures { OnlyReads (F.state files.old) (F.state files.new) }
{
    let listing = read_listing(alloc, files, main)?;
    notes(alloc, &listing, fault)
}

fn main_of(names: &[Name]) -> &[u8] {
    match names.first() {
        Some(name) => name.bytes(),
        None => b"",
    }
}

/// Tells the notes beside the first fault of a configuration; the first of the names is that of its file.
pub fn tell_notes<W: World>(alloc: Global, world: &mut W, fault: &ConfigFault, names: &[Name])
    // Files were read, and nothing else.
    ensures { OnlyReads (W.state world.old) (W.state world.new) }
{
    if let Ok(text) = notes_text(alloc, world, main_of(names), fault) {
        if !text.is_empty() {
            world.tell(&text);
        }
    }
}

fn append_further(
    alloc: Global,
    further: &Further,
    names: &[Name],
    line: &[u8],
    out: &mut Vec<u8>,
) -> Result<(), NoMemory> {
    let spotted = Some(Spotted {
        column: further.at.column,
        meant: None,
    });
    let text = write_hint(alloc, &further.fault, names, line, &spotted)?;
    out.extend_from_slice(&text)?;
    out.extend_from_slice(&further.notes)?;
    Ok(())
}

// The line of this place.
fn line_in(texts: &[Vec<u8>], at: Location) -> Option<&[u8]> {
    match texts.get(at.file as usize) {
        Some(text) => line_of(text, at.line),
        None => None,
    }
}

/// What is wrong with statements behind the first faulty one, up to ten faults.
pub fn further_text(alloc: Global, listing: Listing) -> Result<Vec<u8>, NoMemory> {
    let Listing { list, names, texts } = listing;
    let mut out = Vec::new(alloc);
    let found = further_faults(alloc, list)?;
    for at in 1..found.len() {
        let further = &found[at];
        if let Some(line) = line_in(&texts, further.at) {
            append_further(alloc, further, names.as_slice(), line, &mut out)?;
        }
    }
    Ok(out)
}

fn further_of<F: Files>(alloc: Global, files: &mut F, main: &[u8]) -> Result<Vec<u8>, NoMemory>
    ensures { OnlyReads (F.state files.old) (F.state files.new) }
{
    let listing = read_listing(alloc, files, main)?;
    further_text(alloc, listing)
}

/// Tells what is wrong with statements behind the first faulty one.
pub fn tell_further<W: World>(alloc: Global, world: &mut W, main: &[u8])
    // Files were read, and nothing else.
    ensures { OnlyReads (W.state world.old) (W.state world.new) }
{
    if let Ok(text) = further_of(alloc, world, main) {
        if !text.is_empty() {
            world.tell(&text);
        }
    }
}

fn destinations_of<F: Files>(alloc: Global, files: &mut F, main: &[u8]) -> Result<Vec<u8>, NoMemory>
    ensures { OnlyReads (F.state files.old) (F.state files.new) }
{
    let listing = read_listing(alloc, files, main)?;
    destinations_text(alloc, &listing)
}

/// Tells which driver each destination's number is of.
pub fn tell_destinations<W: World>(alloc: Global, world: &mut W, main: &[u8])
    // Files were read, and nothing else.
    ensures { OnlyReads (W.state world.old) (W.state world.new) }
{
    if let Ok(text) = destinations_of(alloc, world, main) {
        if !text.is_empty() {
            world.tell(&text);
        }
    }
}

/// Tells which `@include` wanted the file of this name, which couldn't be read.
pub fn tell_include<W: World>(alloc: Global, world: &mut W, main: &[u8], wanted: &[u8])
    // Files were read, and nothing else.
    ensures { OnlyReads (W.state world.old) (W.state world.new) }
{
    if let Ok(Some(text)) = include_note(alloc, world, main, wanted) {
        world.tell(&text);
    }
}
