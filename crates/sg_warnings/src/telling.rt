// The warnings of a configuration, told.
ghost use Rattle.sg_outside.specs.World.{OnlyReads};

use crate::looking::look;
use crate::warning::{MOST, Warning};
use sg_device::NoMemory;
use sg_listing::{Listing, append_at, append_text, read_listing};
use sg_outside::Files;
use sg_world::World;
use std::alloc::Global;

fn append_warning(
    alloc: Global,
    listing: &Listing,
    warning: &Warning,
    out: &mut Vec<u8>,
) -> Result<(), NoMemory> {
    let mut words = b"warning: ".to_vec(alloc)?;
    words.extend_from_slice(warning.words.bytes())?;
    match listing.location(warning.at) {
        Some(at) => append_at(alloc, listing, at, &words, out),
        None => Ok(()),
    }
}

fn text_of(alloc: Global, listing: &Listing) -> Result<Vec<u8>, NoMemory> {
    let found = look(alloc, listing.tokens())?;
    let mut out = Vec::new(alloc);
    for at in 0..found.len().min(MOST) {
        if let Some(warning) = found.get(at) {
            append_warning(alloc, listing, warning, &mut out)?;
        }
    }
    if found.len() > MOST {
        append_text(b"there are more warnings\n", &mut out)?;
    }
    Ok(out)
}

/// What is warned of in the configuration in the file `main`, the empty text where nothing is.
pub fn warnings_text<F: Files>(
    alloc: Global,
    files: &mut F,
    main: &[u8],
) -> Result<Vec<u8>, NoMemory>
    // Files were read, and nothing else.
    ensures { OnlyReads (F.state files.old) (F.state files.new) }
{
    let listing = read_listing(alloc, files, main)?;
    text_of(alloc, &listing)
}

/// Tells it.
pub fn tell_warnings<W: World>(alloc: Global, world: &mut W, main: &[u8])
    // Files were read, and nothing else.
    ensures { OnlyReads (W.state world.old) (W.state world.new) }
{
    if let Ok(text) = warnings_text(alloc, world, main) {
        if !text.is_empty() {
            world.tell(&text);
        }
    }
}
