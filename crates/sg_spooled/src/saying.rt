// What is said on the way, and at the end.
ghost use Rattle.std.specs.Prelude.{◌≡◌, ◌++◌, OnOk};
ghost use Rattle.sg_output.specs.Saying.{OnlySays};
ghost use Rattle.sg_spooled.specs.Walking.{SaysAll, SaysSome, end_text, EndsListing};

use crate::Unlisted;
use crate::about::tell_about;
use sg_device::{NoMemory, SayRefusal};
use sg_report::{damaged_text, entries_text, failed_text, unopened_text};
use sg_world::World;
use std::alloc::Global;

/// The text is said once it has so many bytes.
const PIECE: usize = 16_384;

// Says the text, and empties it.
fn say<W: World>(alloc: Global, text: &mut Vec<u8>, world: &mut W) -> Result<(), Unlisted>
    ensures says { OnlySays (W.state world.old) (W.state world.new) }
    ensures all { SaysAll (W.state world.old) (W.state world.new) text.old.items text.new.items
        result }
{
    match world.say(alloc, text) {
        Ok(()) => {
            text.clear();
            Ok(())
        }
        Err(SayRefusal::Fault) => Err(Unlisted::SayFault),
        Err(SayRefusal::NoMemory) => Err(Unlisted::NoMemory),
    }
}

// Tells what is told of entries; says the text and empties it, once there is enough of it.
pub(crate) fn say_piece<W: World>(
    alloc: Global,
    text: &mut Vec<u8>,
    about: &mut Vec<u8>,
    world: &mut W,
) -> Result<(), Unlisted>
    ensures says { OnlySays (W.state world.old) (W.state world.new) }
    ensures some { SaysSome (W.state world.old) (W.state world.new) text.old.items text.new.items
        result }
{
    tell_about(about, world);
    if text.len() < PIECE {
        return Ok(());
    }
    say(alloc, text, world)
}

// Appends the line that tells how a walk ended.
fn append_end(
    alloc: Global,
    walked: Result<u64, Unlisted>,
    text: &mut Vec<u8>,
) -> Result<(), NoMemory>
    ensures { OnOk result (text.new.items ≡ text.old.items ++ end_text walked) }
{
    match walked {
        Ok(count) => entries_text(alloc, count, text),
        Err(Unlisted::NotOpened) => unopened_text(alloc, "store", 0, text),
        Err(Unlisted::Damage(at)) => damaged_text(alloc, 0, at, text),
        Err(Unlisted::DiskFault) => failed_text(alloc, 0, text),
        Err(Unlisted::SayFault) => Ok(()),
        Err(Unlisted::NoMemory) => Ok(()),
    }
}

// Says the rest of the text and how the walk ended, but where saying has failed or memory ran out.
pub(crate) fn end<W: World>(
    alloc: Global,
    walked: Result<u64, Unlisted>,
    text: &mut Vec<u8>,
    world: &mut W,
) -> Result<(), Unlisted>
    ensures { EndsListing (W.state world.old) (W.state world.new) text.old.items walked result }
{
    if let Err(Unlisted::SayFault) = walked {
        return Err(Unlisted::SayFault);
    }
    if let Err(Unlisted::NoMemory) = walked {
        return Err(Unlisted::NoMemory);
    }
    append_end(alloc, walked, text)?;
    say(alloc, text, world)?;
    match walked {
        Ok(_) => Ok(()),
        Err(unlisted) => Err(unlisted),
    }
}
