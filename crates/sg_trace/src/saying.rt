// What is said on the way.
ghost use Rattle.sg_output.specs.Saying.{OnlySays};
ghost use Rattle.sg_trace.specs.Saying.{SaysAllTraced, SaysSomeTraced};

use crate::Untraced;
use sg_device::SayRefusal;
use sg_world::World;
use std::alloc::Global;

/// The text is said once it has so many bytes.
const PIECE: usize = 16_384;

/// Says the text, and empties it.
pub(crate) fn say<W: World>(
    alloc: Global,
    text: &mut Vec<u8>,
    world: &mut W,
) -> Result<(), Untraced>
    ensures says { OnlySays (W.state world.old) (W.state world.new) }
    ensures all { SaysAllTraced (W.state world.old) (W.state world.new) text.old.items
        text.new.items
        result }
{
    match world.say(alloc, text) {
        Ok(()) => {
            text.clear();
            Ok(())
        }
        Err(SayRefusal::Fault) => Err(Untraced::SayFault),
        Err(SayRefusal::NoMemory) => Err(Untraced::NoMemory),
    }
}

/// Says the text and empties it, once there is enough of it.
pub(crate) fn say_piece<W: World>(
    alloc: Global,
    text: &mut Vec<u8>,
    world: &mut W,
) -> Result<(), Untraced>
    ensures says { OnlySays (W.state world.old) (W.state world.new) }
    ensures some { SaysSomeTraced (W.state world.old) (W.state world.new) text.old.items
        text.new.items
        result }
{
    if text.len() < PIECE {
        return Ok(());
    }
    say(alloc, text, world)
}
