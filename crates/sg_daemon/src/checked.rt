// Whether a file is a configuration, said where it is one.
ghost use Rattle.std.specs.Prelude.{◌≡◌, IfOk, Some};
ghost use Rattle.sg_outside.specs.World.{Files};
ghost use Rattle.sg_config.specs.declared.config.Config.{Config as Meant};
ghost use Rattle.sg_loaded.specs.Compiling.{CanBeCompiled};
ghost use Rattle.sg_loaded.specs.Loading.{Configures};
ghost use Rattle.sg_daemon.specs.Checked.{ok_line, HasSaid, OnlyChecks, Checks, ChecksUntroubled, WasChecked};
ghost use Rattle.sg_output.specs.Saying.{OnlySays};

use crate::Unchecked;
use crate::held::tell_held;
use sg_config::Config;
use sg_device::{NoMemory, SayRefusal};
use sg_loaded::{Unloaded, load_file};
use sg_warnings::tell_warnings;
use sg_world::World;
use std::alloc::Global;

fn ok_text(alloc: Global, file: &[u8]) -> Result<Vec<u8>, NoMemory>
    ensures { IfOk result (λ text. text.items ≡ ok_line file.now) }
{
    let mut text = file.to_vec(alloc)?;
    text.extend_from_slice(b": ok\n")?;
    Ok(text)
}

fn say_line<W: World>(alloc: Global, file: &[u8], world: &mut W) -> Result<(), Unchecked>
    ensures says { OnlySays (W.state world.old) (W.state world.new) }
    ensures has { HasSaid (W.state world.old) (W.state world.new) file.now result }
{
    let text = ok_text(alloc, file)?;
    match world.say(alloc, &text) {
        Ok(()) => Ok(()),
        Err(SayRefusal::Fault) => Err(Unchecked::SayFault),
        Err(SayRefusal::NoMemory) => Err(Unchecked::NoMemory),
    }
}

// Says that it is one, and tells what memory its records can take.
fn say_ok<W: World>(
    alloc: Global,
    file: &[u8],
    config: &Config,
    world: &mut W,
) -> Result<(), Unchecked>
    ensures says { OnlySays (W.state world.old) (W.state world.new) }
    ensures has { HasSaid (W.state world.old) (W.state world.new) file.now result }
{
    let said = say_line(alloc, file, world);
    tell_held(alloc, file, config, world);
    said
}

/// Says `FILE: ok` where the file of this name is a configuration whose log paths can be compiled, and nothing
/// else. A refusal isn't said.
pub fn check_file<W: World>(alloc: Global, file: &[u8], world: &mut W) -> Result<(), Unchecked>
    // Whether it is one, what is wrong, or which file couldn't be read.
    ensures checks { Checks (W.state world.old) (W.state world.new) file.now result }
    // Files were read, patterns were made, text was said, and nothing else.
    ensures only { OnlyChecks (W.state world.old) (W.state world.new) }
    // What is one is said to be one, where nothing fails and memory is there.
    ensures complete { (files : Files) (config : Meant) → (W.state world.old).files ≡ Some files
        → Configures (W.state world.old) file.now config → CanBeCompiled config
        → ChecksUntroubled (W.state world.old) (W.state world.new) → WasChecked result }
{
    match load_file(alloc, file, world) {
        Ok(loaded) => {
            let said = say_ok(alloc, file, &loaded.config, world);
            tell_warnings(alloc, world, file);
            said
        }
        Err(Unloaded::Bad(fault, names)) => Err(Unchecked::Bad(fault, names)),
        Err(Unloaded::Unread(name)) => Err(Unchecked::Unread(name)),
        Err(Unloaded::NoMemory) => Err(Unchecked::NoMemory),
    }
}
