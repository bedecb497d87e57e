// Whether a file is a configuration.
ghost use Rattle.sg_daemon.specs.Checking.{ChecksFile};

use crate::say::tell_unloaded;
use crate::{Status, Unchecked, check_file};
use sg_run::{End, Unloaded};
use sg_world::World;
use std::alloc::Global;

/// Says that the file is a configuration, or what is wrong with it.
pub fn check<W: World>(alloc: Global, file: &[u8], world: &mut W) -> Status
    ensures { ChecksFile (W.state world.old) (W.state world.new) file.now result }
{
    match check_file(alloc, file, world) {
        Ok(()) => Status::Ended(End::Clean),
        Err(Unchecked::SayFault) => Status::SayFault,
        Err(Unchecked::NoMemory) => Status::NoMemory,
        Err(Unchecked::Bad(fault, names)) => {
            tell_unloaded(alloc, file, Unloaded::Bad(fault, names), true, world)
        }
        Err(Unchecked::Unread(name)) => {
            tell_unloaded(alloc, file, Unloaded::Unread(name), true, world)
        }
    }
}
