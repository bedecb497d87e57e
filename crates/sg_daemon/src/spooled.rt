// The entries of a disk-buffer's store.
ghost use Rattle.std.specs.Prelude.{◌≡◌};
ghost use Rattle.sg_daemon.specs.Spooled.{status_listed, SpoolsFile};

use crate::status::Status;
use sg_run::{Device, End};
use sg_spooled::{Unlisted, list_store};
use sg_world::World;
use std::alloc::Global;

fn status_of(listed: Result<(), Unlisted>) -> Status
    ensures { result ≡ status_listed listed }
{
    match listed {
        Ok(()) => Status::Ended(End::Clean),
        Err(Unlisted::NotOpened) => Status::Ended(End::OpenFault(Device::Store(0))),
        Err(Unlisted::Damage(at)) => Status::Ended(End::Damage { store: 0, at }),
        Err(Unlisted::DiskFault) => Status::Ended(End::DiskFault(0)),
        Err(Unlisted::SayFault) => Status::SayFault,
        Err(Unlisted::NoMemory) => Status::NoMemory,
    }
}

/// Says the entries of the store FILE, and how that ended.
pub fn spool<W: World>(alloc: Global, file: &[u8], world: &mut W) -> Status
    ensures { SpoolsFile (W.state world.old) (W.state world.new) file.now result }
{
    status_of(list_store(alloc, file, world))
}
