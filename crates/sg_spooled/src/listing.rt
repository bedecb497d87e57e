// The command.
ghost use Rattle.std.specs.Prelude.{◌≡◌};
ghost use Rattle.sg_spooled.specs.Listing.{unlisted_for, ListsStore, Spools};

use crate::Unlisted;
use crate::salvage::salvage;
use crate::saying::end;
use crate::walking::walk;
use sg_device::{Name, OpenRefusal};
use sg_outside::StoreSpec;
use sg_spool::Spool;
use sg_stable::StoreRefusal;
use sg_world::World;
use std::alloc::Global;

// Why a store wasn't opened as a disk-buffer's.
fn unlisted(refusal: StoreRefusal) -> Unlisted
    ensures { result ≡ unlisted_for refusal }
{
    match refusal {
        StoreRefusal::Damage(at) => Unlisted::Damage(at),
        StoreRefusal::DiskFault => Unlisted::DiskFault,
        StoreRefusal::NoMemory => Unlisted::NoMemory,
    }
}

// Lists the entries of an open store, and gives it back.
fn list_opened<W: World>(
    alloc: Global,
    store: W::Store,
    world: &mut W,
) -> (W::Store, Result<(), Unlisted>)
    ensures { ListsStore (W.state world.old) (W.state world.new) (W.Store.state store)
        (W.Store.state result.0) result.1 }
{
    let mut text = Vec::new(alloc);
    match Spool::open(store, 0) {
        Ok(spool) => {
            let mut spool = spool;
            let walked = walk(alloc, &mut spool, &mut text, world);
            let result = end(alloc, walked, &mut text, world);
            let mut store = spool.into_disk();
            salvage(alloc, &mut store, &result, true, world);
            (store, result)
        }
        Err((store, refusal)) => {
            let result = end(alloc, Err(unlisted(refusal)), &mut text, world);
            let mut store = store;
            salvage(alloc, &mut store, &result, false, world);
            (store, result)
        }
    }
}

/// Says a line for each entry of the disk-buffer's store FILE, in order, and one with their number. The
/// store isn't made where it is missing, and nothing in it changes: an entry of format 1 is listed with the
/// length that it has there. A refusal is said behind the lines of the entries before it; where a line
/// couldn't be said, or memory ran out, nothing more is. About 16 KiB of text are kept at a time.
pub fn list_store<W: World>(alloc: Global, file: &[u8], world: &mut W) -> Result<(), Unlisted>
    ensures { Spools (W.state world.old) (W.state world.new) file.now result }
{
    let spec = StoreSpec {
        name: Name::new(alloc, file)?,
        create: false,
        size: 0,
    };
    match world.open_store(alloc, &spec) {
        Ok(store) => {
            let (store, result) = list_opened(alloc, store, world);
            world.close_store(store);
            result
        }
        Err(OpenRefusal::Failed) => {
            let mut text = Vec::new(alloc);
            end(alloc, Err(Unlisted::NotOpened), &mut text, world)
        }
        Err(OpenRefusal::NoMemory) => Err(Unlisted::NoMemory),
    }
}
