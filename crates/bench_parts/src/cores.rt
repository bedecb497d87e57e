// A core of one source and one destination.
ghost use Rattle.std.specs.Prelude.{◌≡◌, None, Some, IfOk, IfSome};
ghost use Rattle.sg_standing.specs.States.{setup_of};
ghost use Rattle.bench_parts.specs.Cores.{measured, spooled};

use sg_core::Core;
use sg_device::Disk;
use sg_list::Seq;
use sg_machine::{BufferSetup, DestSetup, Setup, SourceSetup};
use sg_memory_disk::MemoryDisk;
use std::alloc::{AllocError, Global};

fn setup(alloc: Global, buffer: Option<BufferSetup>) -> Result<Setup, AllocError>
    ensures { IfOk result (λ setup. setup ≡ measured buffer) }
{
    let mut sources = Seq::empty(alloc);
    sources.push(SourceSetup {
        window: 1000,
        store: None,
    })?;
    let mut dests = Seq::empty(alloc);
    dests.push(DestSetup { fifo: 1000, buffer })?;
    Ok(Setup { sources, dests })
}

/// A core with a queue in memory.
pub(crate) fn queued(alloc: Global) -> Result<Option<Core<MemoryDisk>>, AllocError>
    ensures setup { IfOk result (λ core. IfSome core (λ core. setup_of core ≡ measured None)) }
    ensures calls { IfOk result (λ core. IfSome core (λ core. core.calls ≡ 0)) }
{
    match Core::open(alloc, setup(alloc, None)?, Vec::new(alloc)) {
        Ok(core) => Ok(Some(core)),
        Err(_) => Ok(None),
    }
}

/// A core with a disk-buffer over this disk.
pub(crate) fn buffered<D: Disk + Drop>(
    alloc: Global,
    disk: D,
) -> Result<Option<Core<D>>, AllocError>
    ensures setup { IfOk result (λ core. IfSome core (λ core. setup_of core ≡ measured spooled)) }
    ensures calls { IfOk result (λ core. IfSome core (λ core. core.calls ≡ 0)) }
{
    let buffer = BufferSetup {
        store: 0,
        capacity: 1 << 20,
    };
    let mut disks = Vec::new(alloc);
    disks.push(disk)?;
    match Core::open(alloc, setup(alloc, Some(buffer))?, disks) {
        Ok(core) => Ok(Some(core)),
        Err(_) => Ok(None),
    }
}
