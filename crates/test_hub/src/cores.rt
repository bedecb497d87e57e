// A core of two sources and two destinations, over disks in memory.
ghost use Rattle.std.specs.Prelude.{◌≡◌, ◌<◌, ◌≤◌, ◌+◌, ◌^◌, Some, IfOk, OnOk, length};
ghost use Rattle.sg_counter.specs.Bringing.{AllMayEnter};
ghost use Rattle.sg_standing.specs.States.{setup_of};
ghost use Rattle.test_hub.specs.Cores.{tried};
ghost use Rattle.sg_msg.specs.Offers.{AllWithin};

use sg_core::{Core, CoreRefusal};
use sg_list::Seq;
use sg_machine::{Admission, BufferSetup, DestSetup, Setup, SourceSetup};
use sg_memory_disk::MemoryDisk;
use sg_msg::{Message, Offer};
use sg_time::Stamp;
use std::alloc::{AllocError, Global};

// A message of so many encoded bytes: 58 with an empty value of MESSAGE.
fn message(alloc: Global, size: usize) -> Result<Message, AllocError> {
    let value = vec![in alloc; 0u8; size.saturating_sub(58)]?;
    let stamp = Stamp { at: 0, offset: 0 };
    let mut message = Message::new(alloc, 13, stamp, stamp)?;
    match message.set(b"MESSAGE", &value) {
        Ok(()) => Ok(message),
        Err(_) => Err(AllocError),
    }
}

fn source(window: u32, store: u32) -> SourceSetup
    ensures { result ≡ record { window = window; store = Some store } }
{
    SourceSetup {
        window,
        store: Some(store),
    }
}

/// The setup: two sources with stores of their own, a queue in memory and a disk-buffer.
fn setup(alloc: Global, window: u32, fifo: u32, capacity: u64) -> Result<Setup, AllocError>
    ensures { IfOk result (λ setup. setup ≡ tried window fifo capacity) }
{
    let mut sources = Seq::empty(alloc);
    sources.push(source(window, 0))?;
    sources.push(source(window, 1))?;
    let mut dests = Seq::empty(alloc);
    dests.push(DestSetup { fifo, buffer: None })?;
    dests.push(DestSetup {
        fifo,
        buffer: Some(BufferSetup { store: 2, capacity }),
    })?;
    Ok(Setup { sources, dests })
}

// Three disks of 128 zero bytes.
fn disks(alloc: Global) -> Result<Vec<MemoryDisk>, AllocError>
    ensures { IfOk result (λ disks. length disks.items ≡ 3) }
{
    let mut disks = Vec::new(alloc);
    for _number in 0..3usize {
        let disk = MemoryDisk::new(alloc, vec![in alloc; 0u8; 128]?)?;
        disks.push(disk)?;
    }
    Ok(disks)
}

fn open_over(
    alloc: Global,
    setup: Setup,
    disks: Vec<MemoryDisk>,
    window: u32,
    fifo: u32,
    capacity: u64,
) -> Result<Core<MemoryDisk>, (Vec<MemoryDisk>, CoreRefusal)>
    requires setup { setup ≡ tried window fifo capacity }
    requires window { 0 < window }
    requires capacity { capacity ≤ 2 ^ 30 }
    requires disks { length disks.items ≡ 3 }
    ensures setup { IfOk result (λ core. setup_of core ≡ tried window fifo capacity) }
    ensures calls { IfOk result (λ core. core.calls ≡ 0) }
{
    Core::open(alloc, setup, disks)
}

/// A core over fresh disks.
pub(crate) fn open(
    alloc: Global,
    window: u32,
    fifo: u32,
    capacity: u64,
) -> Result<Core<MemoryDisk>, AllocError>
    requires window { 0 < window }
    requires capacity { capacity ≤ 2 ^ 30 }
    ensures setup { IfOk result (λ core. setup_of core ≡ tried window fifo capacity) }
    ensures calls { IfOk result (λ core. core.calls ≡ 0) }
{
    let setup = setup(alloc, window, fifo, capacity)?;
    let disks = disks(alloc)?;
    match open_over(alloc, setup, disks, window, fifo, capacity) {
        Ok(core) => Ok(core),
        Err(_) => Err(AllocError),
    }
}

/// An offer more to that destination, with this flow-control, of so many encoded bytes.
#[tactic(auto, using(sg_msg::proofs::OfferLemmas::within_push))]
pub(crate) fn add_offer(
    alloc: Global,
    offers: &mut Vec<Offer>,
    dest: u32,
    size: usize,
    flow: bool,
) -> Result<(), AllocError>
    requires dest { dest < 2 }
    requires within { AllWithin 2 offers.old.items }
    ensures within { OnOk result (AllWithin 2 offers.new.items) }
    ensures count { OnOk result (length offers.new.items ≤ length offers.old.items + 1) }
{
    let message = message(alloc, size)?;
    offers.push(Offer {
        dest,
        message,
        flow,
    })?;
    Ok(())
}

/// A record more, with these offers.
#[tactic(auto, using(sg_counter::proofs::BringingLemmas::enter_push))]
pub(crate) fn add_record(
    records: &mut Vec<Admission>,
    end: u64,
    offers: Vec<Offer>,
) -> Result<(), AllocError>
    requires end { end < 2 ^ 63 }
    requires few { length offers.items ≤ 1024 }
    requires within { AllWithin 2 offers.items }
    requires each { AllMayEnter 2 records.old.items }
    ensures each { OnOk result (AllMayEnter 2 records.new.items) }
    ensures count { OnOk result (length records.new.items ≡ length records.old.items + 1) }
{
    records.push(Admission {
        end,
        offers: Seq::new(offers),
    })?;
    Ok(())
}
