// A core of three sources and three destinations, over disks in memory.
ghost use Rattle.std.specs.Prelude.{◌≡◌, ◌<◌, ◌≤◌, ◌+◌, ◌^◌, Some, IfOk, OnOk, length};
ghost use Rattle.sg_counter.specs.Bringing.{AllMayEnter};
ghost use Rattle.sg_standing.specs.States.{setup_of};
ghost use Rattle.test_core_runs.specs.Cores.{tried, IsSomewhere};
ghost use Rattle.sg_msg.specs.Offers.{AllWithin};

use sg_core::{Core, CoreRefusal};
use sg_list::Seq;
use sg_machine::{Admission, BufferSetup, DestSetup, Setup, SourceSetup};
use sg_memory_disk::MemoryDisk;
use sg_msg::{Message, Offer};
use sg_time::Stamp;
use std::alloc::{AllocError, Global};

/// The windows of a run.
pub(crate) const WINDOW: u32 = 7;

/// How many entries without flow-control the queue of a run takes.
pub(crate) const FIFO: u32 = 3;

/// The capacity of the first disk-buffer of a run.
pub(crate) const FIRST: u64 = 700;

/// The capacity of the second disk-buffer.
pub(crate) const SECOND: u64 = 400;

// A message of so many encoded bytes: 58 with an empty value of MESSAGE. It was sent at that moment.
fn message(alloc: Global, number: u32, size: usize) -> Result<Message, AllocError> {
    let value = vec![in alloc; (number % 256) as u8; size.saturating_sub(58)]?;
    let stamp = Stamp {
        at: i64::from(number),
        offset: 0,
    };
    let mut message = Message::new(alloc, 13, stamp, stamp)?;
    match message.set(b"MESSAGE", &value) {
        Ok(()) => Ok(message),
        Err(_) => Err(AllocError),
    }
}

fn source(window: u32, store: u32) -> SourceSetup
    ensures { result ≡ record { window = window; store = Some store } }
{
    SourceSetup {
        window,
        store: Some(store),
    }
}

fn spooled(fifo: u32, store: u32, capacity: u64) -> DestSetup
    ensures { result
        ≡ record { fifo = fifo; buffer = Some (record { store = store; capacity = capacity }) } }
{
    DestSetup {
        fifo,
        buffer: Some(BufferSetup { store, capacity }),
    }
}

/// The setup: three sources with stores of their own, and three destinations, of which the second is a
/// queue in memory and the others have disk-buffers of these capacities.
pub(crate) fn setup(
    alloc: Global,
    window: u32,
    fifo: u32,
    first: u64,
    second: u64,
) -> Result<Setup, AllocError>
    ensures { IfOk result (λ setup. setup ≡ tried window fifo first second) }
{
    let mut sources = Seq::empty(alloc);
    sources.push(source(window, 0))?;
    sources.push(source(window, 1))?;
    sources.push(source(window, 2))?;
    let mut dests = Seq::empty(alloc);
    dests.push(spooled(fifo, 3, first))?;
    dests.push(DestSetup { fifo, buffer: None })?;
    dests.push(spooled(fifo, 4, second))?;
    Ok(Setup { sources, dests })
}

/// The core over these disks.
#[tactic(auto, using(crate::proofs::TestLemmas::opened_somewhere))]
pub(crate) fn open(
    alloc: Global,
    window: u32,
    fifo: u32,
    first: u64,
    second: u64,
    disks: Vec<MemoryDisk>,
) -> Result<Core<MemoryDisk>, (Vec<MemoryDisk>, CoreRefusal)>
    requires window { 0 < window }
    requires first { first ≤ 2 ^ 30 }
    requires second { second ≤ 2 ^ 30 }
    requires disks { length disks.items ≡ 5 }
    ensures setup { IfOk result (λ core. setup_of core ≡ tried window fifo first second) }
    ensures calls { IfOk result (λ core. core.calls ≡ 0) }
    ensures count { IfOk result (λ core. length core.stores ≡ 5) }
    ensures at { IfOk result (λ core. IsSomewhere core) }
{
    let Ok(setup) = setup(alloc, window, fifo, first, second) else {
        return Err((disks, CoreRefusal::NoMemory));
    };
    Core::open(alloc, setup, disks)
}

/// Five disks of 128 zero bytes.
pub(crate) fn disks(alloc: Global) -> Result<Vec<MemoryDisk>, AllocError>
    ensures { IfOk result (λ disks. length disks.items ≡ 5) }
{
    let mut disks = Vec::new(alloc);
    for _number in 0..5usize {
        let disk = MemoryDisk::new(alloc, vec![in alloc; 0u8; 128]?)?;
        disks.push(disk)?;
    }
    Ok(disks)
}

/// An offer to that destination, with this flow-control, of so many encoded bytes; the message has this number.
pub(crate) fn offer(
    alloc: Global,
    dest: u32,
    number: u32,
    size: usize,
    flow: bool,
) -> Result<Offer, AllocError>
    ensures { IfOk result (λ offer. offer.dest ≡ dest) }
{
    let message = message(alloc, number, size)?;
    Ok(Offer {
        dest,
        message,
        flow,
    })
}

/// An offer more to that destination, with this flow-control, of so many encoded bytes; the message has this number.
#[tactic(auto, using(sg_msg::proofs::OfferLemmas::within_push))]
pub(crate) fn add_offer(
    alloc: Global,
    offers: &mut Vec<Offer>,
    dest: u32,
    number: u32,
    size: usize,
    flow: bool,
) -> Result<(), AllocError>
    requires dest { dest < 3 }
    requires within { AllWithin 3 offers.old.items }
    ensures within { OnOk result (AllWithin 3 offers.new.items) }
    ensures count { OnOk result (length offers.new.items ≤ length offers.old.items + 1) }
{
    offers.push(offer(alloc, dest, number, size, flow)?)?;
    Ok(())
}

/// A record more, with these offers.
#[tactic(auto, using(sg_counter::proofs::BringingLemmas::enter_push))]
pub(crate) fn add_record(
    records: &mut Vec<Admission>,
    end: u64,
    offers: Vec<Offer>,
) -> Result<(), AllocError>
    requires end { end < 2 ^ 63 }
    requires few { length offers.items ≤ 1024 }
    requires within { AllWithin 3 offers.items }
    requires each { AllMayEnter 3 records.old.items }
    ensures each { OnOk result (AllMayEnter 3 records.new.items) }
    ensures count { OnOk result (length records.new.items ≡ length records.old.items + 1) }
{
    records.push(Admission {
        end,
        offers: Seq::new(offers),
    })?;
    Ok(())
}
