// How much memory the records that wait can take.
ghost use Rattle.std.specs.Prelude.{◌≡◌, ◌++◌, IfOk, OnOk};
ghost use Rattle.std.specs.Option.{option_map};
ghost use Rattle.sg_daemon.specs.Held as spec;

use sg_config::Config;
use sg_device::NoMemory;
use sg_machine::{DestSetup, SourceSetup};
use sg_run_plan::{InletPlan, OutletPlan};
use sg_world::World;
use std::alloc::Global;

/// What is more than this is told, in bytes.
const WORTH: u64 = 268_435_456;

/// The records that can wait in memory at most: those of queues, which have no flow-control, those of
/// windows, and those that disk-buffers which aren't reliable hold back.
#[derive(Clone, Copy, PartialEq, Eq, Drop)]
pub struct MostHeld {
    pub records: u64,
    /// How many bytes the largest of them can have as it is received.
    pub size: u32,
}

fn queue_size(dest: &DestSetup) -> u32
    ensures { result ≡ spec.queue_size dest.now.fifo dest.now.buffer }
{
    match dest.buffer {
        Some(_) => 0,
        None => dest.fifo,
    }
}

fn in_queues(dests: &[DestSetup]) -> u64
    ensures { result ≡ spec.in_queues 0 dests.now }
{
    let mut sum: u64 = 0;
    for dest in dests {
        sum = sum.saturating_add(u64::from(queue_size(dest)));
    }
    sum
}

fn memory_size(outlet: &OutletPlan) -> u32
    ensures { result ≡ spec.memory_size outlet.now.overflow }
{
    match &outlet.overflow {
        Some(overflow) => overflow.memory,
        None => 0,
    }
}

fn held_back(outlets: &[OutletPlan]) -> u64
    ensures { result ≡ spec.held_back 0 outlets.now }
{
    let mut sum: u64 = 0;
    for outlet in outlets {
        sum = sum.saturating_add(u64::from(memory_size(outlet)));
    }
    sum
}

fn in_windows(sources: &[SourceSetup]) -> u64
    ensures { result ≡ spec.in_windows 0 sources.now }
{
    let mut sum: u64 = 0;
    for source in sources {
        sum = sum.saturating_add(u64::from(source.window));
    }
    sum
}

fn largest(inlets: &[InletPlan]) -> u32
    ensures { result ≡ spec.largest 0 inlets.now }
{
    let mut most: u32 = 0;
    for inlet in inlets {
        most = most.max(inlet.limit);
    }
    most
}

/// The records that wait at most, with these windows, queues and outlets, and records of these inlets.
pub fn held_by(
    sources: &[SourceSetup],
    dests: &[DestSetup],
    inlets: &[InletPlan],
    outlets: &[OutletPlan],
) -> MostHeld
    ensures { result ≡ spec.held_by sources.now dests.now inlets.now outlets.now }
{
    let records = in_queues(dests).saturating_add(in_windows(sources));
    MostHeld {
        records: records.saturating_add(held_back(outlets)),
        size: largest(inlets),
    }
}

fn bytes_of(held: MostHeld) -> u64
    ensures { result ≡ spec.bytes_of held }
{
    held.records.saturating_mul(u64::from(held.size))
}

fn mebibytes_of(held: MostHeld) -> u64
    ensures { result ≡ spec.mebibytes_of held }
{
    bytes_of(held).saturating_add(1_048_575) / 1_048_576
}

// What stands behind the name of the file.
fn append_numbers(
    alloc: Global,
    mebibytes: u64,
    records: u64,
    size: u32,
    text: &mut Vec<u8>,
) -> Result<(), NoMemory>
    ensures { OnOk result
        (text.new.items ≡ text.old.items ++ spec.numbers_text mebibytes records size) }
{
    let numbers = format!(in alloc;
        ": records that wait take at most {mebibytes} MiB of memory: {records} of up to {size} bytes (log-fifo-size of queues, log-iw-size, mem-buf-length; log-msg-size)\n"
    )?;
    text.extend_from_slice(numbers.as_bytes())?;
    Ok(())
}

fn held_text(alloc: Global, file: &[u8], held: MostHeld) -> Result<Vec<u8>, NoMemory>
    ensures { IfOk result (λ text. text.items ≡ spec.held_text file.now held) }
{
    let mut text = file.to_vec(alloc)?;
    append_numbers(
        alloc,
        mebibytes_of(held),
        held.records,
        held.size,
        &mut text,
    )?;
    Ok(text)
}

/// What is told of the memory that they can take, where it is more than 256 MiB. What else a record takes, as
/// its pairs and the values that rewrites set, isn't counted.
pub fn held_hint(alloc: Global, file: &[u8], held: MostHeld) -> Result<Option<Vec<u8>>, NoMemory>
    ensures { IfOk result
        (λ hint. option_map (λ text. text.items) hint ≡ spec.held_hint file.now held) }
{
    if bytes_of(held) <= WORTH {
        return Ok(None);
    }
    Ok(Some(held_text(alloc, file, held)?))
}

/// Tells it of a configuration.
pub(crate) fn tell_held<W: World>(alloc: Global, file: &[u8], config: &Config, world: &mut W)
    ensures { W.state world.new ≡ W.state world.old }
{
    let setup = &config.setup;
    let held = held_by(
        setup.sources.as_slice(),
        setup.dests.as_slice(),
        &config.inlets,
        &config.outlets,
    );
    if let Ok(Some(text)) = held_hint(alloc, file, held) {
        world.tell(&text);
    }
}
