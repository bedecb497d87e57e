// The disk-buffer of a destination.
ghost use Rattle.std.specs.Prelude.{◌≡◌, [], ◌∷◌, ◌++◌, decimal, codes, IfOk};
ghost use Rattle.std.specs.Option.{option_copied, option_map};
ghost use Rattle.sg_fault.specs.Faults.{least};
ghost use Rattle.sg_options.specs.Settings.{calls_of};
ghost use Rattle.sg_options.specs.Checks.{bad_values};
ghost use Rattle.sg_destination.specs.Buffers as spec;

use itoa::Buffer;
use sg_device::{Name, NoMemory};
use sg_driver::{BUFFER_SIZE, MEMORY_LENGTH, PORTS, driver_kind, missing_unless, name_of};
use sg_fault::{Placed, earlier};
use sg_options::{
    Check, args_of, buffer_name, first_bad_argument, is_called, last_argument, last_argument_value,
    nested_of, number_or, overflow_name, text_or, truth_or,
};
use sg_outfmt::DriverKind;
use sg_outside::StoreSpec;
use sg_parse_expr::{Arg, Call};
use sg_run_plan::OverflowPlan;
use std::alloc::Global;

/// The reliable disk-buffer of a destination: the name of its store, its capacity in bytes, and whether its
/// file is made with all the bytes that it can come to have.
#[derive(Drop)]
pub struct DiskBuffer {
    pub store: Name,
    pub capacity: u64,
    pub whole: bool,
}

const CHECKS: [(&[u8], Check); 2] = [
    (b"disk-buf-size", Check::Within(BUFFER_SIZE)),
    (b"capacity-bytes", Check::Within(BUFFER_SIZE)),
];

const MEMORY_CHECKS: [(&[u8], Check); 1] = [(b"mem-buf-length", Check::Within(MEMORY_LENGTH))];

const SIZE_WORDS: [&[u8]; 2] = [b"disk-buf-size", b"capacity-bytes"];

#[tactic(auto, unfolding(crate::specs::Buffers::buffer_checks))]
fn bad_option(args: &[Arg]) -> Option<Placed>
    ensures { result ≡ least (bad_values spec.buffer_checks (calls_of args.now)) }
{
    first_bad_argument(&CHECKS, args)
}

// Whether a disk-buffer is reliable.
fn is_reliable(buffer: &Call) -> bool
    ensures { result ≡ spec.is_reliable buffer.now }
{
    truth_or(last_argument_value(&[b"reliable"], args_of(buffer)), true)
}

// What is wrong with the number of frames in memory, where that counts.
#[tactic(auto, unfolding(crate::specs::Buffers::memory_checks))]
fn bad_length(buffer: &Call) -> Option<Placed>
    ensures { result ≡ least (spec.length_faults buffer.now) }
{
    if is_reliable(buffer) {
        None
    } else {
        first_bad_argument(&MEMORY_CHECKS, args_of(buffer))
    }
}

// What is wrong with the options of one disk-buffer.
#[tactic(auto, using(sg_fault::proofs::Least::least_append))]
fn own_fault(call: &Call) -> Option<Placed>
    ensures { result ≡ least (spec.own_buffer_faults call.now) }
{
    let args = args_of(call);
    let reliable = missing_unless(last_argument(&[b"reliable"], args), call);
    let size = missing_unless(last_argument(&SIZE_WORDS, args), call);
    earlier(
        reliable,
        earlier(size, earlier(bad_option(args), bad_length(call))),
    )
}

fn option_fault(call: &Call) -> Option<Placed>
    ensures { result ≡ least (spec.buffer_option_faults call.now) }
{
    if is_called(&[b"disk-buffer"], call) {
        own_fault(call)
    } else {
        None
    }
}

#[tactic(auto, using(sg_fault::proofs::Least::least_append, sg_fault::proofs::Least::earlier_none))]
fn argument_fault(arg: &Arg) -> Option<Placed>
    ensures { result ≡ least (spec.buffer_faults (calls_of (arg.now ∷ []))) }
{
    match nested_of(arg) {
        Some(call) => option_fault(call),
        None => None,
    }
}

/// The first fault of the disk-buffers among the arguments of a destination: `MissingOption` at their
/// word, `BadValue` at a size.
pub(crate) fn buffer_fault(args: &[Arg]) -> Option<Placed>
    ensures { result ≡ least (spec.buffer_faults (calls_of args.now)) }
{
    let mut found = None;
    for arg in args {
        found = earlier(found, argument_fault(arg));
    }
    found
}

/// The port of a destination, 0 where it is missing.
pub(crate) fn port_of(call: &Call) -> u16
    ensures { result ≡ spec.port_of call.now }
{
    let value = last_argument_value(&[b"port"], args_of(call));
    number_or(value, PORTS, 0) as u16
}

// What a destination is, as its word says: the word, a comma, the host, a comma and the port.
fn host_text(alloc: Global, word: &[u8], host: &[u8], port: u16) -> Result<Vec<u8>, NoMemory>
    ensures { IfOk result
        (λ text. text.items ≡ word.now ++ (host.now ++ (codes "," ++ decimal port))) }
{
    let mut buffer = Buffer::new();
    let mut text = word.to_vec(alloc)?;
    text.extend_from_slice(host)?;
    text.extend_from_slice(b",")?;
    text.extend_from_slice(buffer.format(port).as_bytes())?;
    Ok(text)
}

fn file_text(alloc: Global, path: &[u8]) -> Result<Vec<u8>, NoMemory>
    ensures { IfOk result (λ text. text.items ≡ codes "file," ++ path.now) }
{
    let mut text = b"file,".to_vec(alloc)?;
    text.extend_from_slice(path)?;
    Ok(text)
}

fn destination_text(
    alloc: Global,
    kind: DriverKind,
    name: &[u8],
    port: u16,
) -> Result<Vec<u8>, NoMemory>
    ensures { IfOk result (λ text. text.items ≡ spec.destination_text kind name.now port) }
{
    match kind {
        DriverKind::File => Ok(file_text(alloc, name)?),
        DriverKind::Network => Ok(host_text(alloc, b"network,", name, port)?),
        DriverKind::Syslog => Ok(host_text(alloc, b"syslog,", name, port)?),
    }
}

fn store_of_buffer(alloc: Global, call: &Call, buffer: &Call) -> Result<Name, NoMemory>
    ensures { IfOk result (λ store. store ≡ spec.store_of_buffer call.now buffer.now) }
{
    let text = destination_text(alloc, driver_kind(call), name_of(call), port_of(call))?;
    let directory = text_or(last_argument_value(&[b"dir"], args_of(buffer)), b".");
    if is_reliable(buffer) {
        Ok(buffer_name(alloc, directory, &text)?)
    } else {
        Ok(overflow_name(alloc, directory, &text)?)
    }
}

fn counting_buffer(call: &Call) -> Option<&Call>
    ensures { option_copied result ≡ spec.counting_buffer call.now }
{
    last_argument(&[b"disk-buffer"], args_of(call))
}

/// The name of the store of a destination's disk-buffer, none where it has none.
pub fn store_of_destination(alloc: Global, call: &Call) -> Result<Option<Name>, NoMemory>
    ensures { IfOk result (λ store. store ≡ spec.store_of_destination call.now) }
{
    match counting_buffer(call) {
        Some(buffer) => Ok(Some(store_of_buffer(alloc, call, buffer)?)),
        None => Ok(None),
    }
}

fn capacity_of(buffer: &Call) -> u64
    ensures { result ≡ spec.capacity_of buffer.now }
{
    let value = last_argument_value(&SIZE_WORDS, args_of(buffer));
    let size = number_or(value, BUFFER_SIZE, 1_048_576);
    if size < 1_048_576 {
        1_048_576
    } else {
        u64::from(size)
    }
}

// Whether its file is made whole.
fn whole_of(buffer: &Call) -> bool
    ensures { result ≡ spec.whole_of buffer.now }
{
    truth_or(last_argument_value(&[b"prealloc"], args_of(buffer)), false)
}

// The bytes with which the file of a disk-buffer is made that isn't reliable.
fn size_of(capacity: u64, whole: bool) -> u64
    ensures { result ≡ spec.size_by whole capacity }
{
    if whole {
        capacity.saturating_mul(2).saturating_add(68)
    } else {
        128
    }
}

fn memory_of(buffer: &Call) -> u32
    ensures { result ≡ spec.memory_of buffer.now }
{
    let value = last_argument_value(&[b"mem-buf-length"], args_of(buffer));
    number_or(value, MEMORY_LENGTH, 1_000)
}

/// The disk-buffer of a destination that isn't reliable, none where it has no such one.
pub(crate) fn overflow_of(alloc: Global, call: &Call) -> Result<Option<OverflowPlan>, NoMemory>
    ensures { IfOk result (λ overflow. overflow ≡ spec.overflow_of call.now) }
{
    let Some(buffer) = counting_buffer(call) else {
        return Ok(None);
    };
    if is_reliable(buffer) {
        return Ok(None);
    }
    let capacity = capacity_of(buffer);
    Ok(Some(OverflowPlan {
        store: StoreSpec {
            name: store_of_buffer(alloc, call, buffer)?,
            create: true,
            size: size_of(capacity, whole_of(buffer)),
        },
        capacity,
        memory: memory_of(buffer),
    }))
}

/// The reliable disk-buffer of a destination, none where it has no such one.
pub(crate) fn buffer_of(alloc: Global, call: &Call) -> Result<Option<DiskBuffer>, NoMemory>
    ensures { IfOk result (λ buffer. buffer ≡ spec.buffer_of call.now) }
{
    let Some(buffer) = counting_buffer(call) else {
        return Ok(None);
    };
    if !is_reliable(buffer) {
        return Ok(None);
    }
    Ok(Some(DiskBuffer {
        store: store_of_buffer(alloc, call, buffer)?,
        capacity: capacity_of(buffer),
        whole: whole_of(buffer),
    }))
}
