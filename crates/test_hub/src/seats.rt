// Calls at two seats in turn.
ghost use Rattle.std.specs.Prelude.{◌≡◌, ◌≤◌, ◌<◌, ◌+◌, ◌^◌, IfOk};
ghost use Rattle.sg_booth.specs.Desks.{IsDeskOf};
ghost use Rattle.sg_standing.specs.States.{setup_of};
ghost use Rattle.sg_hub.specs.Seats.{SeatStep};
ghost use Rattle.test_hub.specs.Cores.{IsTriedSetup, MayAsk};

use crate::calls::{ask, put_reply, read_call};
use crate::cores::open;
use sg_core::Core;
use sg_counter::{CoreCall, CoreReply};
use sg_hub::{Hub, HubSeat, Seat, SeatCounts};
use sg_machine::Tally;
use sg_memory_disk::MemoryDisk;
use std::alloc::{AllocError, Global};
use std::sync::Wait;
use test_replies::{ReplyText, is_call, number, put_number};

// A row has what is shown; the windows; how many entries without flow-control the queue takes; the capacity of
// the disk-buffer; and the calls, at most 1,000. Before each stands the seat at which it is made, 1 or 2. Where there
// is `meet` in place of a call, the seats are joined, and the second is split off anew.

const CALLS: u64 = 1000;

/// Makes a call at a seat.
pub(crate) fn ask_at<T: Wait>(
    rt: &T,
    alloc: Global,
    hub: &Hub<MemoryDisk>,
    seat: &mut Seat<MemoryDisk>,
    call: CoreCall,
) -> CoreReply
    requires seat { IsDeskOf hub.now seat.old }
    requires left { 0 < seat.old.left }
    requires tried { IsTriedSetup (setup_of hub.now.made) }
    requires may { MayAsk call }
    ensures step { SeatStep hub.entry.now seat.old call result seat.new }
{
    let mut passed = SeatCounts::new(alloc);
    let mut counter = HubSeat {
        hub,
        seat,
        passed: &mut passed,
    };
    ask(rt, alloc, &mut counter, call)
}

// The answer to one call of a row at a core.
fn answer<T: Wait>(
    rt: &T,
    alloc: Global,
    core: &mut Core<MemoryDisk>,
    text: &str,
    out: &mut ReplyText,
)
    requires few { core.old.calls + 1 < 2 ^ 54 }
    requires tried { IsTriedSetup (setup_of core.old) }
    ensures calls { core.new.calls ≤ core.old.calls + 1 }
    ensures tried { IsTriedSetup (setup_of core.new) }
{
    let (_, words) = text.split_once(' ').unwrap_or(("", ""));
    match read_call(alloc, words) {
        Ok(Some(call)) => put_reply(out, ask(rt, alloc, core, call)),
        Ok(None) => {}
        Err(_) => out.miss(),
    }
}

// The answers to the calls of a row at a core.
fn at_core<T: Wait>(
    rt: &T,
    alloc: Global,
    core: &mut Core<MemoryDisk>,
    text: &str,
    out: &mut ReplyText,
)
    requires calls { core.old.calls ≡ 0 }
    requires tried { IsTriedSetup (setup_of core.old) }
{
    let mut spare = CALLS;
    for part in text.split('/') {
        if spare == 0 {
            return;
        }
        spare -= 1;
        answer(rt, alloc, core, part.trim(), out);
    }
}

// What the core has come to.
fn put_tally(out: &mut ReplyText, tally: &Tally) {
    out.put_word(b"records");
    for source in tally.sources.as_slice() {
        put_number(out, source.records);
    }
    out.put_word(b"left");
    for dest in tally.dests.as_slice() {
        put_number(out, dest.left);
    }
}

// What was said, and what the core has come to.
fn with_tally(
    alloc: Global,
    out: ReplyText,
    core: Core<MemoryDisk>,
) -> Result<Vec<u8>, AllocError> {
    let mut out = out;
    let tally = core.tally(alloc);
    let _disks = core.into_stores();
    put_tally(&mut out, &tally?);
    out.done()
}

// The answer to one call of a row at a seat.
fn answer_at<T: Wait>(
    rt: &T,
    alloc: Global,
    hub: &Hub<MemoryDisk>,
    seat: &mut Seat<MemoryDisk>,
    text: &str,
    out: &mut ReplyText,
)
    requires seat { IsDeskOf hub.now seat.old }
    requires left { 0 < seat.old.left }
    requires tried { IsTriedSetup (setup_of hub.now.made) }
    ensures seat { IsDeskOf hub.entry.now seat.new }
    ensures left { seat.old.left ≤ seat.new.left + 1 }
{
    match read_call(alloc, text) {
        Ok(Some(call)) => put_reply(out, ask_at(rt, alloc, hub, seat, call)),
        Ok(None) => {}
        Err(_) => out.miss(),
    }
}

// Each of two seats sees what both had seen, by a note of each that the other takes over.
fn meet(hub: &Hub<MemoryDisk>, one: &mut Seat<MemoryDisk>, two: &mut Seat<MemoryDisk>)
    requires one { IsDeskOf hub.now one.old }
    requires two { IsDeskOf hub.now two.old }
    requires one_left { 0 < one.old.left }
    requires two_left { 0 < two.old.left }
    ensures one { IsDeskOf hub.entry.now one.new }
    ensures two { IsDeskOf hub.entry.now two.new }
    ensures one_left { one.new.left ≡ one.old.left }
    ensures two_left { two.new.left ≡ two.old.left }
{
    let note = hub.split(two, 0);
    hub.join(one, note);
    let note = hub.split(one, 0);
    hub.join(two, note);
}

// What one part of a row comes to.
fn take_part<T: Wait>(
    rt: &T,
    alloc: Global,
    hub: &Hub<MemoryDisk>,
    one: &mut Seat<MemoryDisk>,
    two: &mut Seat<MemoryDisk>,
    text: &str,
    out: &mut ReplyText,
)
    requires one { IsDeskOf hub.now one.old }
    requires two { IsDeskOf hub.now two.old }
    requires one_left { 0 < one.old.left }
    requires two_left { 0 < two.old.left }
    requires tried { IsTriedSetup (setup_of hub.now.made) }
    ensures one { IsDeskOf hub.entry.now one.new }
    ensures two { IsDeskOf hub.entry.now two.new }
    ensures one_left { one.old.left ≤ one.new.left + 1 }
    ensures two_left { two.old.left ≤ two.new.left + 1 }
{
    let (which, words) = text.split_once(' ').unwrap_or((text, ""));
    match which.chars().next() {
        Some('1') => answer_at(rt, alloc, hub, one, words, out),
        Some('2') => answer_at(rt, alloc, hub, two, words, out),
        _ => meet(hub, one, two),
    }
}

// The answers to the calls of a row at two seats.
fn at_seats<T: Wait>(
    rt: &T,
    alloc: Global,
    hub: &Hub<MemoryDisk>,
    one: &mut Seat<MemoryDisk>,
    two: &mut Seat<MemoryDisk>,
    text: &str,
    out: &mut ReplyText,
)
    requires one { IsDeskOf hub.now one.old }
    requires two { IsDeskOf hub.now two.old }
    requires one_left { 1000 < one.old.left }
    requires two_left { 1000 < two.old.left }
    requires tried { IsTriedSetup (setup_of hub.now.made) }
    ensures one { IsDeskOf hub.entry.now one.new }
    ensures two { IsDeskOf hub.entry.now two.new }
    ensures one_left { 0 < one.new.left }
{
    let mut spare = CALLS;
    for part in text.split('/') {
        if spare == 0 {
            return;
        }
        spare -= 1;
        take_part(rt, alloc, hub, one, two, part.trim(), out);
    }
}

// What two seats of a hub over this core answer, and the core at its end.
fn at_hub<T: Wait>(
    rt: &T,
    alloc: Global,
    core: Core<MemoryDisk>,
    text: &str,
) -> Result<Vec<u8>, AllocError>
    requires calls { core.calls ≡ 0 }
    requires tried { IsTriedSetup (setup_of core) }
{
    let (hub, mut one) = match Hub::new(alloc, core) {
        Ok(made) => made,
        Err((core, e)) => {
            let _disks = core.into_stores();
            return Err(e);
        }
    };
    let mut out = ReplyText::new(alloc);
    let mut two = hub.split(&mut one, CALLS + 1);
    at_seats(rt, alloc, &hub, &mut one, &mut two, text, &mut out);
    hub.join(&mut one, two);
    with_tally(alloc, out, hub.close(rt, one))
}

// Whether it is a call at one of the seats, or that they meet.
fn is_part(alloc: Global, text: &str) -> Result<bool, AllocError> {
    if text == "meet" {
        return Ok(true);
    }
    let (seat, words) = text.split_once(' ').unwrap_or((text, ""));
    if !(seat == "1" || seat == "2") || !is_call(words, 2) {
        return Ok(false);
    }
    Ok(read_call(alloc, words)?.is_some())
}

fn are_parts(alloc: Global, text: &str) -> Result<bool, AllocError> {
    for part in text.split('/') {
        if !is_part(alloc, part.trim())? {
            return Ok(false);
        }
    }
    Ok(true)
}

// A row's setup, and its calls.
#[derive(Clone, Copy, Drop)]
struct HubRow<'a> {
    window: u32,
    fifo: u32,
    capacity: u32,
    text: &'a str,
}

fn words_of(row: &str) -> HubRow<'_> {
    let mut parts = row.split('|').skip(1);
    HubRow {
        window: number(Some(parts.next().unwrap_or("").trim())),
        fifo: number(Some(parts.next().unwrap_or("").trim())),
        capacity: number(Some(parts.next().unwrap_or("").trim())),
        text: parts.next().unwrap_or(""),
    }
}

fn said_at_core<T: Wait>(rt: &T, alloc: Global, asked: HubRow<'_>) -> Result<Vec<u8>, AllocError>
    requires window { 0 < asked.window }
    requires capacity { asked.capacity ≤ 2 ^ 30 }
{
    let capacity = u64::from(asked.capacity);
    let mut core = open(alloc, asked.window, asked.fifo, capacity)?;
    let mut out = ReplyText::new(alloc);
    at_core(rt, alloc, &mut core, asked.text, &mut out);
    with_tally(alloc, out, core)
}

fn said_at_hub<T: Wait>(rt: &T, alloc: Global, asked: HubRow<'_>) -> Result<Vec<u8>, AllocError>
    requires window { 0 < asked.window }
    requires capacity { asked.capacity ≤ 2 ^ 30 }
{
    let capacity = u64::from(asked.capacity);
    let core = open(alloc, asked.window, asked.fifo, capacity)?;
    at_hub(rt, alloc, core, asked.text)
}

fn differing(alloc: Global, said: &[u8], plain: &[u8]) -> Result<Vec<u8>, AllocError> {
    let mut out = ReplyText::new(alloc);
    out.put(b"DIFFERS ");
    out.put(said);
    out.put(b" | ");
    out.put(plain);
    out.done()
}

fn compared<T: Wait>(rt: &T, alloc: Global, asked: HubRow<'_>) -> Result<Vec<u8>, AllocError> {
    if asked.window == 0 || asked.capacity > 1 << 30 {
        return Vec::from_slice(alloc, b"no such setup");
    }
    let plain = said_at_core(rt, alloc, asked)?;
    let said = said_at_hub(rt, alloc, asked)?;
    if said.as_slice() == plain.as_slice() {
        return Ok(said);
    }
    differing(alloc, &said, &plain)
}

/// What the calls of a row answer at two seats, which is what they answer at a core.
pub(crate) fn said<T: Wait>(rt: &T, alloc: Global, row: &str) -> Result<Vec<u8>, AllocError> {
    let asked = words_of(row);
    if row.split('|').count() != 5 || !are_parts(alloc, asked.text)? {
        return Vec::from_slice(alloc, b"not understood");
    }
    if asked.window == u32::MAX || asked.fifo == u32::MAX {
        return Vec::from_slice(alloc, b"no such setup");
    }
    compared(rt, alloc, asked)
}
