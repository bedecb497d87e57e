// Calls of a core, and what they answer.
ghost use Rattle.std.specs.Prelude.{◌≡◌, ◌≤◌, ◌<◌, ◌+◌, ◌^◌, ℕ, IfOk, OnOk, IsSome, length};
ghost use Rattle.sg_counter.specs.Bringing.{AllMayEnter, store_in};
ghost use Rattle.sg_msg.specs.Offers.{AllWithin};

use crate::cores::{SECOND, add_offer, add_record, disks, open};
use sg_counter::{Counter, Settler};
use sg_machine::Admission;
use sg_memory_disk::{DiskChange, MemoryDisk};
use sg_msg::Offer;
use std::alloc::{AllocError, Global};
use std::sync::Wait;
use test_replies::{
    ReplyText, Teller, is_call, number, put_admitted, put_front, put_number, put_refilled,
    put_settled, put_stored, told,
};

// A row has what is shown; the windows; how many entries without flow-control the queue takes; the capacity of
// the disk-buffer of destination 0; and the calls. Its answers stand in their order, and behind them how many
// syncs each store has made.
//
// Sources 0 to 2 have the position stores 0 to 2. Destination 0 has a disk-buffer in store 3, destination 2
// one of 400 bytes in store 4, destination 1 is a queue in memory. How calls are written stands at `is_call`. An
// admit answers the verdicts Q, S, W, F and D, or for lack of credit - and how many records came back; a front the
// first's place and their number, or e where none is left; a settle k, or - where that isn't the front; a refill
// how many moved, - where none waits, o where the first doesn't fit. A store that has failed answers x.

// The offer of a word as d1f100, behind its d.
fn offer_word(alloc: Global, offers: &mut Vec<Offer>, word: &str) -> Result<(), AllocError>
    requires few { length offers.old.items < 1024 }
    requires within { AllWithin 3 offers.old.items }
    ensures within { OnOk result (AllWithin 3 offers.new.items) }
    ensures count { OnOk result (length offers.new.items ≤ length offers.old.items + 1) }
{
    let flow = word.contains('f');
    let (dest, size) = word
        .split_once(if flow { 'f' } else { 'n' })
        .unwrap_or(("", ""));
    let dest = number(Some(dest));
    if dest >= 3 {
        return Ok(());
    }
    let size = number(Some(size)) as usize;
    if size > 1 << 30 {
        return Ok(());
    }
    add_offer(alloc, offers, dest, 0, size, flow)
}

// The offers of a record, the words behind its end.
fn offers(alloc: Global, text: &str) -> Result<Vec<Offer>, AllocError>
    ensures within { IfOk result (λ offers. AllWithin 3 offers.items) }
    ensures few { IfOk result (λ offers. length offers.items ≤ 1024) }
{
    let mut offers = Vec::new(alloc);
    for word in text.split_whitespace() {
        if let Some(word) = word.strip_prefix('d') {
            if offers.len() < 1024 {
                offer_word(alloc, &mut offers, word)?;
            }
        }
    }
    Ok(offers)
}

// The records of an admit: each begins with an r and its end.
fn records(alloc: Global, text: &str) -> Result<Vec<Admission>, AllocError>
    ensures { IfOk result (λ records. AllMayEnter 3 records.items) }
{
    let mut records = Vec::new(alloc);
    for part in text.split('r').skip(1) {
        let (end, rest) = part.split_once(' ').unwrap_or((part, ""));
        let offers = offers(alloc, rest)?;
        add_record(&mut records, u64::from(number(Some(end))), offers)?;
    }
    Ok(records)
}

#[tactic(auto, using(crate::proofs::TestLemmas::batch_of))]
fn admit<C: Counter, T: Wait>(
    rt: &T,
    alloc: Global,
    counter: &mut C,
    i: u32,
    text: &str,
    out: &mut ReplyText,
)
    requires left { 0 < C.left counter.old }
    requires inlet { i < 3 }
    requires sources { length (C.setup counter.old).sources ≡ 3 }
    requires dests { length (C.setup counter.old).dests ≡ 3 }
    ensures setup { C.setup counter.new ≡ C.setup counter.old }
    ensures left { C.left counter.old ≤ C.left counter.new + 1 }
{
    let records = match records(alloc, text) {
        Ok(records) => records,
        Err(_) => return out.miss(),
    };
    if records.is_empty() {
        return;
    }
    if records.len() > 1000 {
        return;
    }
    put_admitted(out, counter.admit(rt, alloc, i, records))
}

// A call by its first word, which has a letter and numbers.
fn call<C: Settler<Teller>, T: Wait>(
    rt: &T,
    alloc: Global,
    counter: &mut C,
    text: &str,
    out: &mut ReplyText,
)
    requires left { 0 < C.left counter.old }
    requires sources { length (C.setup counter.old).sources ≡ 3 }
    requires dests { length (C.setup counter.old).dests ≡ 3 }
    requires stores { (i : ℕ) → i < 3 → IsSome (store_in (C.setup counter.old).sources i) }
    ensures setup { C.setup counter.new ≡ C.setup counter.old }
    ensures left { C.left counter.old ≤ C.left counter.new + 1 }
{
    let (first, rest) = text.split_once(' ').unwrap_or((text, ""));
    let mut words = first.get(1..).unwrap_or("").split(',');
    let which = number(words.next());
    let place = number(words.next());
    let n = number(words.next());
    if which >= 3 {
        return out.put_word(b"?");
    }
    match first.chars().next() {
        Some('a') => admit(rt, alloc, counter, which, rest, out),
        Some('f') if place > 0 && place <= 1000 => {
            put_front(out, counter.front(rt, alloc, which, place))
        }
        Some('s') if n > 0 => {
            put_settled(out, counter.settle(rt, which, u64::from(place), n, told(0)))
        }
        Some('m') => put_refilled(out, counter.refill(rt, which)),
        Some('p') => put_stored(out, counter.store(rt, which)),
        Some('c') => put_number(out, counter.credit(rt, which)),
        _ => out.put_word(b"?"),
    }
}

fn call_all<C: Settler<Teller>, T: Wait>(
    rt: &T,
    alloc: Global,
    counter: &mut C,
    text: &str,
    out: &mut ReplyText,
)
    requires left { 1000 < C.left counter.old }
    requires sources { length (C.setup counter.old).sources ≡ 3 }
    requires dests { length (C.setup counter.old).dests ≡ 3 }
    requires stores { (i : ℕ) → i < 3 → IsSome (store_in (C.setup counter.old).sources i) }
{
    let mut spare = 1000u32;
    for part in text.split('/') {
        if spare == 0 {
            return;
        }
        spare -= 1;
        call(rt, alloc, counter, part.trim(), out);
    }
}

fn syncs_of(disk: &MemoryDisk) -> u64 {
    let changes = disk.changes().iter();
    let syncs = changes.filter(|change| matches!(change, DiskChange::Synced));
    syncs.count() as u64
}

// How many syncs each store has made.
fn put_syncs(out: &mut ReplyText, disks: &[MemoryDisk]) {
    out.put_word(b"syncs");
    for disk in disks {
        put_number(out, syncs_of(disk));
    }
}

fn are_calls(text: &str) -> bool {
    for part in text.split('/') {
        if !is_call(part.trim(), 3) {
            return false;
        }
    }
    true
}

// A row's setup, and its calls.
#[derive(Clone, Copy, Drop)]
struct CoreRow<'a> {
    window: u32,
    fifo: u32,
    capacity: u32,
    text: &'a str,
}

fn words_of(row: &str) -> CoreRow<'_> {
    let mut parts = row.split('|').skip(1);
    CoreRow {
        window: number(Some(parts.next().unwrap_or("").trim())),
        fifo: number(Some(parts.next().unwrap_or("").trim())),
        capacity: number(Some(parts.next().unwrap_or("").trim())),
        text: parts.next().unwrap_or(""),
    }
}

fn answers<T: Wait>(rt: &T, alloc: Global, asked: CoreRow<'_>) -> Result<Vec<u8>, AllocError> {
    if asked.window == 0 || asked.capacity > 1 << 30 {
        return Vec::from_slice(alloc, b"no such setup");
    }
    let capacity = u64::from(asked.capacity);
    let disks = disks(alloc)?;
    let Ok(mut core) = open(alloc, asked.window, asked.fifo, capacity, SECOND, disks) else {
        return Vec::from_slice(alloc, b"not opened");
    };
    let mut out = ReplyText::new(alloc);
    call_all(rt, alloc, &mut core, asked.text, &mut out);
    put_syncs(&mut out, &core.into_stores());
    out.done()
}

/// What the calls of a row answer.
pub(crate) fn said<T: Wait>(rt: &T, alloc: Global, row: &str) -> Result<Vec<u8>, AllocError> {
    let asked = words_of(row);
    if row.split('|').count() != 5 || !are_calls(asked.text) {
        return Vec::from_slice(alloc, b"not understood");
    }
    if asked.window == u32::MAX || asked.fifo == u32::MAX {
        return Vec::from_slice(alloc, b"no such setup");
    }
    answers(rt, alloc, asked)
}
