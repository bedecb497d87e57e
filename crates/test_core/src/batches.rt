// Batches of records at two destinations, of which the second is a queue in memory.
ghost use Rattle.std.specs.Prelude.{◌≡◌, ◌≤◌, ◌<◌, ◌+◌, ◌^◌, IfOk, OnOk, length};
ghost use Rattle.sg_counter.specs.Bringing.{AllMayEnter};
ghost use Rattle.sg_msg.specs.Offers.{AllWithin};

use crate::sinks::{capacity, cut, letter, message, number, shows, small};
use sg_list::Seq;
use sg_machine::{Admission, BufferSetup, DestSetup};
use sg_msg::Offer;
use sg_offers::{Batch, BatchVerdicts, offer_all, prepare};
use sg_sinks::Sink;
use std::alloc::Global;
use std::test::Fail;

// What is shown; the capacity of destination 0's disk-buffer, without one it is a queue in memory, and
// queues take 2 entries without flow-control; the batches; of the last one which offers its disk-buffer
// is to take (t, else a dot), the verdicts, and the acknowledgements that each record needs; and the
// destinations, each as in the rows of calls.
//
// A batch is its records, each an r with its end and its offers: 0f100 one to destination 0 with
// flow-control (n without) of 100 encoded bytes. It begins with an x where the store of destination 0
// fails within it.
const ROWS: &str = "\
fifo in one batch | - | r10 0n100 r20 0n100 r30 0n100 r40 0f100 | .... | QQFQ | 0 0 0 1 | 0 0 0 3 1 0 | 0 0 0 0 0 0
one record to both | - | r10 0f100 1f100 | .. | QQ | 2 | 0 0 0 1 0 0 | 0 0 0 1 0 0
a record without an offer | - | r10 r20 0f100 r30 | . | Q | 0 1 0 | 0 0 0 1 0 0 | 0 0 0 0 0 0
refill and mark | 1048576 | r10 0f500000 / r20 0f500000 / r30 0f500000 | . | W | 1 | 0 2 1000010 1 0 0 | 0 0 0 0 0 0
refill and mark in one batch | 1048576 | r10 0f500000 r20 0f500000 r30 0f500000 | tt. | SSW | 0 0 1 | 0 2 1000010 1 0 0 | 0 0 0 0 0 0
acknowledgements of others | 1048576 | r10 0f500000 1f100 1n100 r20 1n100 1f100 | t.... | SQQQQ | 1 1 | 0 1 500005 0 0 0 | 0 0 0 4 0 0
fits to the last byte | 212 | r10 0f100 0n101 r20 0n60 | tt. | SSF | 0 0 | 0 2 211 0 1 0 | 0 0 0 0 0 0
one behind a dropped one | 212 | r10 0f100 0n300 0n60 | t.t | SFS | 0 | 0 2 170 0 1 0 | 0 0 0 0 0 0
none passes one that waits | 212 | r10 0f100 0f300 0f60 0n60 | t... | SWWF | 2 | 0 1 105 2 1 0 | 0 0 0 0 0 0
none passes one of a batch before | 212 | r10 0f100 0f300 / r20 0f60 0n60 1n60 | ... | WFQ | 1 | 0 1 105 2 1 0 | 0 0 0 1 0 0
a store fails at an offer | 400 | x r10 0f100 0n100 1f100 r20 0f100 | tt.t | WDQW | 2 1 | 0 0 0 2 0 1 | 0 0 0 1 0 0
a store fails behind others | 212 | r10 0f100 / x r20 0n300 0n90 0f90 | .t. | FDW | 1 | 0 1 105 1 1 1 | 0 0 0 0 0 0
a failed store has no trial | 400 | x r10 0f100 / r20 0n60 0f60 | .. | DW | 1 | 0 0 0 2 0 1 | 0 0 0 0 0 0";

fn destination(capacity: u64) -> DestSetup {
    let buffer = BufferSetup { store: 0, capacity };
    DestSetup {
        fifo: 2,
        buffer: if capacity == 0 { None } else { Some(buffer) },
    }
}

// Both destinations, with nothing in them.
fn destinations(alloc: Global, capacity: u64) -> Result<Seq<Sink>, Fail> {
    let mut sinks = Seq::empty(alloc);
    sinks.push(Sink::new(alloc, destination(capacity)))?;
    sinks.push(Sink::new(alloc, destination(0)))?;
    Ok(sinks)
}

#[tactic(auto, using(sg_msg::proofs::OfferLemmas::within_push))]
fn add_offer(
    alloc: Global,
    offers: &mut Vec<Offer>,
    dest: u32,
    size: usize,
    flow: bool,
) -> Result<(), Fail>
    requires dest { dest < 2 }
    requires within { AllWithin 2 offers.old.items }
    ensures within { OnOk result (AllWithin 2 offers.new.items) }
    ensures count { OnOk result (length offers.new.items ≤ length offers.old.items + 1) }
{
    let message = message(alloc, size)?;
    offers.push(Offer {
        dest,
        message,
        flow,
    })?;
    Ok(())
}

// The offers of these words, of which no other destination has one.
fn offers(alloc: Global, text: &str) -> Result<Vec<Offer>, Fail>
    ensures within { IfOk result (λ offers. AllWithin 2 offers.items) }
    ensures few { IfOk result (λ offers. length offers.items ≤ 1024) }
{
    let mut offers = Vec::new(alloc);
    for word in text.split_whitespace() {
        let flow = word.contains('f');
        let (dest, size) = word
            .split_once(if flow { 'f' } else { 'n' })
            .unwrap_or(("9", ""));
        let dest = small(dest)?;
        if dest >= 2 || offers.len() >= 1024 {
            return Err(Fail::from("no such offer"));
        }
        add_offer(alloc, &mut offers, dest, number(size)?, flow)?;
    }
    Ok(offers)
}

fn add_record(records: &mut Vec<Admission>, end: u32, offers: Vec<Offer>) -> Result<(), Fail>
    requires few { length offers.items ≤ 1024 }
    requires within { AllWithin 2 offers.items }
    requires each { AllMayEnter 2 records.old.items }
    ensures each { OnOk result (AllMayEnter 2 records.new.items) }
{
    records.push(Admission {
        end: u64::from(end),
        offers: Seq::new(offers),
    })?;
    Ok(())
}

fn records(alloc: Global, text: &str) -> Result<Vec<Admission>, Fail>
    ensures { IfOk result (λ records. AllMayEnter 2 records.items) }
{
    let mut records = Vec::new(alloc);
    for part in text.split('r').skip(1) {
        let (end, rest) = part.split_once(' ').unwrap_or((part, ""));
        let offers = offers(alloc, rest)?;
        add_record(&mut records, small(end)?, offers)?;
    }
    Ok(records)
}

// What a batch came to, in words.
#[derive(Drop)]
struct Said {
    taken: String,
    verdicts: String,
    left: String,
}

fn say(alloc: Global, taken: String, answers: &BatchVerdicts) -> Result<Said, Fail> {
    let mut verdicts = String::new(alloc);
    for verdict in &answers.verdicts {
        verdicts.push(letter(*verdict))?;
    }
    let mut left = String::new(alloc);
    for record in &answers.begun {
        let word = format!(in alloc; " {}", record.left)?;
        left.push_str(word.as_str())?;
    }
    Ok(Said {
        taken,
        verdicts,
        left,
    })
}

fn takes(alloc: Global, batch: &Batch) -> Result<String, Fail> {
    let mut taken = String::new(alloc);
    for payload in &batch.payloads {
        taken.push(if payload.taken { 't' } else { '.' })?;
    }
    Ok(taken)
}

// A batch at the destinations.
fn enter(alloc: Global, sinks: &mut Seq<Sink>, next: u64, text: &str) -> Result<Said, Fail>
    requires next { next < 2 ^ 32 }
{
    let records = records(alloc, text)?;
    if sinks.len() != 2 || records.len() > 1000 {
        return Err(Fail::from("no such batch"));
    }
    let mut batch = prepare(alloc, sinks, 0, records.as_slice())?;
    let taken = takes(alloc, &batch)?;
    if text.contains('x') {
        batch.fails[0] = true;
    }
    let answers = offer_all(sinks, 0, next, records, batch);
    say(alloc, taken, &answers)
}

// Whether there is nothing before the records, or that the store fails.
fn is_batch(text: &str) -> bool {
    let begin = text.split('r').next().unwrap_or("").trim();
    begin.is_empty() || begin == "x"
}

// The batches one after another; what the last one came to.
fn enter_all(alloc: Global, sinks: &mut Seq<Sink>, text: &str) -> Result<Option<Said>, Fail> {
    let mut said = None;
    let mut next = 0;
    for batch in text.split('/') {
        if next > 1000 || !is_batch(batch) {
            return Ok(None);
        }
        said = Some(enter(alloc, sinks, next, batch)?);
        next += 100;
    }
    Ok(said)
}

// Whether the last batch came to these answers, and what stands behind them.
fn says<'a>(said: &Said, text: &'a str) -> Result<(bool, &'a str), Fail> {
    let (taken, rest) = cut(text)?;
    let (verdicts, rest) = cut(rest)?;
    let (left, rest) = cut(rest)?;
    let same = said.taken.as_str() == taken.trim()
        && said.verdicts.as_str() == verdicts.trim()
        && said.left.as_str().trim() == left.trim();
    Ok((same, rest))
}

// Whether the batches answer so, and leave that.
fn comes_to(alloc: Global, sinks: &mut Seq<Sink>, text: &str) -> Result<bool, Fail> {
    let (batches, wanted) = cut(text)?;
    let Some(said) = enter_all(alloc, sinks, batches)? else {
        return Ok(false);
    };
    let (same, left) = says(&said, wanted)?;
    Ok(same && shows_both(alloc, sinks, left)?)
}

fn is_right(alloc: Global, row: &str) -> Result<bool, Fail> {
    let (_, rest) = cut(row)?;
    let (buffer, rest) = cut(rest)?;
    let mut sinks = destinations(alloc, capacity(buffer)?)?;
    comes_to(alloc, &mut sinks, rest)
}

fn shows_both(alloc: Global, sinks: &Seq<Sink>, text: &str) -> Result<bool, Fail> {
    let (first, second) = cut(text)?;
    match (sinks.get(0), sinks.get(1)) {
        (Some(sink), Some(queue)) => {
            Ok(shows(alloc, sink, first)? && shows(alloc, queue, second)?)
        }
        _ => Ok(false),
    }
}

#[test]
fn batches_and_their_answers(rt: HostRuntime) -> Result<(), Fail> {
    let alloc = rt.alloc();
    for row in ROWS.lines() {
        assert!(rt; is_right(alloc, row)?, "{row}");
    }
    Ok(())
}
