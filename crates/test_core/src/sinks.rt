// A destination, call by call.
ghost use Rattle.std.specs.Prelude.{◌≡◌};

use sg_machine::{BufferSetup, DestSetup, Verdict};
use sg_msg::{Message, Offer};
use sg_sinks::{Sink, offer_block};
use sg_time::Stamp;
use std::alloc::Global;
use std::test::Fail;

const STAMP: Stamp = Stamp { at: 0, offset: 0 };

// What is shown; how many entries without flow-control a queue takes; the capacity of the disk-buffer,
// without one it is a queue in memory; the calls; what they answer; and what is left: entries taken,
// those on the disk and what they take of it, those that wait, and the dropped ones, for lack of room
// and for a failed store.
//
// f100 is an offer with flow-control (n without) of 100 encoded bytes, with an x where the store fails
// within the call; it answers its verdict, Q, S, W, F or D. s2 settles 2 and m moves the first that waits:
// an answer of m where it was moved, of - where it doesn't fit, and of ! where an entry has another place
// or block than it should.
const ROWS: &str = "\
fifo | 2 | - | n100 n100 n100 f100 | QQFQ | 0 0 0 3 1 0
fifo, one taken | 2 | - | n100 n100 s1 n100 n100 | QQQF | 1 0 0 2 1 0
fifo of none | 0 | - | n100 f100 | FQ | 0 0 0 1 1 0
a queue whose store would fail | 2 | - | f100x n100x | QQ | 0 0 0 2 0 0
refill and mark | 2 | 1048576 | f500000 f500000 f500000 | SSW | 0 2 1000010 1 0 0
refill before there is room | 2 | 1048576 | f500000 f500000 f500000 m | SSW- | 0 2 1000010 1 0 0
refill | 2 | 1048576 | f500000 f500000 f500000 s1 m | SSWm | 1 2 1000010 0 0 0
fits to the last byte | 2 | 1048576 | f1048570 s1 f1048571 | SW | 1 0 0 1 0 0
none passes one that waits | 2 | 212 | f100 f300 f60 n60 | SWWF | 0 1 105 2 1 0
one behind a dropped one | 2 | 212 | f100 n300 n60 | SFS | 0 2 170 0 1 0
settled across | 2 | 400 | f100 f100 f100 f100 f100 s4 | SSSWW | 4 0 0 1 0 0
a store fails at an offer | 2 | 400 | f100x n100x f100x | WDW | 0 0 0 2 0 1
a store fails at the first that fits | 2 | 212 | f100 n300x n90x n90x f90x | SFDDW | 0 1 105 1 1 2
a failed store | 2 | 400 | f100x n60 f60 | WDW | 0 0 0 2 0 1
a failed store is emptied | 2 | 400 | f100 f100x s2 | SW | 2 0 0 0 0 0";

// A message of so many encoded bytes: 58 with an empty value of MESSAGE.
pub(crate) fn message(alloc: Global, size: usize) -> Result<Message, Fail> {
    let value = vec![in alloc; 0u8; size.saturating_sub(58)]?;
    let mut message = Message::new(alloc, 13, STAMP, STAMP)?;
    message.set(b"MESSAGE", &value)?;
    Ok(message)
}

pub(crate) fn number(word: &str) -> Result<usize, Fail> {
    Ok(word.trim().parse()?)
}

// The capacity of a disk-buffer, 0 without one.
pub(crate) fn capacity(word: &str) -> Result<u64, Fail> {
    if word.trim() == "-" {
        return Ok(0);
    }
    Ok(word.trim().parse()?)
}

pub(crate) fn letter(verdict: Verdict) -> char {
    match verdict {
        Verdict::Queued => 'Q',
        Verdict::Spooled => 'S',
        Verdict::Waits => 'W',
        Verdict::DroppedFull => 'F',
        Verdict::DroppedDisk => 'D',
    }
}

// A number below 2^32.
pub(crate) fn small(word: &str) -> Result<u32, Fail> {
    Ok(word.trim().parse()?)
}

// An offer of these words, and whether the store fails within the call.
fn offer_of(alloc: Global, word: &str) -> Result<(Offer, bool), Fail> {
    if !(word.starts_with('f') || word.starts_with('n')) {
        return Err(Fail::from("no such call"));
    }
    let size = word.get(1..).unwrap_or("");
    let message = message(alloc, number(size.strip_suffix('x').unwrap_or(size))?)?;
    let flow = word.starts_with('f');
    Ok((
        Offer {
            dest: 0,
            message,
            flow,
        },
        word.ends_with('x'),
    ))
}

fn offer(alloc: Global, sink: &mut Sink, word: &str) -> Result<char, Fail> {
    let (offer, fails) = offer_of(alloc, word)?;
    let block = offer_block(alloc, sink.setup().buffer, 0, 10, &offer)?;
    sink.reserve(1)?;
    Ok(letter(sink.offer(0, 7, offer, block, fails)))
}

// Whether the first that wait are those of the next places.
fn settle_waiting(sink: &mut Sink, n: usize) -> bool {
    for _turn in 0..n {
        if sink.get(0).is_none() {
            return false;
        }
        let place = sink.taken();
        if sink.settle_waiting().place != place {
            return false;
        }
    }
    true
}

fn settle(sink: &mut Sink, n: usize) -> bool {
    let spooled = sink.spooled().min(n);
    let _size = sink.settle_spooled(spooled);
    settle_waiting(sink, n - spooled)
}

// Moves the first that waits, where it fits.
fn refill(sink: &mut Sink) -> char {
    let Some(buffer) = sink.setup().buffer else {
        return '!';
    };
    let mut trial = sink.refill(buffer);
    let Some(entry) = sink.get(0) else {
        return '!';
    };
    if !trial.take(entry.flow, &entry.message) {
        return '-';
    }
    let used = match sink.block(0) {
        Some(block) => sink.used().saturating_add(5).saturating_add(block.size()),
        None => 0,
    };
    sink.move_waiting(buffer);
    if sink.used() == used { 'm' } else { '!' }
}

// The answer of a call, None where it has none.
fn call(alloc: Global, sink: &mut Sink, word: &str) -> Result<Option<char>, Fail> {
    if let Some(n) = word.strip_prefix('s') {
        return Ok(if settle(sink, number(n)?) {
            None
        } else {
            Some('!')
        });
    }
    if word == "m" {
        return Ok(Some(refill(sink)));
    }
    Ok(Some(offer(alloc, sink, word)?))
}

pub(crate) fn shows(alloc: Global, sink: &Sink, text: &str) -> Result<bool, Fail> {
    let (full, disk) = sink.dropped();
    let said = format!(in alloc;
        "{} {} {} {} {full} {disk}",
        sink.taken(),
        sink.spooled(),
        sink.used(),
        sink.waiting()
    )?;
    Ok(said.as_str() == text.trim())
}

// A part of a row, and the rest of it.
pub(crate) fn cut(text: &str) -> Result<(&str, &str), Fail> {
    Ok(text.split_once('|').ok_or("a part is missing")?)
}

fn setup_of(fifo: u32, capacity: u64) -> DestSetup {
    let buffer = BufferSetup { store: 0, capacity };
    DestSetup {
        fifo,
        buffer: if capacity == 0 { None } else { Some(buffer) },
    }
}

// What the calls answer.
fn called(alloc: Global, sink: &mut Sink, calls: &str) -> Result<String, Fail> {
    let mut answers = String::new(alloc);
    for word in calls.split_whitespace() {
        if let Some(answer) = call(alloc, sink, word)? {
            answers.push(answer)?;
        }
    }
    Ok(answers)
}

// Whether the calls answer so, and leave that.
fn comes_to(alloc: Global, sink: &mut Sink, text: &str) -> Result<bool, Fail> {
    let (calls, rest) = cut(text)?;
    let (wanted, left) = cut(rest)?;
    let answers = called(alloc, sink, calls)?;
    Ok(answers.as_str() == wanted.trim() && shows(alloc, sink, left)?)
}

fn is_right(alloc: Global, row: &str) -> Result<bool, Fail> {
    let (_, rest) = cut(row)?;
    let (fifo, rest) = cut(rest)?;
    let (buffer, rest) = cut(rest)?;
    let mut sink = Sink::new(alloc, setup_of(small(fifo)?, capacity(buffer)?));
    comes_to(alloc, &mut sink, rest)
}

#[test]
fn offers_and_entries(rt: HostRuntime) -> Result<(), Fail> {
    let alloc = rt.alloc();
    for row in ROWS.lines() {
        assert!(rt; is_right(alloc, row)?, "{row}");
    }
    Ok(())
}
