// Replays of small lists of events.
ghost use Rattle.std.specs.Prelude.{◌<◌, length};

use sg_list::Seq;
use sg_machine::{
    Act, Admission, BufferSetup, DestSetup, DestTally, Event, Setup, SourceSetup, SourceTally,
    Tally, Verdict, replay,
};
use sg_msg::{Message, Offer};
use sg_time::Stamp;
use std::alloc::{AllocError, Global};
use std::test::Fail;

const STAMP: Stamp = Stamp { at: 0, offset: 0 };

// What is shown; the window of inlet 0, and the capacity of the disk-buffers of destinations 0 and 2
// (without one they are queues in memory); the events; and the tally of inlet 0 (records, mark, stored)
// and of destinations 0 and 1 (taken, dropped for lack of room and for a failed store, left), or None
// where the events aren't legal.
//
// Inlet 0 has the position store 0, the disk-buffers have the stores 1 and 2, and queues take 2 entries
// without flow-control. Each event begins with a word: a0 an Admit of inlet 0, s0,2 a Settle of 2 at
// destination 0, m0,2 a Refill of 2, p0,9 a Store of 9, w0 a Rewind, l a Look. Behind it stand, of an
// Admit, r9 a record that ends at 9, d1f100 its offer to destination 1 with flow-control (n without)
// of 100 encoded bytes, and the verdicts Q, S, W, F and D; and x1, where store 1 fails.
const ROWS: &str = "\
no events | 100 | - |  | 0 0 0; 0 0 0 0; 0 0 0 0
nothing is left | 100 | - | s0,1 | None
fifo | 100 | - | a0 r10 d0n100 Q / a0 r20 d0n100 Q / a0 r30 d0n100 F / a0 r40 d0f100 Q | 4 30 0; 0 1 0 3; 0 0 0 0
fifo in one batch | 100 | - | a0 r10 d0n100 r20 d0n100 r30 d0n100 r40 d0f100 Q Q F Q | 4 30 0; 0 1 0 3; 0 0 0 0
a third in a queue of two | 100 | - | a0 r10 d0n100 r20 d0n100 r30 d0n100 Q Q Q | None
dropped with room | 100 | - | a0 r10 d0n100 F | None
dropped with flow-control | 100 | - | a0 r10 d0f100 r20 d0f100 r30 d0f100 Q Q F | None
refill and mark | 100 | 1048576 | a0 r10 d0f500000 S / a0 r20 d0f500000 S / a0 r30 d0f500000 W / a0 r40 d1f100 Q / s1,1 / a0 r50 d1f100 Q / s1,1 | 5 20 0; 0 0 0 3; 2 0 0 0
refill and mark, refilled | 100 | 1048576 | a0 r10 d0f500000 S / a0 r20 d0f500000 S / a0 r30 d0f500000 W / a0 r40 d1f100 Q / s1,1 / a0 r50 d1f100 Q / s1,1 / s0,1 / m0,1 | 5 50 0; 1 0 0 2; 2 0 0 0
refill and mark in one batch | 100 | 1048576 | a0 r10 d0f500000 r20 d0f500000 r30 d0f500000 S S W / a0 r40 d1f100 r50 d1f100 Q Q / s1,2 / s0,1 / m0,1 / p0,50 | 5 50 50; 1 0 0 2; 2 0 0 0
refill of two where one waits | 100 | 1048576 | a0 r10 d0f500000 r20 d0f500000 r30 d0f500000 S S W / s0,1 / m0,2 | None
refill of none | 100 | 1048576 | a0 r10 d0f500000 r20 d0f500000 r30 d0f500000 S S W / s0,1 / m0,0 | None
refill before there is room | 100 | 1048576 | a0 r10 d0f500000 r20 d0f500000 r30 d0f500000 S S W / m0,1 | None
refill of a queue | 100 | - | a0 r10 d0f100 Q / m0,1 | None
refill of two | 100 | 400 | a0 r10 d0f100 r20 d0f100 r30 d0f100 r40 d0f100 r50 d0f100 S S S W W / s0,2 / m0,2 | 5 50 0; 2 0 0 3; 0 0 0 0
a mark before the last | 100 | 400 | a0 r10 d0f100 r20 d0f100 r30 d0f100 r40 d0f100 r50 d0f100 S S S W W / s0,2 / m0,1 / p0,40 | 5 40 40; 2 0 0 3; 0 0 0 0
spooled where one waits | 100 | 400 | a0 r10 d0f100 r20 d0f100 r30 d0f100 r40 d0f100 S S S W / s0,2 / a0 r50 d0f100 S | None
fits to the last byte | 100 | 1048576 | a0 r10 d0f1048570 S / s0,1 / a0 r20 d0f1048571 W | 2 10 0; 1 0 0 1; 0 0 0 0
never fits | 100 | 1048576 | a0 r10 d0f1048571 W / m0,1 | None
a window of one | 1 | - | a0 r10 d0f100 Q / a0 r20 d0f100 Q | None
a window of two and three records | 2 | - | a0 r10 r20 r30 | None
a window of two | 2 | - | a0 r10 d0f100 r20 d0f100 Q Q / s0,1 / a0 r30 d0f100 Q | 3 10 0; 1 0 0 2; 0 0 0 0
a window of none | 0 | - | a0 r10 | None
the last is settled first | 100 | - | a0 r10 d0f100 r20 d1f100 Q Q / s1,1 | 2 0 0; 0 0 0 1; 1 0 0 0
both are settled | 100 | - | a0 r10 d0f100 r20 d1f100 Q Q / s1,1 / s0,1 | 2 20 0; 1 0 0 0; 1 0 0 0
one record to both | 100 | - | a0 r10 d0f100 d1f100 Q Q / s1,1 | 1 0 0; 0 0 0 1; 1 0 0 0
settle of two | 100 | - | a0 r10 d0f100 r20 d0f100 r30 d0f100 Q Q Q / s0,2 | 3 20 0; 2 0 0 1; 0 0 0 0
settle of more | 100 | - | a0 r10 d0f100 r20 d0f100 Q Q / s0,3 | None
settle of none | 100 | - | a0 r10 d0f100 Q / s0,0 | None
no record | 100 | - | a0 | None
an end out of range | 100 | - | a0 r9223372036854775808 | None
a verdict is missing | 100 | - | a0 r10 d0f100 r20 d0f100 Q | None
a verdict too many | 100 | - | a0 r10 d0f100 Q Q | None
no such inlet | 100 | - | a2 r10 | None
no such destination | 100 | - | a0 r10 d3f100 Q | None
no such destination to settle | 100 | - | a0 r10 d0f100 Q / s3,1 | None
no such destination to refill | 100 | 400 | m3,1 | None
no such inlet to store | 100 | - | p2,0 | None
the mark is stored | 100 | - | a0 r10 r20 / p0,20 | 2 20 20; 0 0 0 0; 0 0 0 0
the mark is stored twice | 100 | - | a0 r10 / p0,10 / p0,10 | None
another place is stored | 100 | - | a0 r10 d0f100 Q / p0,10 | None
an inlet without a store | 100 | - | a1 r10 / p1,10 | None
rewound to nothing | 100 | - | w0 | None
rewound behind a record | 100 | - | a0 r10 / p0,10 / w0 | None
a store fails at an offer | 100 | 400 | a0 r10 d0f100 d0n100 W D x1 / a0 r20 d0f100 W | 2 0 0; 0 0 1 2; 0 0 0 0
a store fails at the second offer | 100 | 106 | a0 r10 d0f101 d0n100 S D x1 | None
a failing store spools | 100 | 400 | a0 r10 d0f100 S x1 | None
a failing store without an offer | 100 | 400 | a0 r10 d1f100 Q x1 | None
two stores fail | 100 | 400 | a0 r10 d2f100 d0f100 W W x2 x1 | 1 0 0; 0 0 0 1; 0 0 0 0
two stores fail in another order | 100 | 400 | a0 r10 d2f100 d0f100 W W x1 x2 | None
a store fails in a settle | 100 | 400 | a0 r10 d0f100 S / s0,1 x1 | 1 10 0; 1 0 0 0; 0 0 0 0
another store fails in a settle | 100 | 400 | a0 r10 d0f100 S / s0,1 x2 | None
a store fails twice | 100 | 400 | l x1 / l x1 | None
two stores fail in a look | 100 | 400 | l x1 x2 | None
no such store fails | 100 | 400 | l x3 | None
a failed store waits for good | 100 | 400 | l x1 / a0 r10 d0f100 W / s0,1 | 1 10 0; 1 0 0 0; 0 0 0 0
a failed store is refilled | 100 | 400 | a0 r10 d0f100 r20 d0f100 r30 d0f100 r40 d0f100 S S S W / s0,1 / l x1 / m0,1 | None
a store fails in a refill | 100 | 400 | a0 r10 d0f100 r20 d0f100 r30 d0f100 r40 d0f100 S S S W / s0,1 / m0,1 x1 | None
a position store fails | 100 | - | l x0 / a0 r10 | 1 10 0; 0 0 0 0; 0 0 0 0
a failed position store | 100 | - | l x0 / a0 r10 / p0,10 | None
a position store fails in a store | 100 | - | a0 r10 / p0,10 x0 | None";

// A message of so many encoded bytes: 58 with an empty value of MESSAGE.
fn message(alloc: Global, size: usize) -> Result<Message, Fail> {
    let value = vec![in alloc; 0u8; size.saturating_sub(58)]?;
    let mut message = Message::new(alloc, 13, STAMP, STAMP)?;
    message.set(b"MESSAGE", &value)?;
    Ok(message)
}

fn offer(alloc: Global, text: &str) -> Result<Offer, Fail> {
    let flow = text.contains('f');
    let (dest, size) = text
        .split_once(if flow { 'f' } else { 'n' })
        .unwrap_or(("", ""));
    Ok(Offer {
        dest: dest.parse()?,
        message: message(alloc, size.parse()?)?,
        flow,
    })
}

fn verdict(word: &str) -> Option<Verdict> {
    match word {
        "Q" => Some(Verdict::Queued),
        "S" => Some(Verdict::Spooled),
        "W" => Some(Verdict::Waits),
        "F" => Some(Verdict::DroppedFull),
        "D" => Some(Verdict::DroppedDisk),
        _ => None,
    }
}

// The words of an event.
#[derive(Drop)]
struct Draft {
    records: Vec<Admission>,
    verdicts: Seq<Verdict>,
    failed: Seq<u32>,
}

fn add_record(alloc: Global, draft: &mut Draft, end: u64) -> Result<(), Fail> {
    draft.records.push(Admission {
        end,
        offers: Seq::empty(alloc),
    })?;
    Ok(())
}

fn add_offer(draft: &mut Draft, offer: Offer) -> Result<(), Fail> {
    let Some(admission) = draft.records.last_mut() else {
        return Err(Fail::from("no record"));
    };
    admission.offers.push(offer)?;
    Ok(())
}

fn add_failed(draft: &mut Draft, store: u32) -> Result<(), Fail> {
    draft.failed.push(store)?;
    Ok(())
}

fn add_verdict(draft: &mut Draft, verdict: Option<Verdict>) -> Result<(), Fail> {
    draft.verdicts.push(verdict.ok_or("no such word")?)?;
    Ok(())
}

// Takes a word behind the first one.
fn add(alloc: Global, draft: &mut Draft, word: &str) -> Result<(), Fail> {
    if let Some(end) = word.strip_prefix('r') {
        return add_record(alloc, draft, end.parse()?);
    }
    if let Some(text) = word.strip_prefix('d') {
        return add_offer(draft, offer(alloc, text)?);
    }
    match word.strip_prefix('x') {
        Some(store) => add_failed(draft, store.parse()?),
        None => add_verdict(draft, verdict(word)),
    }
}

fn number(word: Option<&str>) -> u64 {
    match word {
        Some(word) => word.trim().parse().unwrap_or(u64::MAX),
        None => u64::MAX,
    }
}

// The capacity of disk-buffers, the greatest number without them.
fn capacity(word: &str) -> Result<u64, Fail> {
    if word == "-" {
        return Ok(u64::MAX);
    }
    Ok(word.parse()?)
}

fn admit(inlet: u32, draft: Draft) -> Event {
    let Draft {
        records,
        verdicts,
        failed,
    } = draft;
    let act = Act::Admit {
        inlet,
        records: Seq::new(records),
        verdicts,
    };
    Event { act, failed }
}

// An act but an Admit, by the letter that stands before its numbers.
fn plain_act(word: &str) -> Result<Act, Fail> {
    if word == "l" {
        return Ok(Act::Look);
    }
    let (letter, numbers) = word.split_at_checked(1).ok_or("no act")?;
    let (first, second) = numbers.split_once(',').unwrap_or((numbers, ""));
    let first: u32 = first.parse()?;
    match letter {
        "s" => Ok(Act::Settle(first, second.parse()?)),
        "m" => Ok(Act::Refill(first, second.parse()?)),
        "p" => Ok(Act::Store(first, second.parse()?)),
        "w" if second.is_empty() => Ok(Act::Rewind(first)),
        _ => Err(Fail::from("no such act")),
    }
}

fn act(word: &str, draft: Draft) -> Result<Event, Fail> {
    if let Some(inlet) = word.strip_prefix('a') {
        return Ok(admit(inlet.parse()?, draft));
    }
    if !draft.records.is_empty() || !draft.verdicts.is_empty() {
        return Err(Fail::from("no Admit"));
    }
    Ok(Event {
        act: plain_act(word)?,
        failed: draft.failed,
    })
}

fn event(alloc: Global, text: &str) -> Result<Event, Fail> {
    let mut draft = Draft {
        records: Vec::new(alloc),
        verdicts: Seq::empty(alloc),
        failed: Seq::empty(alloc),
    };
    let (first, rest) = text.trim().split_once(' ').unwrap_or((text.trim(), ""));
    for word in rest.split_whitespace() {
        add(alloc, &mut draft, word)?;
    }
    act(first, draft)
}

fn events(alloc: Global, text: &str) -> Result<Vec<Event>, Fail> {
    let mut events = Vec::new(alloc);
    if text.trim().is_empty() {
        return Ok(events);
    }
    for part in text.split('/') {
        events.push(event(alloc, part)?)?;
    }
    Ok(events)
}

fn dest(capacity: u64, store: u32) -> DestSetup {
    DestSetup {
        fifo: 2,
        buffer: if capacity == u64::MAX {
            None
        } else {
            Some(BufferSetup { store, capacity })
        },
    }
}

fn source(window: u32, store: Option<u32>) -> SourceSetup {
    SourceSetup { window, store }
}

fn setup(alloc: Global, window: u32, capacity: u64) -> Result<Setup, AllocError> {
    let sources = Vec::from_slice(alloc, &[source(window, Some(0)), source(1, None)])?;
    let dests = [dest(capacity, 1), dest(u64::MAX, 0), dest(capacity, 2)];
    Ok(Setup {
        sources: Seq::new(sources),
        dests: Seq::new(Vec::from_slice(alloc, &dests)?),
    })
}

fn source_shows(source: &SourceTally, text: &str) -> bool {
    let mut words = text.split_whitespace();
    let stored = source.stored.unwrap_or(0);
    number(words.next()) == source.records
        && number(words.next()) == source.mark
        && number(words.next()) == stored
        && words.next().is_none()
}

fn dest_shows(dest: &DestTally, text: &str) -> bool {
    let mut words = text.split_whitespace();
    number(words.next()) == dest.taken
        && number(words.next()) == dest.dropped_full
        && number(words.next()) == dest.dropped_disk
        && number(words.next()) == dest.left
        && words.next().is_none()
}

fn tally_shows(tally: &Tally, answer: &str) -> bool {
    if answer.split(';').count() != 3 {
        return false;
    }
    let mut parts = answer.split(';');
    let source = match tally.sources.get(0) {
        Some(source) => source_shows(source, parts.next().unwrap_or("")),
        None => false,
    };
    for d in 0..2 {
        let shown = match tally.dests.get(d) {
            Some(dest) => dest_shows(dest, parts.next().unwrap_or("")),
            None => false,
        };
        if !shown {
            return false;
        }
    }
    source
}

// Whether the events come to this answer.
fn comes_to(
    alloc: Global,
    setup: &Setup,
    events: &[Event],
    answer: &str,
) -> Result<bool, AllocError>
    requires { length events.now < 100 }
{
    match replay(alloc, setup, events)? {
        Some(tally) => Ok(tally_shows(&tally, answer)),
        None => Ok(answer == "None"),
    }
}

// A part of a row, and the rest of it.
fn cut(text: &str) -> Result<(&str, &str), Fail> {
    Ok(text.split_once('|').ok_or("a part is missing")?)
}

fn replays_to(alloc: Global, setup: &Setup, text: &str) -> Result<bool, Fail> {
    let (words, answer) = cut(text)?;
    let events = events(alloc, words)?;
    if events.len() >= 100 {
        return Ok(false);
    }
    Ok(comes_to(alloc, setup, &events, answer.trim())?)
}

fn is_right(alloc: Global, row: &str) -> Result<bool, Fail> {
    let (_, rest) = cut(row)?;
    let (window, rest) = cut(rest)?;
    let (buffers, rest) = cut(rest)?;
    let setup = setup(alloc, window.trim().parse()?, capacity(buffers.trim())?)?;
    replays_to(alloc, &setup, rest)
}

#[test]
fn replays(rt: HostRuntime) -> Result<(), Fail> {
    let alloc = rt.alloc();
    for row in ROWS.lines() {
        assert!(rt; is_right(alloc, row)?, "{row}");
    }
    Ok(())
}
