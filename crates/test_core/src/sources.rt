// A source, turn by turn.
ghost use Rattle.std.specs.Prelude.{◌≡◌, ◌<◌, ◌≤◌, IfOk, IfSome, is_some, length};
ghost use Rattle.sg_device.specs.Inlet.{IsFresh};
ghost use Rattle.sg_memory.specs.Inlet.{inlet_of};
ghost use Rattle.sg_counter.specs.Bringing.{store_in};
ghost use Rattle.sg_actor.specs.Sources.{source, IsReady};
ghost use Rattle.sg_actor.specs.SourceTurns.{FitsSource};

use crate::small::{Plain, Small, note_turn};
use sg_actor::{SourceActor, SourceSpec};
use sg_device::{Inlet, NoMemory};
use sg_frame::FrameKind;
use sg_list::Seq;
use sg_machine::{DestSetup, Setup, SourceSetup};
use sg_memory::{MemoryInlet, MemoryPart, Pace};
use sg_memory_disk::FaultPlan;
use sg_route::Router;
use std::alloc::{AllocError, Global};
use std::collections::VecDeque;
use std::sync::Wait;
use std::test::Fail;

// What is shown; a file or a slot of connections, by lines or counted, that ends or is idle behind its
// bytes; log-fetch-limit; the window; the bytes, a line feed written as $, connections parted by /; and
// what each turn calls on the core, with a + where it did something, - where it did nothing, ~ where it
// was idle; and the parts given up.
const ROWS: &str = "\
two lines | file lines ends | 100 | 100 | one$two$ | ca2@8+ c+ cs+ cs- | 0
an open last line | file lines ends | 100 | 100 | one$tw | ca1@4+ c+ cs+ cs- | 0
one line a turn | file lines ends | 1 | 100 | one$two$ | ca1@4+ ca1@8+ c+ cs+ cs- | 0
a window of one | file lines ends | 100 | 1 | one$two$ | ca1@4+ c+ cs+ cs- | 0
an empty file | file lines ends | 100 | 100 | | c+ cs- cs- | 0
nothing at present | file lines idle | 100 | 100 | | c+~ cs~ cs~ | 0
refused once | file lines ends refused | 100 | 100 | one$two$ | cn+ ca2@8+ c+ cs+ cs- | 0
a store that fails | file lines ends broken | 100 | 100 | one$ | ca1@4+ c+ cs+ c- c- | 0
an inlet that fails | file lines ends fails | 100 | 100 | one$ | c+ cs- | 0
two connections | slot lines idle | 100 | 100 | a$/b$ | c+ ca1@0+ c+ ca1@0+ c+~ c~ | 0
an open line between connections | slot lines idle | 100 | 100 | a$b/c$ | c+ ca1@0+ c+ ca1@0+ c+~ c~ | 0
counted | slot counted ends | 100 | 100 | 3 abc2 de | c+ ca2@0+ c+ c- | 0
a bad count | slot counted ends | 100 | 100 | 3 abcx | c+ ca1@0+ c+ c- | 1
a bad count behind the last that is taken | slot counted ends | 1 | 100 | 1 ax | c+ ca1@0+ c+ c- | 1
a bad count alone | slot counted idle | 100 | 100 | x/1 a | c+ c+ c+ ca1@0+ c+~ c~ | 1
a part of bad counts | slot counted idle | 100 | 100 | x/y | c+ c+ c+ c+ c~ c~ | 2";

// The kinds of inlets, and what fails.
const KINDS: &str = "\
file lines ends
file lines ends refused
file lines ends broken
file lines ends fails
file lines idle
slot lines idle
slot counted ends
slot counted idle";

#[derive(Drop)]
struct SourceRow<'a> {
    how: &'a str,
    fetch: &'a str,
    window: &'a str,
    text: &'a str,
    turns: &'a str,
    bad: &'a str,
}

fn cell(row: &str, place: usize) -> &str {
    row.split('|').nth(place).unwrap_or("").trim()
}

fn read_row(row: &str) -> SourceRow<'_> {
    SourceRow {
        how: cell(row, 1),
        fetch: cell(row, 2),
        window: cell(row, 3),
        text: cell(row, 4),
        turns: cell(row, 5),
        bad: cell(row, 6),
    }
}

// Whether a row has its cells, and its kind is one of those above.
fn is_known(row: &str) -> bool {
    let how = cell(row, 1);
    for kind in KINDS.lines() {
        if kind == how {
            return row.split('|').count() == 7;
        }
    }
    false
}

// Whether the word is this number.
fn is_number(word: &str, number: u64) -> bool {
    match word.parse::<u64>() {
        Ok(read) => read == number,
        Err(_) => false,
    }
}

fn bytes_of(alloc: Global, text: &str) -> Result<Vec<u8>, NoMemory> {
    let mut bytes = Vec::new(alloc);
    for byte in text.as_bytes() {
        bytes.push(if *byte == b'$' { b'\n' } else { *byte })?;
    }
    Ok(bytes)
}

fn parts(alloc: Global, text: &str) -> Result<VecDeque<MemoryPart>, NoMemory> {
    let mut parts = VecDeque::new(alloc);
    for part in text.split('/') {
        let bytes = bytes_of(alloc, part)?;
        parts.push_back(MemoryPart::new(alloc, b"1.2.3.4", bytes)?)?;
    }
    Ok(parts)
}

// The pulls that fail.
fn pulls(alloc: Global, fails: bool) -> Result<FaultPlan, NoMemory> {
    let mut pulls = Vec::new(alloc);
    if fails {
        pulls.push(0)?;
    }
    Ok(FaultPlan::new(pulls))
}

fn inlet(alloc: Global, how: &str, text: &str) -> Result<MemoryInlet, NoMemory>
    ensures fresh { IfOk result (λ inlet. IsFresh (inlet_of inlet)) }
    ensures from { IfOk result (λ inlet. (inlet_of inlet).from ≡ 0) }
{
    let pace = Pace { piece: 64, at: 0 };
    let plan = pulls(alloc, how.contains("fails"))?;
    let once = how.contains("ends");
    if how.contains("file") {
        let bytes = bytes_of(alloc, text)?;
        MemoryInlet::file(alloc, bytes, 0, pace, once, plan)
    } else {
        let parts = parts(alloc, text)?;
        MemoryInlet::slot(alloc, parts, pace, once, plan)
    }
}

fn setup(alloc: Global, stored: bool) -> Result<Setup, NoMemory>
    ensures sources { IfOk result (λ setup. length setup.sources ≡ 1) }
    ensures dests { IfOk result (λ setup. length setup.dests ≡ 1) }
    ensures store { IfOk result (λ setup. is_some (store_in setup.sources 0) ≡ stored) }
{
    let mut sources = Seq::empty(alloc);
    sources.push(SourceSetup {
        window: 100,
        store: if stored { Some(0) } else { None },
    })?;
    let mut dests = Seq::empty(alloc);
    dests.push(DestSetup {
        fifo: 100,
        buffer: None,
    })?;
    Ok(Setup { sources, dests })
}

fn core(alloc: Global, row: &SourceRow<'_>, stored: bool) -> Result<Small, Fail>
    ensures sources { IfOk result (λ core. length core.setup.sources ≡ 1) }
    ensures dests { IfOk result (λ core. length core.setup.dests ≡ 1) }
    ensures store { IfOk result (λ core. is_some (store_in core.setup.sources 0) ≡ stored) }
{
    let setup = setup(alloc, stored)?;
    Ok(Small {
        setup,
        window: row.window.parse()?,
        records: 0,
        end: 0,
        stored: 0,
        broken: row.how.contains("broken"),
        refuses: row.how.contains("refused"),
        messages: Vec::new(alloc),
        settled: 0,
        log: Vec::new(alloc),
    })
}

fn fetch_of(word: &str) -> Option<u32>
    ensures some { IfSome result (λ fetch. 0 < fetch) }
    ensures most { IfSome result (λ fetch. fetch ≤ 1000) }
{
    match word.parse::<u32>() {
        Ok(fetch) if fetch > 0 && fetch <= 1000 => Some(fetch),
        _ => None,
    }
}

fn kind(how: &str) -> FrameKind {
    if how.contains("counted") {
        FrameKind::Counted
    } else {
        FrameKind::Lines
    }
}

fn source(
    alloc: Global,
    row: &SourceRow<'_>,
    fetch: u32,
    stored: bool,
    core: &Small,
) -> Result<SourceActor<Plain, MemoryInlet>, NoMemory>
    requires some { 0 < fetch }
    requires most { fetch ≤ 1000 }
    requires sources { length core.now.setup.sources ≡ 1 }
    requires dests { length core.now.setup.dests ≡ 1 }
    requires store { is_some (store_in core.now.setup.sources 0) ≡ stored }
    ensures fits { IfOk result (λ actor. FitsSource core.now.setup actor.spec 1 1) }
    ensures ready { IfOk result (λ actor. IsReady 1 actor.spec
        (source (inlet_of actor.inlet) actor.reader actor.buffer.items)) }
{
    let spec = SourceSpec {
        inlet: 0,
        kind: kind(row.how),
        limit: 100,
        fetch,
        from: 0,
        stored,
    };
    let inlet = inlet(alloc, row.how, row.text)?;
    match SourceActor::new(alloc, inlet, Plain { routed: 0 }, spec) {
        Ok(actor) => Ok(actor),
        Err(_) => Err(AllocError),
    }
}

// Whether there was memory for the turn.
fn take_turn<T: Wait, R: Router, I: Inlet>(
    rt: &T,
    alloc: Global,
    actor: &mut SourceActor<R, I>,
    core: &mut Small,
) -> bool
    requires fits { FitsSource core.old.setup actor.old.spec (R.inlets actor.old.router)
        (R.dests actor.old.router) }
    requires ready { IsReady (R.dests actor.old.router) actor.old.spec
        (source (I.state actor.old.inlet) actor.old.reader actor.old.buffer.items) }
    ensures fits { FitsSource core.new.setup actor.new.spec (R.inlets actor.new.router)
        (R.dests actor.new.router) }
    ensures ready { IsReady (R.dests actor.new.router) actor.new.spec
        (source (I.state actor.new.inlet) actor.new.reader actor.new.buffer.items) }
{
    match actor.turn(rt, alloc, core) {
        Ok(turned) => {
            note_turn(&mut core.log, turned);
            true
        }
        Err(_) => false,
    }
}

// As many turns as there are words.
fn take_turns<T: Wait, R: Router, I: Inlet>(
    rt: &T,
    alloc: Global,
    actor: &mut SourceActor<R, I>,
    core: &mut Small,
    turns: &str,
) -> bool
    requires fits { FitsSource core.old.setup actor.old.spec (R.inlets actor.old.router)
        (R.dests actor.old.router) }
    requires ready { IsReady (R.dests actor.old.router) actor.old.spec
        (source (I.state actor.old.inlet) actor.old.reader actor.old.buffer.items) }
{
    let mut all = true;
    for _turn in turns.split(' ') {
        all = take_turn(rt, alloc, actor, core) && all;
    }
    all
}

// Whether the source's turns are those of the row.
fn goes<T: Wait>(
    rt: &T,
    alloc: Global,
    actor: SourceActor<Plain, MemoryInlet>,
    core: &mut Small,
    row: &SourceRow<'_>,
) -> bool
    requires fits { FitsSource core.old.setup actor.spec 1 1 }
    requires ready { IsReady 1 actor.spec
        (source (inlet_of actor.inlet) actor.reader actor.buffer.items) }
{
    let mut actor = actor;
    let done = take_turns(rt, alloc, &mut actor, core, row.turns);
    let bad = actor.bad_frames();
    let failed = actor.failed();
    let _inlet = actor.into_inlet();
    done && is_number(row.bad, bad)
        && failed == row.how.contains("fails")
        && core.log.trim_ascii() == row.turns.as_bytes()
}

fn shows<T: Wait>(rt: &T, alloc: Global, row: &SourceRow<'_>) -> Result<bool, Fail> {
    let Some(fetch) = fetch_of(row.fetch) else {
        return Ok(false);
    };
    let stored = row.how.contains("file");
    let mut core = core(alloc, row, stored)?;
    let actor = source(alloc, row, fetch, stored, &core)?;
    Ok(goes(rt, alloc, actor, &mut core, row))
}

#[test]
fn sources_take_turns(rt: HostRuntime) -> Result<(), Fail> {
    for row in ROWS.lines() {
        assert!(rt;
            is_known(row) && shows(&rt, rt.alloc(), &read_row(row))?,
            "{row}"
        );
    }
    Ok(())
}
