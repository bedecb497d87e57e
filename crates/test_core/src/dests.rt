// A destination, turn by turn.
ghost use Rattle.std.specs.Prelude.{◌≡◌, ◌<◌, IfOk, length};
ghost use Rattle.sg_memory.specs.Outlet.{outlet_of};
ghost use Rattle.sg_actor.specs.Outages.{HasFailures};

use crate::small::{Small, message, note_turn};
use sg_actor::{DestActor, GivenUp};
use sg_device::{NoMemory, Outlet};
use sg_list::Seq;
use sg_machine::{DestSetup, Setup};
use sg_memory::{MemoryOutlet, OutletScript};
use sg_memory_disk::FaultPlan;
use sg_msg::Message;
use sg_outfmt::Shape;
use sg_template::{Env, Template};
use std::alloc::{AllocError, Global};
use std::sync::Wait;
use std::test::Fail;

// What is shown; the texts of the entries; the sends and reopenings that fail, counted from 0; how many
// frames such a send takes, or one that comes too early; the reopenings that come too early; the sends
// that do; whether the destination gives up, or its store has failed; what each turn calls on the core,
// with a + where it did something, - where it did nothing, ~ where it was idle; the texts that were
// taken; and why it is given up.
const ROWS: &str = "\
two entries | a b | | 0 | | | | ft2r+ f- | a b | -
none | | | 0 | | | | f- f- | | -
a send that fails | a b | 0 | 0 | | | | fr+ ft2r+ f- | a b | -
a send that takes one | a b | 0 | 1 | | | | ft1r+ ft1r+ f- | a b | -
three failures | a | 0 1 2 | 0 | | | gives-up | fr+ + + - - | | outlet
three failures for ever | a | 0 1 2 | 0 | | | | fr+ + + ft1r+ f- | a | -
a frame between failures | a b c | 0 2 3 | 1 | | | gives-up | ft1r+ ft1r+ + ft1r+ f- | a b c | -
too early | a | 0 | 0 | 0 1 | | | fr+ ~ ~ ft1r+ f- | a | -
too early to send | a b | | 0 | | 0 | | fr~ ft1r+ ft1r+ f- | a b | -
too early for the second | a b | | 1 | | 0 1 | | ft1r+ fr~ ft1r+ f- | a b | -
early and late failures | a b | 1 | 1 | | 0 2 | gives-up | ft1r+ fr+ fr~ ft1r+ f- | a b | -
a failed store | a | | 0 | | | broken | f- - | | store";

#[derive(Drop)]
struct DestRow<'a> {
    texts: &'a str,
    fails: &'a str,
    first: &'a str,
    laters: &'a str,
    waits: &'a str,
    how: &'a str,
    turns: &'a str,
    taken: &'a str,
    cause: &'a str,
}

fn cell(row: &str, place: usize) -> &str {
    row.split('|').nth(place).unwrap_or("").trim()
}

fn read_row(row: &str) -> DestRow<'_> {
    DestRow {
        texts: cell(row, 1),
        fails: cell(row, 2),
        first: cell(row, 3),
        laters: cell(row, 4),
        waits: cell(row, 5),
        how: cell(row, 6),
        turns: cell(row, 7),
        taken: cell(row, 8),
        cause: cell(row, 9),
    }
}

// Whether a row has its cells, and the words that say how the destination is are known.
fn is_known(row: &str) -> bool {
    let how = cell(row, 6);
    row.split('|').count() == 10 && (how.is_empty() || how == "gives-up" || how == "broken")
}

fn numbers(alloc: Global, words: &str) -> Result<Vec<u64>, Fail> {
    let mut numbers = Vec::new(alloc);
    for word in words.split_whitespace() {
        let number: u64 = word.parse()?;
        numbers.push(number)?;
    }
    Ok(numbers)
}

fn outlet_script(alloc: Global, row: &DestRow<'_>) -> Result<OutletScript, Fail> {
    let fails = numbers(alloc, row.fails)?;
    let laters = numbers(alloc, row.laters)?;
    let waits = numbers(alloc, row.waits)?;
    Ok(OutletScript {
        fails: FaultPlan::new(fails),
        first: row.first.parse()?,
        laters: FaultPlan::new(laters),
        waits: FaultPlan::new(waits),
    })
}

fn messages(alloc: Global, texts: &str) -> Result<Vec<Message>, NoMemory> {
    let mut messages = Vec::new(alloc);
    for text in texts.split_whitespace() {
        messages.push(message(alloc, text.as_bytes())?)?;
    }
    Ok(messages)
}

fn setup(alloc: Global) -> Result<Setup, NoMemory>
    ensures { IfOk result (λ setup. length setup.dests ≡ 1) }
{
    let mut dests = Seq::empty(alloc);
    dests.push(DestSetup {
        fifo: 100,
        buffer: None,
    })?;
    Ok(Setup {
        sources: Seq::empty(alloc),
        dests,
    })
}

fn core(alloc: Global, texts: &str, broken: bool) -> Result<Small, NoMemory>
    ensures { IfOk result (λ core. length core.setup.dests ≡ 1) }
{
    let setup = setup(alloc)?;
    let messages = messages(alloc, texts)?;
    Ok(Small {
        setup,
        window: 0,
        records: 0,
        end: 0,
        stored: 0,
        broken,
        refuses: false,
        messages,
        settled: 0,
        log: Vec::new(alloc),
    })
}

fn shape(alloc: Global) -> Result<Shape, NoMemory> {
    match Template::read(alloc, b"$MSG ") {
        Ok(template) => Ok(Shape::Text(template)),
        Err(_) => Err(AllocError),
    }
}

fn dest(
    alloc: Global,
    script: OutletScript,
    gives_up: bool,
) -> Result<DestActor<MemoryOutlet>, NoMemory>
    ensures dest { IfOk result (λ actor. actor.spec.dest ≡ 0) }
    ensures failures { IfOk result (λ actor. HasFailures actor.outage (outlet_of actor.outlet)) }
{
    let shape = shape(alloc)?;
    let env = Env {
        zone: None,
        digits: 0,
        iso: false,
        old: None,
    };
    let outlet = MemoryOutlet::new(alloc, script);
    match DestActor::new(alloc, outlet, shape, env, 0, gives_up) {
        Ok(actor) => Ok(actor),
        Err(_) => Err(AllocError),
    }
}

// Whether there was memory for the turn.
fn take_turn<T: Wait, O: Outlet>(
    rt: &T,
    alloc: Global,
    actor: &mut DestActor<O>,
    core: &mut Small,
) -> bool
    requires dest { actor.old.spec.dest < length core.old.setup.dests }
    requires failures { HasFailures actor.old.outage (O.state actor.old.outlet) }
    ensures dest { actor.new.spec.dest < length core.new.setup.dests }
    ensures failures { HasFailures actor.new.outage (O.state actor.new.outlet) }
{
    match actor.turn(rt, alloc, core) {
        Ok(turned) => {
            note_turn(&mut core.log, turned);
            true
        }
        Err(_) => false,
    }
}

// As many turns as there are words.
fn take_turns<T: Wait, O: Outlet>(
    rt: &T,
    alloc: Global,
    actor: &mut DestActor<O>,
    core: &mut Small,
    turns: &str,
) -> bool
    requires dest { actor.old.spec.dest < length core.old.setup.dests }
    requires failures { HasFailures actor.old.outage (O.state actor.old.outlet) }
{
    let mut all = true;
    for _turn in turns.split(' ') {
        all = take_turn(rt, alloc, actor, core) && all;
    }
    all
}

fn is_cause(given_up: Option<GivenUp>, word: &str) -> bool {
    match given_up {
        None => word == "-",
        Some(GivenUp::Outlet) => word == "outlet",
        Some(GivenUp::Store) => word == "store",
    }
}

// Whether these are the turns of the row, and the texts that were taken.
fn took(core: &Small, outlet: &MemoryOutlet, row: &DestRow<'_>) -> bool {
    core.log.trim_ascii() == row.turns.as_bytes()
        && outlet.frames().bytes().trim_ascii() == row.taken.as_bytes()
}

// Whether the destination's turns are those of the row.
fn goes<T: Wait>(
    rt: &T,
    alloc: Global,
    actor: DestActor<MemoryOutlet>,
    core: &mut Small,
    row: &DestRow<'_>,
) -> bool
    requires dest { actor.spec.dest < length core.old.setup.dests }
    requires failures { HasFailures actor.outage (outlet_of actor.outlet) }
{
    let mut actor = actor;
    let done = take_turns(rt, alloc, &mut actor, core, row.turns);
    let given_up = actor.given_up();
    let outlet = actor.into_outlet();
    done && took(core, &outlet, row) && is_cause(given_up, row.cause)
}

fn shows<T: Wait>(rt: &T, alloc: Global, row: &DestRow<'_>) -> Result<bool, Fail> {
    let script = outlet_script(alloc, row)?;
    let mut core = core(alloc, row.texts, row.how == "broken")?;
    let actor = dest(alloc, script, row.how == "gives-up")?;
    Ok(goes(rt, alloc, actor, &mut core, row))
}

#[test]
fn destinations_take_turns(rt: HostRuntime) -> Result<(), Fail> {
    for row in ROWS.lines() {
        assert!(rt;
            is_known(row) && shows(&rt, rt.alloc(), &read_row(row))?,
            "{row}"
        );
    }
    Ok(())
}
