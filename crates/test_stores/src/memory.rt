// A machine in memory, and calls that fail.
ghost use Rattle.std.specs.Prelude.{◌≡◌};
ghost use Rattle.std.specs.List.{Contains};
ghost use Rattle.sg_memory.specs.Open.{opener_of};

use sg_device::{
    FileRefusal, Frames, Inlet, Name, Opener, Outlet, OutletFault, Pull, Reopened, SayRefusal,
    SendRefusal,
};
use sg_memory::{
    MemoryConnection, MemoryDrain, MemoryFeed, MemoryFile, MemoryOpener, MemoryWorld, OutletScript,
    Pace, PathsPlan, WorldPlans, is_record_end,
};
use sg_memory_disk::FaultPlan;
use sg_outside::{InletSpec, OutletSpec};
use std::alloc::Global;
use std::test::Fail;

const PACE: Pace = Pace {
    piece: 3,
    at: 1_770_312_741_000_000,
};

fn plan(alloc: Global, call: u64) -> Result<FaultPlan, Fail> {
    Ok(FaultPlan::new(vec![in alloc; call]?))
}

fn name(alloc: Global, text: &[u8]) -> Result<Name, Fail> {
    Ok(Name::new(alloc, text)?)
}

// A device that can move between threads.
fn is_send<T: Send>(_device: &T) {}

fn add_text(text: &mut Vec<u8>, bytes: &[u8]) -> Result<(), Fail> {
    for byte in bytes {
        text.push(if *byte == b'\n' { b'~' } else { *byte })?;
    }
    Ok(())
}

// What a pull gives, with `.` for an end, `|` for the next part, `_` for nothing and `!` for a fault.
fn add_pull(feed: &mut MemoryFeed, given: &mut Vec<u8>) -> Result<(), Fail> {
    let mut buffer = [0u8; 8];
    match feed.pull(&mut buffer) {
        Ok(Pull::Bytes { len, .. }) => add_text(given, &buffer[..len])?,
        Ok(Pull::End) => given.push(b'.')?,
        Ok(Pull::Next) => given.push(b'|')?,
        Ok(Pull::Idle) => given.push(b'_')?,
        Err(_) => given.push(b'!')?,
    }
    Ok(())
}

// What pulls give, with `#` for a hangup behind the third one, if that is wanted.
fn pulled(
    alloc: Global,
    feed: &mut MemoryFeed,
    hangs: bool,
    pulls: usize,
) -> Result<Vec<u8>, Fail> {
    let mut given = Vec::new(alloc);
    for pull in 0..pulls {
        if hangs && pull == 3 {
            feed.hangup();
            given.push(b'#')?;
        }
        add_pull(feed, &mut given)?;
    }
    Ok(given)
}

// What is opened (a file, or a slot of a port; `!` ends at once, `#` is hung up behind the third pull), the
// place that is asked for, the number of pulls, the place where reading begins, and what the pulls give,
// with `~` for LF.
const INLETS: &str = "in! 0 6 0 one~two~...
in 4 5 4 two~___
in! 9 5 0 one~two~..
in! 3 5 0 one~two~..
in# 0 6 0 one~two~#...
cut 4 3 4 efgh_
cut 3 3 0 abcdefgh
514/0 7 8 0 |ab|cdefg___
514/0! 0 5 0 |ab...
514/0# 0 8 0 |ab|#_____
514/1 0 4 0 |x__
515/0 0 2 0 __
none 0 0 - -";

// Adds a connection to port 514.
fn connect(
    alloc: Global,
    world: &mut MemoryWorld,
    slot: u16,
    peer: &[u8],
    bytes: &[u8],
) -> Result<(), Fail> {
    let mut connection = MemoryConnection::new(alloc, b"127.0.0.1", 514, peer, bytes)?;
    connection.slot = slot;
    world.connections.push(connection)?;
    Ok(())
}

fn two_files(alloc: Global) -> Result<Vec<MemoryFile>, Fail> {
    let mut files = Vec::new(alloc);
    files.push(MemoryFile::new(alloc, b"in", b"one\ntwo\n")?)?;
    files.push(MemoryFile::new(alloc, b"cut", b"abcdefgh")?)?;
    Ok(files)
}

// A machine with two files and three connections.
fn machine(alloc: Global) -> Result<MemoryWorld, Fail> {
    let mut world = MemoryWorld::new(alloc, two_files(alloc)?, PACE);
    connect(alloc, &mut world, 0, b"1.1.1.1", b"ab")?;
    connect(alloc, &mut world, 0, b"1.1.1.2", b"cdefg")?;
    connect(alloc, &mut world, 1, b"1.1.1.3", b"x")?;
    Ok(world)
}

// What a row asks for. Lines of more than 4 bytes are cut.
fn request(alloc: Global, word: &str) -> Result<InletSpec, Fail> {
    let once = word.ends_with('!');
    let word = word.trim_end_matches(['!', '#']);
    match word.split_once('/') {
        Some((port, slot)) => slot_of(alloc, port, slot, once),
        None => Ok(InletSpec::File {
            path: name(alloc, word.as_bytes())?,
            once,
            limit: 4,
        }),
    }
}

fn slot_of(alloc: Global, port: &str, slot: &str, once: bool) -> Result<InletSpec, Fail> {
    Ok(InletSpec::Slot {
        ip: name(alloc, b"127.0.0.1")?,
        port: port.parse()?,
        slot: slot.parse()?,
        once,
    })
}

// What a row asks for, the place, and the number of pulls.
#[derive(Drop)]
struct MemoryRow<'a> {
    spec: &'a str,
    from: u64,
    pulls: usize,
}

// The parts of a row, and what its inlet is to give.
fn parts(row: &str) -> Result<(MemoryRow<'_>, &str), Fail> {
    let (spec, rest) = row.split_once(' ').ok_or("no request")?;
    let (from, rest) = rest.split_once(' ').ok_or("no place")?;
    let (pulls, given) = rest.split_once(' ').ok_or("no pulls")?;
    let row = MemoryRow {
        spec,
        from: from.parse()?,
        pulls: pulls.parse()?,
    };
    Ok((row, given))
}

// What an inlet gives: its place, a space, and what the pulls give.
fn gives(alloc: Global, world: &mut MemoryWorld, row: &MemoryRow) -> Result<String, Fail> {
    let request = request(alloc, row.spec)?;
    let Ok((mut feed, place)) = world.open_inlet(alloc, &request, row.from) else {
        return Ok(format!(in alloc; "- -")?);
    };
    is_send(&feed);
    let given = pulled(alloc, &mut feed, row.spec.ends_with('#'), row.pulls)?;
    world.close_inlet(feed);
    Ok(format!(in alloc; "{place} {}", str::from_utf8(&given)?)?)
}

#[test]
fn inlets_in_memory(rt: HostRuntime) -> Result<(), Fail> {
    let alloc = rt.alloc();
    let mut world = machine(alloc)?;
    for line in INLETS.lines() {
        let (row, wanted) = parts(line)?;
        let given = gives(alloc, &mut world, &row)?;
        assert_eq!(rt; given.as_str(), wanted, "{line}");
    }
    Ok(())
}

// Frames of these words.
fn frames(alloc: Global, words: &str) -> Result<Frames, Fail> {
    let mut frames = Frames::new(alloc);
    for word in words.split(' ') {
        frames.push(word.as_bytes())?;
    }
    Ok(frames)
}

// An outlet whose second send fails and takes two frames before that, whose first reopening is too early,
// and whose fourth send is.
fn outlet_plan(alloc: Global) -> Result<OutletScript, Fail> {
    let mut outlet = OutletScript::failing(alloc, plan(alloc, 2)?);
    outlet.first = 2;
    outlet.laters = plan(alloc, 0)?;
    outlet.waits = plan(alloc, 3)?;
    Ok(outlet)
}

fn open_drain(alloc: Global, world: &mut MemoryWorld) -> Result<MemoryDrain, Fail> {
    let spec = OutletSpec::Tcp {
        host: name(alloc, b"h")?,
        port: 514,
        reopen: 60,
    };
    Ok(world.open_outlet(alloc, &spec)?)
}

fn sent(drain: &mut MemoryDrain, frames: &Frames) -> char {
    if frames.is_empty() {
        return '-';
    }
    match drain.send(frames) {
        Ok(()) => '+',
        Err(SendRefusal::Fault) => '!',
        Err(SendRefusal::Later) => '~',
        Err(SendRefusal::NoMemory) => '0',
    }
}

fn reopened(drain: &mut MemoryDrain) -> char {
    match drain.reopen() {
        Ok(Reopened::Ready) => 'r',
        Ok(Reopened::Later) => 'l',
        Err(OutletFault) => '!',
    }
}

// What each of four sends gives, and a reopening behind it.
fn sends(alloc: Global, drain: &mut MemoryDrain) -> Result<String, Fail> {
    let mut text = String::new(alloc);
    for words in ["a b", "c d e", "f", "g h"] {
        let frames = frames(alloc, words)?;
        text.push(sent(drain, &frames))?;
        text.push(reopened(drain))?;
    }
    Ok(text)
}

fn outlet(alloc: Global, world: &mut MemoryWorld) -> Result<String, Fail> {
    world.plans.outlets.push_back(outlet_plan(alloc)?)?;
    let mut drain = open_drain(alloc, world)?;
    is_send(&drain);
    let text = sends(alloc, &mut drain);
    world.close_outlet(drain);
    text
}

// The frames that the last outlet took.
fn taken(alloc: Global, world: &MemoryWorld) -> Result<Vec<u8>, Fail> {
    let cell = world.closed_outlets().as_ref().ok_or("no outlet")?;
    let outlet = cell.closed.as_ref().ok_or("no outlet")?;
    Ok(outlet.frames().bytes().to_vec(alloc)?)
}

#[test]
fn outlets_in_memory(rt: HostRuntime) -> Result<(), Fail> {
    let alloc = rt.alloc();
    let mut world = machine(alloc)?;
    assert_eq!(rt; outlet(alloc, &mut world)?.as_str(), "+l!r+r~r");
    assert_eq!(rt; taken(alloc, &world)?.as_slice(), b"abcdfg".as_slice());
    assert!(rt; paths(alloc, &mut world)?);
    Ok(())
}

// Whether a read of a file is refused so.
fn is_refused(alloc: Global, world: &mut MemoryWorld, path: &[u8], wanted: FileRefusal) -> bool {
    match world.read_file(alloc, path, 7) {
        Ok(_) => false,
        Err(refusal) => refusal == wanted,
    }
}

#[test]
fn files_in_memory(rt: HostRuntime) -> Result<(), Fail> {
    let alloc = rt.alloc();
    let mut world = machine(alloc)?;
    assert!(rt; is_refused(alloc, &mut world, b"in", FileRefusal::TooLong));
    assert!(rt; is_refused(alloc, &mut world, b"on", FileRefusal::Failed));
    let text = world.read_file(alloc, b"in", 8)?;
    assert_eq!(rt; text.as_slice(), b"one\ntwo\n".as_slice());
    assert!(rt; is_record_end(4, b"abcdefgh", 4) && !is_record_end(5, b"abcdefgh", 4));
    Ok(())
}

// Whether a machine says one text, and fails at the second.
fn says_once(alloc: Global, world: &mut MemoryWorld) -> Result<bool, Fail> {
    world.plans.says = plan(alloc, 1)?;
    world.say(b"said\n")?;
    Ok(world.say(b"not\n") == Err(SayRefusal::Fault))
}

#[test]
fn texts_in_memory(rt: HostRuntime) -> Result<(), Fail> {
    let alloc = rt.alloc();
    let mut world = machine(alloc)?;
    assert!(rt; says_once(alloc, &mut world)?);
    world.tell(b"hint\n");
    assert_eq!(rt; world.said(), b"said\n".as_slice());
    world.plans.builds = plan(alloc, 0)?;
    assert!(rt; world.fails_build() && !world.fails_build());
    world.plans.dues = plan(alloc, 1)?;
    assert!(rt; !world.is_due() && world.is_due());
    Ok(())
}

fn paths_plan(alloc: Global) -> Result<PathsPlan, Fail> {
    let mut paths = PathsPlan::never(alloc);
    paths.calls.fails = plan(alloc, 2)?;
    paths.calls.first = 1;
    paths.unused = plan(alloc, 0)?;
    Ok(paths)
}

// Whether an opener opens, takes and closes as it should.
fn paths(alloc: Global, world: &mut MemoryWorld) -> Result<bool, Fail> {
    let spec = OutletSpec::ByPath {
        fsync: false,
        mode: 0o600,
        folders: None,
        reopen: 60,
        reap: 60,
    };
    world.plans.paths.push_back(paths_plan(alloc)?)?;
    let mut opener = world.open_paths(alloc, &spec)?;
    is_send(&opener);
    let kept = keeps(alloc, &mut opener, b"a")?;
    let two = has_two(&opener);
    world.close_paths(opener);
    Ok(kept && two)
}

// Whether an opener takes one text, refuses the second one of the next two, and is ready again.
fn keeps(alloc: Global, opener: &mut MemoryOpener, path: &[u8]) -> Result<bool, Fail>
    requires { Contains (opener_of opener.old).opened path.now → ⊥ }
{
    opener.open(path)?;
    let first = texts_sent(alloc, opener, path, "one")? == '+';
    let second = texts_sent(alloc, opener, path, "two three")? == '!';
    let ready = opener.reopen(path) == Ok(Reopened::Ready);
    let unused = opener.is_unused(path);
    opener.close(path);
    Ok(first && second && ready && unused)
}

// What a send of these texts for an open path gives.
fn texts_sent(
    alloc: Global,
    opener: &mut MemoryOpener,
    path: &[u8],
    words: &str,
) -> Result<char, Fail>
    requires { Contains (opener_of opener.old).opened path.now }
    ensures { (opener_of opener.new).opened ≡ (opener_of opener.old).opened }
{
    let texts = frames(alloc, words)?;
    if texts.is_empty() {
        return Ok('-');
    }
    Ok(match opener.send(path, &texts) {
        Ok(()) => '+',
        Err(SendRefusal::Fault) => '!',
        Err(SendRefusal::Later) => '~',
        Err(SendRefusal::NoMemory) => '0',
    })
}

// Whether an opener has no open path, and took two texts.
fn has_two(opener: &MemoryOpener) -> bool {
    let texts = opener.paths.texts();
    opener.paths.opened().is_empty()
        && opener.taken() == 2
        && texts.len() == 2
        && texts[0].text.as_slice() == b"one".as_slice()
        && texts[1].text.as_slice() == b"two".as_slice()
}
