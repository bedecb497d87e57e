// The devices of a machine: what is opened and closed, and what of it fails.
ghost use Rattle.std.specs.Prelude.{◌≡◌, []};
ghost use Rattle.std.specs.List.{Contains};
ghost use Rattle.sg_host.specs.Paths.{opener_of};

use crate::folder::{Folder, brought, frames, free_port, listen, send};
use sg_device::{Disk, Inlet, InletFault, Name, Opener, Outlet, SendRefusal};
use sg_host::{
    HostFeed, HostInlets, HostOpener, HostOutlets, HostPaths, HostStores, IdleWait, Timer, say,
    tell,
};
use sg_outside::{InletSpec, OutletSpec, StoreSpec};
use std::fs;
use std::io::Write;
use std::net::TcpStream;
use std::test::Fail;
use std::thread::{self, Threads};
use std::time::Duration;

/// What a step over a machine's devices comes to.
pub(crate) fn take<T: Threads + Copy + Send>(
    threads: T,
    folder: &Folder,
    what: &str,
) -> Result<String, Fail> {
    match what {
        "file inlet" => file_inlet(&threads, folder),
        "slot inlets" => slot_inlets(&threads, folder),
        "slot limit" => slot_limit(&threads, folder),
        "file outlet" => file_outlet(threads, folder),
        "own source" => own_source(threads, folder),
        "own store" => own_store(threads, folder),
        "tcp outlet" => tcp_outlet(threads, folder),
        "store" => store(folder),
        "paths" => paths(folder),
        "several paths" => several_paths(folder),
        "unsynced path" => unsynced_path(folder),
        "early path" => early_path(folder),
        "unused path" => unused_path(folder),
        "said" => said(folder),
        "timer" => timer(folder),
        _ => Err("no such step".into()),
    }
}

// A device that can move between threads.
fn is_send<T: Send>(_device: &T) {}

fn name(folder: &Folder, text: &[u8]) -> Result<Name, Fail> {
    Ok(Name::new(folder.alloc, text)?)
}

fn file_source(folder: &Folder, path: &[u8]) -> Result<InletSpec, Fail> {
    Ok(InletSpec::File {
        path: name(folder, path)?,
        once: true,
        limit: 8,
    })
}

fn slot_source(folder: &Folder, ip: &[u8], port: u16, slot: u16) -> Result<InletSpec, Fail> {
    Ok(InletSpec::Slot {
        ip: name(folder, ip)?,
        port,
        slot,
        once: false,
    })
}

fn pull_once(feed: &mut HostFeed) -> Result<(), InletFault> {
    let mut buffer = [0u8; 8];
    feed.pull(&mut buffer)?;
    Ok(())
}

// Where reading begins in a file, and the bytes of the first pull.
fn first_bytes<T: Threads>(
    threads: &T,
    folder: &Folder,
    inlets: &mut HostInlets,
) -> Result<(u64, u64), Fail> {
    let path = folder.file("in", b"abc\nde")?;
    let spec = file_source(folder, path.as_bytes())?;
    let (mut feed, place) = inlets.open(threads, folder.alloc, &spec, 4, false)?;
    is_send(&feed);
    pull_once(&mut feed)?;
    let bytes = feed.counts().bytes;
    inlets.close(feed);
    Ok((place, bytes))
}

// The faults so far, with that of a source which can't be opened.
fn refused<T: Threads>(
    threads: &T,
    folder: &Folder,
    inlets: &mut HostInlets,
    spec: &InletSpec,
) -> Result<u64, Fail> {
    if inlets.open(threads, folder.alloc, spec, 0, false).is_ok() {
        return Err("it opened".into());
    }
    Ok(inlets.faults)
}

fn file_inlet<T: Threads>(threads: &T, folder: &Folder) -> Result<String, Fail> {
    let mut inlets = HostInlets::new(folder.alloc, folder.rt, folder.rest()?);
    let (place, bytes) = first_bytes(threads, folder, &mut inlets)?;
    let failed = refused(
        threads,
        folder,
        &mut inlets,
        &file_source(folder, b"/none")?,
    )?;
    Ok(format!(in folder.alloc; "at {place} bytes {bytes} failed {failed}")?)
}

// Two slots of a port.
fn two_slots<T: Threads>(
    threads: &T,
    folder: &Folder,
    inlets: &mut HostInlets,
    port: u16,
) -> Result<Vec<(HostFeed, u64)>, Fail> {
    let mut feeds = Vec::new(folder.alloc);
    for slot in 0..2u16 {
        let spec = slot_source(folder, b"127.0.0.1", port, slot)?;
        feeds.push(inlets.open(threads, folder.alloc, &spec, 7, false)?)?;
    }
    Ok(feeds)
}

// One pull: bytes, `next` for a part, `-` for a pause, each with a space behind it.
fn pull(feed: &mut HostFeed, text: &mut String) -> Result<(), Fail> {
    let mut buffer = [0u8; 8];
    let got = feed.pull(&mut buffer);
    text.push_str(brought(got, &buffer)?)?;
    text.push(' ')?;
    Ok(())
}

// A connection that sends these bytes.
fn connected(folder: &Folder, port: u16, bytes: &[u8]) -> Result<TcpStream, Fail> {
    let mut stream = TcpStream::connect(&folder.rt, ("127.0.0.1", port))?;
    stream.write_all(bytes)?;
    Ok(stream)
}

// One pull of each slot.
fn pull_all(feeds: &mut Vec<(HostFeed, u64)>, text: &mut String) -> Result<(), Fail> {
    for (feed, _place) in feeds {
        pull(feed, text)?;
    }
    Ok(())
}

fn pull_rounds(
    feeds: &mut Vec<(HostFeed, u64)>,
    rounds: u32,
    text: &mut String,
) -> Result<(), Fail> {
    for _ in 0..rounds {
        pull_all(feeds, text)?;
    }
    Ok(())
}

fn close_all(inlets: &mut HostInlets, feeds: Vec<(HostFeed, u64)>) {
    for (feed, _place) in feeds {
        inlets.close(feed);
    }
}

// Three connections, of which two slots take two and close the third one. After three rounds of pulls the
// first one ends, and a fourth one comes.
fn three_connections(
    folder: &Folder,
    port: u16,
    feeds: &mut Vec<(HostFeed, u64)>,
    text: &mut String,
) -> Result<(), Fail> {
    let first = connected(folder, port, b"1")?;
    let _second = connected(folder, port, b"2")?;
    let third = connected(folder, port, b"3")?;
    pull_rounds(feeds, 3, text)?;
    drop(third);
    drop(first);
    let _fourth = connected(folder, port, b"4")?;
    pull_rounds(feeds, 2, text)?;
    Ok(())
}

// Two slots serve two connections, and a third one is closed.
fn slot_limit<T: Threads>(threads: &T, folder: &Folder) -> Result<String, Fail> {
    let port = free_port(folder.rt)?;
    let mut inlets = HostInlets::new(folder.alloc, folder.rt, folder.rest()?);
    let mut feeds = two_slots(threads, folder, &mut inlets, port)?;
    let mut text = String::new(folder.alloc);
    three_connections(folder, port, &mut feeds, &mut text)?;
    close_all(&mut inlets, feeds);
    folder.word(text.as_str().trim())
}

// Where reading begins in a slot, and its parts after a pull.
fn parts(folder: &Folder, feed: &mut HostFeed, place: u64) -> Result<String, Fail> {
    pull_once(feed)?;
    let parts = feed.counts().parts;
    Ok(format!(in folder.alloc; "at {place} parts {parts} ")?)
}

// The parts of each slot, with a connection for each of them.
fn all_parts(folder: &Folder, port: u16, feeds: &mut Vec<(HostFeed, u64)>) -> Result<String, Fail> {
    let mut text = String::new(folder.alloc);
    let mut streams = Vec::new(folder.alloc);
    for (feed, place) in feeds {
        streams.push(connected(folder, port, b"")?)?;
        text.push_str(parts(folder, feed, *place)?.as_str())?;
    }
    drop(streams);
    Ok(text)
}

// Two slots of a listener, which are closed then.
fn listening<T: Threads>(
    threads: &T,
    folder: &Folder,
    inlets: &mut HostInlets,
    port: u16,
) -> Result<String, Fail> {
    let mut feeds = two_slots(threads, folder, inlets, port)?;
    let text = all_parts(folder, port, &mut feeds)?;
    close_all(inlets, feeds);
    Ok(text)
}

// Two slots share a listener, which is free again once both are closed.
fn slot_inlets<T: Threads>(threads: &T, folder: &Folder) -> Result<String, Fail> {
    let port = free_port(folder.rt)?;
    let mut inlets = HostInlets::new(folder.alloc, folder.rt, folder.rest()?);
    listening_and_refused(threads, folder, &mut inlets, port)
}

// Two slots of a listener, and one whose address is none.
fn listening_and_refused<T: Threads>(
    threads: &T,
    folder: &Folder,
    inlets: &mut HostInlets,
    port: u16,
) -> Result<String, Fail> {
    let text = listening(threads, folder, inlets, port)?;
    let spec = slot_source(folder, b"no address", port, 0)?;
    let failed = refused(threads, folder, inlets, &spec)?;
    Ok(format!(in folder.alloc; "{text}failed {failed}")?)
}

// An outlet that takes these frames, and one that can't be opened.
fn outlets<T: Threads + Copy + Send>(
    threads: T,
    folder: &Folder,
    spec: &OutletSpec,
    list: &[&str],
    closed: &OutletSpec,
) -> Result<String, Fail> {
    let mut outlets = HostOutlets::new(threads, folder.alloc, folder.rt, folder.rest()?);
    let taken = taken(folder, &mut outlets, spec, list)?;
    if outlets.open(folder.alloc, closed).is_ok() {
        return Err("it opened".into());
    }
    let failed = outlets.faults;
    Ok(format!(in folder.alloc; "taken {taken} failed {failed}")?)
}

// How many of these frames an outlet takes, which is closed then.
fn taken<T: Threads + Copy + Send>(
    folder: &Folder,
    outlets: &mut HostOutlets<T>,
    spec: &OutletSpec,
    list: &[&str],
) -> Result<u64, Fail> {
    let mut drain = outlets.open(folder.alloc, spec)?;
    is_send(&drain);
    let taken = sent_at_last(folder, &mut drain, list)?;
    outlets.close(drain);
    Ok(taken)
}

// How many of these frames are taken by sends that are made again while they are too early.
fn sent_at_last<O: Outlet>(folder: &Folder, outlet: &mut O, list: &[&str]) -> Result<u64, Fail> {
    let frames = frames(folder.alloc, list)?;
    for _ in 0..1_000 {
        if send(outlet, &frames) != Err(SendRefusal::Later) {
            break;
        }
    }
    Ok(outlet.taken())
}

fn file_target(folder: &Folder, path: &[u8]) -> Result<OutletSpec, Fail> {
    Ok(OutletSpec::File {
        path: name(folder, path)?,
        fsync: false,
        mode: 0o600,
        folders: None,
        reopen: 0,
    })
}

fn file_outlet<T: Threads + Copy + Send>(threads: T, folder: &Folder) -> Result<String, Fail> {
    let path = folder.at("out")?;
    let spec = file_target(folder, path.as_bytes())?;
    let closed = file_target(folder, b"/none/out")?;
    outlets(threads, folder, &spec, &["ab", "cd"], &closed)
}

// Whether a file can be opened to append.
fn opened<T: Threads + Copy + Send>(
    folder: &Folder,
    outlets: &mut HostOutlets<T>,
    name: &str,
) -> Result<&'static str, Fail> {
    let path = folder.at(name)?;
    match outlets.open(folder.alloc, &file_target(folder, path.as_bytes())?) {
        Ok(drain) => {
            outlets.close(drain);
            Ok("opened")
        }
        Err(_) => Ok("refused"),
    }
}

// The name `out` for the file that has the name `other`.
fn rename_other(folder: &Folder) -> Result<(), Fail> {
    let other = folder.at("other")?;
    let out = folder.at("out")?;
    fs::rename(&folder.rt, other.as_str(), out.as_str())?;
    Ok(())
}

// What becomes of a destination that is opened anew once a source has its name.
fn opened_anew<T: Threads + Copy + Send>(
    folder: &Folder,
    outlets: &mut HostOutlets<T>,
) -> Result<&'static str, Fail> {
    let out = folder.at("out")?;
    let spec = file_target(folder, out.as_bytes())?;
    let mut drain = outlets.open(folder.alloc, &spec)?;
    rename_other(folder)?;
    let word = match drain.reopen() {
        Ok(_) => "ready",
        Err(_) => "fault",
    };
    outlets.close(drain);
    Ok(word)
}

// What becomes of destinations with the names of a source that is open.
fn beside_source<T: Threads + Copy + Send>(
    folder: &Folder,
    outlets: &mut HostOutlets<T>,
) -> Result<String, Fail> {
    let first = opened(folder, outlets, "in")?;
    let second = opened(folder, outlets, "other")?;
    let third = opened_anew(folder, outlets)?;
    Ok(format!(in folder.alloc; "{first} {second} {third}")?)
}

// A source of two names.
fn linked_source(folder: &Folder) -> Result<InletSpec, Fail> {
    let path = folder.file("in", b"abc\n")?;
    let other = folder.at("other")?;
    fs::hard_link(&folder.rt, path.as_str(), other.as_str())?;
    file_source(folder, path.as_bytes())
}

// A source that is open isn't opened to append, under none of its names; once it is closed it is.
fn own_source<T: Threads + Copy + Send>(threads: T, folder: &Folder) -> Result<String, Fail> {
    let spec = linked_source(folder)?;
    let rest = folder.rest()?;
    let mut inlets = HostInlets::new(folder.alloc, folder.rt, rest.share()?);
    let mut outlets = HostOutlets::new(threads, folder.alloc, folder.rt, rest);
    let (feed, _place) = inlets.open(&threads, folder.alloc, &spec, 0, false)?;
    let beside = beside_source(folder, &mut outlets);
    inlets.close(feed);
    let beside = beside?;
    let last = opened(folder, &mut outlets, "in")?;
    Ok(format!(in folder.alloc; "{beside} {last}")?)
}

// The same of a store.
fn own_store<T: Threads + Copy + Send>(threads: T, folder: &Folder) -> Result<String, Fail> {
    let spec = store_spec(folder)?;
    let rest = folder.rest()?;
    let mut stores = HostStores::new(folder.alloc, folder.rt, rest.share()?);
    let mut outlets = HostOutlets::new(threads, folder.alloc, folder.rt, rest);
    let store = stores.open(folder.alloc, &spec)?;
    let first = opened(folder, &mut outlets, "q");
    stores.close(store);
    let first = first?;
    let last = opened(folder, &mut outlets, "q")?;
    Ok(format!(in folder.alloc; "{first} {last}")?)
}

fn tcp_target(folder: &Folder, host: &[u8], port: u16) -> Result<OutletSpec, Fail> {
    Ok(OutletSpec::Tcp {
        host: name(folder, host)?,
        port,
        reopen: 0,
    })
}

fn tcp_outlet<T: Threads + Copy + Send>(threads: T, folder: &Folder) -> Result<String, Fail> {
    let (_listener, port) = listen(folder.rt)?;
    let spec = tcp_target(folder, b"127.0.0.1", port)?;
    let closed = tcp_target(folder, b"\xff", port)?;
    outlets(threads, folder, &spec, &["ab"], &closed)
}

// The length and the faults of a store that can't be opened twice.
fn open_store(
    folder: &Folder,
    stores: &mut HostStores,
    spec: &StoreSpec,
) -> Result<(u64, u64), Fail> {
    let mut store = stores.open(folder.alloc, spec)?;
    is_send(&store);
    if stores.open(folder.alloc, spec).is_ok() {
        return Err("it opened twice".into());
    }
    let len = store.len()?;
    let faults = store.faults();
    stores.close(store);
    Ok((len, faults))
}

fn store_spec(folder: &Folder) -> Result<StoreSpec, Fail> {
    let path = folder.at("q")?;
    Ok(StoreSpec {
        name: name(folder, path.as_bytes())?,
        create: true,
        size: 128,
    })
}

fn store(folder: &Folder) -> Result<String, Fail> {
    let mut stores = HostStores::new(folder.alloc, folder.rt, folder.rest()?);
    let spec = store_spec(folder)?;
    let (len, faults) = open_store(folder, &mut stores, &spec)?;
    let failed = stores.faults;
    Ok(format!(in folder.alloc; "{len} {faults} failed {failed}")?)
}

// Files by their paths.
fn by_path(fsync: bool, reopen: u32, reap: u32) -> OutletSpec {
    OutletSpec::ByPath {
        fsync,
        mode: 0o600,
        folders: None,
        reopen,
        reap,
    }
}

// What a file holds that was given two texts.
fn used_path(folder: &Folder, paths: &mut HostPaths) -> Result<String, Fail> {
    let mut opener = paths.open(folder.alloc, &by_path(false, 0, 0))?;
    is_send(&opener);
    let one = folder.at("one")?;
    use_path(folder, &mut opener, one.as_bytes())?;
    let text = folder.text("one")?;
    paths.close(opener);
    Ok(text)
}

// The faults behind a file that can't be opened.
fn refused_path(folder: &Folder, paths: &mut HostPaths) -> Result<u64, Fail> {
    let mut opener = paths.open(folder.alloc, &by_path(false, 0, 0))?;
    if opener.open(b"/none/out").is_ok() {
        return Err("it opened".into());
    }
    let failed = opener.counts().calls.faults;
    paths.close(opener);
    Ok(failed)
}

fn paths(folder: &Folder) -> Result<String, Fail> {
    let mut paths = HostPaths::new(folder.alloc, folder.rt, folder.rest()?);
    let text = used_path(folder, &mut paths)?;
    let failed = refused_path(folder, &mut paths)?;
    let other = folder.has("two")?;
    Ok(format!(in folder.alloc; "{text} failed {failed} other {other}")?)
}

// Whether an open path took the texts.
fn took(folder: &Folder, opener: &mut HostOpener, path: &[u8], list: &[&str]) -> Result<bool, Fail>
    requires { Contains (opener_of opener.old).opened path.now }
    ensures { (opener_of opener.new).opened ≡ (opener_of opener.old).opened }
{
    let texts = frames(folder.alloc, list)?;
    if texts.is_empty() {
        return Err("no texts".into());
    }
    Ok(opener.send(path, &texts).is_ok())
}

// Gives an open path texts, which it takes.
fn put(folder: &Folder, opener: &mut HostOpener, path: &[u8], list: &[&str]) -> Result<(), Fail>
    requires { Contains (opener_of opener.old).opened path.now }
    ensures { (opener_of opener.new).opened ≡ (opener_of opener.old).opened }
{
    if !took(folder, opener, path, list)? {
        return Err("they were not taken".into());
    }
    Ok(())
}

// Opens a file, gives it two texts, and a third one once it is opened anew, and closes it.
fn use_path(folder: &Folder, opener: &mut HostOpener, path: &[u8]) -> Result<(), Fail>
    requires { Contains (opener_of opener.old).opened path.now → ⊥ }
{
    opener.open(path)?;
    put(folder, opener, path, &["a", "b"])?;
    opener.reopen(path)?;
    put(folder, opener, path, &["cd"])?;
    opener.close(path);
    Ok(())
}

// Two files are open at once, and each takes its own texts.
fn several_paths(folder: &Folder) -> Result<String, Fail> {
    let mut paths = HostPaths::new(folder.alloc, folder.rt, folder.rest()?);
    let mut opener = paths.open(folder.alloc, &by_path(false, 0, 0))?;
    use_both(folder, &mut opener)?;
    paths.close(opener);
    let one = folder.text("one")?;
    let two = folder.text("two")?;
    Ok(format!(in folder.alloc; "{one} {two}")?)
}

fn use_both(folder: &Folder, opener: &mut HostOpener) -> Result<(), Fail>
    requires { (opener_of opener.old).opened ≡ [] }
{
    let one = folder.at("one")?;
    let two = folder.at("two")?;
    use_two(folder, opener, one.as_bytes(), two.as_bytes())?;
    Ok(())
}

// Opens two files, gives each of them two texts, and closes the first one before the other's last.
fn use_two(folder: &Folder, opener: &mut HostOpener, one: &[u8], two: &[u8]) -> Result<(), Fail>
    requires { (opener_of opener.old).opened ≡ [] }
{
    if one == two {
        return Err("the paths are the same".into());
    }
    opener.open(one)?;
    opener.open(two)?;
    put(folder, opener, one, &["ab"])?;
    put(folder, opener, two, &["cd"])?;
    opener.reopen(one)?;
    put(folder, opener, one, &["ef"])?;
    opener.close(one);
    put(folder, opener, two, &["gh"])?;
    opener.close(two);
    Ok(())
}

// A text isn't taken that can't be synced where that is asked.
fn unsynced_path(folder: &Folder) -> Result<String, Fail> {
    let mut paths = HostPaths::new(folder.alloc, folder.rt, folder.rest()?);
    let mut opener = paths.open(folder.alloc, &by_path(true, 0, 0))?;
    opener.open(b"/dev/null")?;
    let word = if took(folder, &mut opener, b"/dev/null", &["ab"])? {
        "taken"
    } else {
        "refused"
    };
    let faults = opener.counts().calls.faults;
    paths.close(opener);
    Ok(format!(in folder.alloc; "{word} {faults}")?)
}

// A path that can't be opened is too early for another try.
fn try_early(opener: &mut HostOpener) -> Result<(), Fail>
    requires { (opener_of opener.old).opened ≡ [] }
{
    match opener.open(b"/none/out") {
        Ok(()) => return Err("it opened".into()),
        Err(_) => {}
    }
    match opener.open(b"/none/out") {
        Ok(()) => Err("it opened at once".into()),
        Err(_) => Ok(()),
    }
}

// What was counted of a path that was tried twice where a minute is to be between two tries.
fn early_path(folder: &Folder) -> Result<String, Fail> {
    let mut paths = HostPaths::new(folder.alloc, folder.rt, folder.rest()?);
    let mut opener = paths.open(folder.alloc, &by_path(false, 60, 0))?;
    try_early(&mut opener)?;
    let calls = opener.counts().calls;
    paths.close(opener);
    let faults = calls.faults;
    let laters = calls.laters;
    Ok(format!(in folder.alloc; "failed {faults} early {laters}")?)
}

// Whether a file is unused at once, and once it took nothing for more than a second.
fn unused(folder: &Folder, opener: &mut HostOpener, path: &[u8]) -> Result<(bool, bool), Fail>
    requires { (opener_of opener.old).opened ≡ [] }
{
    opener.open(path)?;
    put(folder, opener, path, &["ab"])?;
    let at_once = opener.is_unused(path);
    thread::sleep(&folder.rt, Duration::from_millis(1100));
    Ok((at_once, opener.is_unused(path)))
}

fn unused_path(folder: &Folder) -> Result<String, Fail> {
    let mut paths = HostPaths::new(folder.alloc, folder.rt, folder.rest()?);
    let mut opener = paths.open(folder.alloc, &by_path(false, 0, 1))?;
    let path = folder.at("one")?;
    let (at_once, later) = unused(folder, &mut opener, path.as_bytes())?;
    paths.close(opener);
    Ok(format!(in folder.alloc; "{at_once} {later}")?)
}

fn said(folder: &Folder) -> Result<String, Fail> {
    let mut faults = 0;
    say(folder.rt, &mut faults, b"said\n")?;
    let mut dropped = 0;
    tell(folder.rt, &mut dropped, b"told\n");
    let word = if faults == 0 { "said" } else { "failed" };
    Ok(String::from_str(folder.alloc, word)?)
}

// Something is due once its seconds have passed, and then not before they have passed again.
fn timer(folder: &Folder) -> Result<String, Fail> {
    let mut timer = Timer::new(folder.rt);
    let early = timer.is_due(3600);
    thread::sleep(&folder.rt, Duration::from_millis(2100));
    let due = timer.is_due(2);
    let again = timer.is_due(2);
    let always = timer.is_due(0);
    Ok(format!(in folder.alloc; "{early} {due} {again} {always}")?)
}
