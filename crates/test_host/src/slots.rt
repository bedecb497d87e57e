// Steps over slots of a listener.
use crate::folder::brought;
use sg_device::{Inlet, InletFault, Pull};
use sg_file::IdleWait;
use sg_net::{Listener, SlotInlet};
use std::io::{Read, Write};
use std::net::TcpStream;
use std::test::Fail;
use std::time::Instant;

/// What a step over slots comes to.
pub(crate) fn take(rt: HostRuntime, what: &str) -> Result<String, Fail> {
    match what {
        "shared" => shared(rt),
        "idle" => idle(rt),
        _ => by_one(rt, what),
    }
}

// A listener on a port that is free, and the port.
fn listen(rt: HostRuntime) -> Result<(Listener, u16), Fail> {
    let listener = Listener::bind(rt.alloc(), rt, b"127.0.0.1", 0)?;
    let port = listener.bound_port()?;
    Ok((listener, port))
}

fn slot(rt: HostRuntime, listener: &Listener, once: bool) -> Result<SlotInlet, Fail> {
    let rest = IdleWait::new(rt.alloc(), rt)?;
    let acceptor = listener.acceptor()?;
    Ok(SlotInlet::open(rt.alloc(), rt, acceptor, b"test", once, rest)?)
}

fn client(rt: HostRuntime, port: u16) -> Result<TcpStream, Fail> {
    Ok(TcpStream::connect(&rt, ("127.0.0.1", port))?)
}

// A connection that sends these bytes.
fn sender(rt: HostRuntime, port: u16, bytes: &[u8]) -> Result<TcpStream, Fail> {
    let mut stream = client(rt, port)?;
    stream.write_all(bytes)?;
    Ok(stream)
}

// What the next pull brings that isn't idle, and `-` where all of some time are.
fn pull(slot: &mut SlotInlet, text: &mut String) -> Result<(), Fail> {
    let mut buffer = [0u8; 2];
    for _ in 0..12 {
        match slot.pull(&mut buffer) {
            Ok(Pull::Idle) => {}
            Ok(Pull::Next) => return next(slot.peer(), text),
            got => return other(got, &buffer, text),
        }
    }
    text.push_str("-")?;
    Ok(())
}

// A part of a peer.
fn next(peer: &[u8], text: &mut String) -> Result<(), Fail> {
    text.push_str("next ")?;
    text.push_str(str::from_utf8(peer)?)?;
    text.push_str(":")?;
    Ok(())
}

// What else a pull brings.
fn other(got: Result<Pull, InletFault>, buffer: &[u8], text: &mut String) -> Result<(), Fail> {
    text.push_str(brought(got, buffer)?)?;
    text.push_str(":")?;
    Ok(())
}

fn pull_times(slot: &mut SlotInlet, times: u32, text: &mut String) -> Result<(), Fail> {
    for _ in 0..times {
        pull(slot, text)?;
    }
    Ok(())
}

// A step over one slot.
fn by_one(rt: HostRuntime, what: &str) -> Result<String, Fail> {
    let (listener, port) = listen(rt)?;
    let mut slot = slot(rt, &listener, what == "once")?;
    let mut text = String::new(rt.alloc());
    steps(rt, port, &mut slot, what, &mut text)?;
    Ok(text)
}

fn steps(
    rt: HostRuntime,
    port: u16,
    slot: &mut SlotInlet,
    what: &str,
    text: &mut String,
) -> Result<(), Fail> {
    match what {
        "served" => served(rt, port, slot, text),
        "second" => second(rt, port, slot, text),
        "once" => once(rt, port, slot, text),
        "hung" => hung(rt, port, slot, text),
        _ => Err("no such step".into()),
    }
}

fn served(rt: HostRuntime, port: u16, slot: &mut SlotInlet, text: &mut String) -> Result<(), Fail> {
    let _stream = sender(rt, port, b"abcd")?;
    pull_times(slot, 4, text)?;
    Ok(())
}

// A connection that sends these bytes and ends, and two pulls before it does.
fn serve_one(
    rt: HostRuntime,
    port: u16,
    slot: &mut SlotInlet,
    bytes: &[u8],
    text: &mut String,
) -> Result<(), Fail> {
    let _stream = sender(rt, port, bytes)?;
    pull_times(slot, 2, text)?;
    Ok(())
}

fn second(rt: HostRuntime, port: u16, slot: &mut SlotInlet, text: &mut String) -> Result<(), Fail> {
    for bytes in [b"ab".as_slice(), b"ef"] {
        serve_one(rt, port, slot, bytes, text)?;
    }
    pull(slot, text)?;
    Ok(())
}

fn once(rt: HostRuntime, port: u16, slot: &mut SlotInlet, text: &mut String) -> Result<(), Fail> {
    drop(sender(rt, port, b"ab")?);
    pull_times(slot, 4, text)?;
    Ok(())
}

// A pull, a hangup and another pull.
fn hang_up(slot: &mut SlotInlet, text: &mut String) -> Result<(), Fail> {
    pull(slot, text)?;
    slot.hangup();
    pull(slot, text)?;
    Ok(())
}

// Whether the other end has closed the connection.
fn is_at_end(stream: &mut TcpStream) -> Result<bool, Fail> {
    let mut buffer = [0u8; 2];
    Ok(stream.read(&mut buffer)? == 0)
}

// A connection that was hung up is closed.
fn hung(rt: HostRuntime, port: u16, slot: &mut SlotInlet, text: &mut String) -> Result<(), Fail> {
    let mut stream = client(rt, port)?;
    hang_up(slot, text)?;
    if is_at_end(&mut stream)? {
        text.push_str(":eof")?;
    }
    Ok(())
}

// A connection that a slot takes before it sends these bytes.
fn taken(
    rt: HostRuntime,
    port: u16,
    slot: &mut SlotInlet,
    bytes: &[u8],
    text: &mut String,
) -> Result<TcpStream, Fail> {
    let mut stream = client(rt, port)?;
    pull(slot, text)?;
    stream.write_all(bytes)?;
    Ok(stream)
}

// Pulls of two slots in turns.
fn pull_in_turns(
    one: &mut SlotInlet,
    other: &mut SlotInlet,
    text: &mut String,
) -> Result<(), Fail> {
    pull(one, text)?;
    pull(other, text)?;
    pull(one, text)?;
    text.push_str(":")?;
    Ok(())
}

// A third client beside those of both slots.
fn third(
    rt: HostRuntime,
    port: u16,
    one: &mut SlotInlet,
    other: &mut SlotInlet,
    text: &mut String,
) -> Result<TcpStream, Fail> {
    let mut third = client(rt, port)?;
    pull_in_turns(one, other, text)?;
    if is_at_end(&mut third)? {
        text.push_str("eof:")?;
    }
    Ok(third)
}

// A second client and a third one, of which the second one ends.
fn second_and_third(
    rt: HostRuntime,
    port: u16,
    one: &mut SlotInlet,
    other: &mut SlotInlet,
    text: &mut String,
) -> Result<TcpStream, Fail> {
    let _second = taken(rt, port, other, b"2", text)?;
    third(rt, port, one, other, text)
}

fn three_clients(
    rt: HostRuntime,
    port: u16,
    one: &mut SlotInlet,
    other: &mut SlotInlet,
    text: &mut String,
) -> Result<(), Fail> {
    let _first = taken(rt, port, one, b"1", text)?;
    let _third = second_and_third(rt, port, one, other, text)?;
    let _fourth = sender(rt, port, b"3")?;
    pull_times(other, 2, text)?;
    Ok(())
}

// Two slots serve a connection each. A third connection is closed, and one that comes when one of the
// two has ended is served.
fn shared(rt: HostRuntime) -> Result<String, Fail> {
    let (listener, port) = listen(rt)?;
    let mut one = slot(rt, &listener, false)?;
    let mut other = slot(rt, &listener, false)?;
    let mut text = String::new(rt.alloc());
    three_clients(rt, port, &mut one, &mut other, &mut text)?;
    Ok(text)
}

// Thirty slots that share their waits.
fn thirty(rt: HostRuntime) -> Result<Vec<SlotInlet>, Fail> {
    let (listener, _port) = listen(rt)?;
    let rest = IdleWait::new(rt.alloc(), rt)?;
    let mut slots = Vec::new(rt.alloc());
    for _ in 0..30 {
        let acceptor = listener.acceptor()?;
        slots.push(SlotInlet::open(rt.alloc(), rt, acceptor, b"test", false, rest.share()?)?)?;
    }
    Ok(slots)
}

// One pull of each slot, which must be idle.
fn wait_once(slots: &mut Vec<SlotInlet>) -> Result<(), Fail> {
    let mut buffer = [0u8; 2];
    for slot in slots {
        if slot.pull(&mut buffer)? != Pull::Idle {
            return Err("it wasn't idle".into());
        }
    }
    Ok(())
}

fn duration(milliseconds: u128) -> &'static str {
    if milliseconds < 200 {
        "no wait"
    } else if milliseconds < 5_000 {
        "short"
    } else {
        "long"
    }
}

// Thirty idle slots wait 227 milliseconds together in ten rounds, and not each of them.
fn idle(rt: HostRuntime) -> Result<String, Fail> {
    let mut slots = thirty(rt)?;
    let start = Instant::now(&rt)?;
    for _ in 0..10 {
        wait_once(&mut slots)?;
    }
    let took = start.elapsed(&rt)?.as_millis();
    Ok(String::from_str(rt.alloc(), duration(took))?)
}
