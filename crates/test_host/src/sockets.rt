// Slots and connections, with both ends in this process.
use crate::{peers, slots};
use std::test::Fail;
use std::thread::Threads;

// A step over slots, or over a peer that answers, and what it comes to.
const ANSWERED: &str = "\
slot served = next 127.0.0.1:ab:cd:-
slot second = next 127.0.0.1:ab:next 127.0.0.1:ef:-
slot once = next 127.0.0.1:ab:.:.:
slot hung = next 127.0.0.1:-:eof
slot shared = next 127.0.0.1:next 127.0.0.1:1:2:-:eof:next 127.0.0.1:3:
slot idle = short
peer connects = taken 2 abcd
peer named = taken 2 abcd
peer unknown = refused taken 0
peer away = refused taken 0 faults 1 failing 1 later laters 1
peer ready = refused ready taken 1 ab
peer closed = taken 1 refused taken 1 ready taken 2 cd
peer talked = taken 1 ab
peer name = refused
";

// A step over a peer that takes no more bytes, and what it comes to.
const STALLED: &str = "\
peer unread = refused some prompt
peer unanswered = refused none prompt after 5
";

// A step over a peer that takes a part of a frame, and what it comes to.
const SLOW: &str = "\
peer slow = heard 160 taken 160 faults 0
peer other = cut abcd
";

#[test]
fn sockets(rt: HostRuntime) -> Result<(), Fail> {
    for line in ANSWERED.lines() {
        let (step, want) = line.split_once(" = ").ok_or("no answer")?;
        let got = take(rt, rt, step)?;
        assert_eq!(rt; (step, got.as_str()), (step, want));
    }
    Ok(())
}

#[test]
fn stalled_peers(rt: HostRuntime) -> Result<(), Fail> {
    for line in STALLED.lines() {
        let (step, want) = line.split_once(" = ").ok_or("no answer")?;
        let got = take(rt, rt, step)?;
        assert_eq!(rt; (step, got.as_str()), (step, want));
    }
    Ok(())
}

#[test]
fn slow_peers(rt: HostRuntime) -> Result<(), Fail> {
    for line in SLOW.lines() {
        let (step, want) = line.split_once(" = ").ok_or("no answer")?;
        let got = take(rt, rt, step)?;
        assert_eq!(rt; (step, got.as_str()), (step, want));
    }
    Ok(())
}

// What a step comes to.
fn take<T: Threads + Copy>(threads: T, rt: HostRuntime, step: &str) -> Result<String, Fail> {
    match step.split_once(' ') {
        Some(("slot", what)) => slots::take(rt, what),
        Some(("peer", what)) => peers::take(threads, rt, what),
        _ => Err("no such step".into()),
    }
}
