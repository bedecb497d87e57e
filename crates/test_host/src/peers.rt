// Steps over connections that take frames.
use crate::folder::{frames, free_port, listen, send};
use sg_device::{Frames, OpenRefusal, Outlet, OutletFault, Reopened, SendRefusal};
use sg_file::IdleWait;
use sg_net::TcpOutlet;
use std::io::{ErrorKind, Read, Write};
use std::net::{TcpListener, TcpStream};
use std::test::Fail;
use std::thread::Threads;
use std::time::{Duration, Instant};

// The bytes of each frame of a long row of them, and how many those are.
const SIZE: usize = 65_536;

const COUNT: usize = 160;

// The most frames of one send of them.
const WINDOW: usize = 32;

// A send takes less than so many milliseconds, of which the wait of all adapters is 100.
const PROMPT: u128 = 400;

/// What a step over a connection comes to.
pub(crate) fn take<T: Threads + Copy>(
    threads: T,
    rt: HostRuntime,
    what: &str,
) -> Result<String, Fail> {
    match what {
        "connects" => connects(threads, rt, b"127.0.0.1"),
        "named" => connects(threads, rt, b"localhost"),
        "unknown" => unknown(threads, rt),
        "away" => away(threads, rt),
        "ready" => ready(threads, rt),
        "closed" => closed(threads, rt),
        "talked" => talked(threads, rt),
        "unread" => unread(threads, rt),
        "unanswered" => unanswered(threads, rt),
        "slow" => slow(threads, rt),
        "other" => other(threads, rt),
        "name" => name(threads, rt),
        _ => Err("no such step".into()),
    }
}

fn open<T: Threads + Copy>(
    threads: T,
    rt: HostRuntime,
    host: &[u8],
    port: u16,
    reopen: u32,
) -> Result<TcpOutlet<T>, OpenRefusal> {
    let rest = IdleWait::new(rt.alloc(), rt)?;
    TcpOutlet::open(threads, rt.alloc(), rt, host, port, reopen, rest)
}

fn outlet<T: Threads + Copy>(
    threads: T,
    rt: HostRuntime,
    port: u16,
    reopen: u32,
) -> Result<TcpOutlet<T>, Fail> {
    Ok(open(threads, rt, b"127.0.0.1", port, reopen)?)
}

// What a send came to.
#[derive(Clone, Copy, PartialEq, Eq, Drop)]
enum Answer {
    Taken,
    Refused,
    Late,
    Starved,
}

fn answer_of(got: Result<(), SendRefusal>) -> Answer {
    match got {
        Ok(()) => Answer::Taken,
        Err(SendRefusal::Fault) => Answer::Refused,
        Err(SendRefusal::Later) => Answer::Late,
        Err(SendRefusal::NoMemory) => Answer::Starved,
    }
}

fn word(answer: Answer) -> &'static str {
    match answer {
        Answer::Taken => "",
        Answer::Refused => "refused ",
        Answer::Late => "late ",
        Answer::Starved => "starved ",
    }
}

// The last answer of sends, which are made again while they are too early, up to ten seconds.
fn sent_at_last<O: Outlet>(
    rt: HostRuntime,
    outlet: &mut O,
    frames: &Frames,
) -> Result<Answer, Fail> {
    let begun = Instant::now(&rt)?;
    let mut last = Answer::Taken;
    for _ in 0..1_000_000 {
        last = answer_of(send(outlet, frames));
        if last != Answer::Late || begun.elapsed(&rt)?.as_secs() >= 10 {
            break;
        }
    }
    Ok(last)
}

// What becomes of these frames.
fn tried<O: Outlet>(rt: HostRuntime, outlet: &mut O, list: &[&str]) -> Result<Answer, Fail> {
    sent_at_last(rt, outlet, &frames(rt.alloc(), list)?)
}

fn reopened(got: Result<Reopened, OutletFault>) -> &'static str {
    match got {
        Ok(Reopened::Ready) => "ready ",
        Ok(Reopened::Later) => "later ",
        Err(_) => "fault ",
    }
}

// So many bytes of a connection as text.
fn heard(rt: HostRuntime, stream: &mut TcpStream, count: usize) -> Result<String, Fail> {
    let mut buffer = [0u8; 16];
    let count = count.min(16);
    stream.read_exact(&mut buffer[..count])?;
    Ok(String::from_str(rt.alloc(), str::from_utf8(&buffer[..count])?)?)
}

// The first bytes of the next connection, which ends then.
fn accepted(rt: HostRuntime, listener: &TcpListener, count: usize) -> Result<String, Fail> {
    let (mut stream, _peer) = listener.accept()?;
    Ok(heard(rt, &mut stream, count)?)
}

// Frames that a new connection takes, and their bytes at its other end.
fn delivered<T: Threads + Copy>(
    rt: HostRuntime,
    outlet: &mut TcpOutlet<T>,
    listener: &TcpListener,
    list: &[&str],
    count: usize,
) -> Result<String, Fail> {
    let refused = word(tried(rt, outlet, list)?);
    let taken = outlet.taken();
    let text = accepted(rt, listener, count)?;
    Ok(format!(in rt.alloc(); "{refused}taken {taken} {text}")?)
}

// A host by its address or by a name, which is looked up beside the sends.
fn connects<T: Threads + Copy>(threads: T, rt: HostRuntime, host: &[u8]) -> Result<String, Fail> {
    let (listener, port) = listen(rt)?;
    let mut outlet = open(threads, rt, host, port, 0)?;
    Ok(delivered(rt, &mut outlet, &listener, &["ab", "cd"], 4)?)
}

// A host that nobody knows.
fn unknown<T: Threads + Copy>(threads: T, rt: HostRuntime) -> Result<String, Fail> {
    let mut outlet = open(threads, rt, b"no-such-host.invalid", 1, 0)?;
    let refused = word(tried(rt, &mut outlet, &["ab"])?);
    let taken = outlet.taken();
    Ok(format!(in rt.alloc(); "{refused}taken {taken}")?)
}

fn counted<T: Threads + Copy>(rt: HostRuntime, outlet: &TcpOutlet<T>) -> Result<String, Fail> {
    let counts = outlet.counts();
    let (taken, faults, failing) = (counts.taken, counts.faults, counts.failing);
    Ok(format!(in rt.alloc(); "taken {taken} faults {faults} failing {failing}")?)
}

fn away<T: Threads + Copy>(threads: T, rt: HostRuntime) -> Result<String, Fail> {
    let mut outlet = outlet(threads, rt, free_port(rt)?, 100)?;
    refused(rt, &mut outlet)
}

// Frames that are refused, and a reopening at once.
fn refused<T: Threads + Copy>(rt: HostRuntime, outlet: &mut TcpOutlet<T>) -> Result<String, Fail> {
    let first = word(tried(rt, outlet, &["ab"])?);
    let counted = counted(rt, outlet)?;
    let before = outlet.counts().laters;
    let later = reopened(outlet.reopen());
    let laters = outlet.counts().laters.saturating_sub(before);
    Ok(format!(in rt.alloc(); "{first}{counted} {later}laters {laters}")?)
}

fn ready<T: Threads + Copy>(threads: T, rt: HostRuntime) -> Result<String, Fail> {
    let port = free_port(rt)?;
    let mut outlet = outlet(threads, rt, port, 0)?;
    ready_later(rt, &mut outlet, port)
}

// Frames that are sent before anybody listens on the port, and again then.
fn ready_later<T: Threads + Copy>(
    rt: HostRuntime,
    outlet: &mut TcpOutlet<T>,
    port: u16,
) -> Result<String, Fail> {
    let first = word(tried(rt, outlet, &["ab"])?);
    let listener = TcpListener::bind(&rt, ("127.0.0.1", port))?;
    let second = reopened(outlet.reopen());
    let last = delivered(rt, outlet, &listener, &["ab"], 2)?;
    Ok(format!(in rt.alloc(); "{first}{second}{last}")?)
}

// How many frames a connection takes whose peer closes it then.
fn closed_behind<T: Threads + Copy>(
    rt: HostRuntime,
    outlet: &mut TcpOutlet<T>,
    listener: &TcpListener,
) -> Result<u64, Fail> {
    let _answer = tried(rt, outlet, &["ab"])?;
    let taken = outlet.taken();
    accepted(rt, listener, 2)?;
    Ok(taken)
}

// A peer that has closed the connection is noticed at the next send, which takes no frame.
fn closed<T: Threads + Copy>(threads: T, rt: HostRuntime) -> Result<String, Fail> {
    let (listener, port) = listen(rt)?;
    let mut outlet = outlet(threads, rt, port, 0)?;
    closed_between(rt, &mut outlet, &listener)
}

fn closed_between<T: Threads + Copy>(
    rt: HostRuntime,
    outlet: &mut TcpOutlet<T>,
    listener: &TcpListener,
) -> Result<String, Fail> {
    let first = closed_behind(rt, outlet, listener)?;
    let refused = word(tried(rt, outlet, &["cd"])?);
    let second = outlet.taken();
    let ready = reopened(outlet.reopen());
    let last = delivered(rt, outlet, listener, &["cd"], 2)?;
    Ok(format!(in rt.alloc(); "taken {first} {refused}taken {second} {ready}{last}")?)
}

// All that comes over a connection, to its end, as text.
fn heard_whole(rt: HostRuntime, stream: &mut TcpStream) -> Result<String, Fail> {
    let mut got = Vec::new(rt.alloc());
    stream.read_to_end(&mut got)?;
    Ok(String::from_str(rt.alloc(), str::from_utf8(&got)?)?)
}

// A peer that has sent something gets the last frame and then the end, and no reset, when the outlet is closed.
fn talked<T: Threads + Copy>(threads: T, rt: HostRuntime) -> Result<String, Fail> {
    let (listener, port) = listen(rt)?;
    let mut outlet = outlet(threads, rt, port, 0)?;
    let refused = word(tried(rt, &mut outlet, &["ab"])?);
    let (mut stream, _peer) = listener.accept()?;
    stream.write_all(b"xyz")?;
    let taken = outlet.into_counts().taken;
    let text = heard_whole(rt, &mut stream)?;
    Ok(format!(in rt.alloc(); "{refused}taken {taken} {text}")?)
}

// The byte of the frame of this number.
fn byte_of(number: usize) -> u8 {
    (number % 256) as u8
}

// The frame of this number.
fn frame_of(rt: HostRuntime, number: usize) -> Result<Vec<u8>, Fail> {
    let piece = [byte_of(number); 4096];
    let mut frame = Vec::new(rt.alloc());
    for _ in 0..SIZE / 4096 {
        frame.extend_from_slice(&piece)?;
    }
    Ok(frame)
}

// Frames of 10 MiB in all, each of the byte that its number has: so many from this one on.
fn many(rt: HostRuntime, from: usize, count: usize) -> Result<Frames, Fail> {
    let mut frames = Frames::new(rt.alloc());
    for number in from..from.saturating_add(count).min(COUNT) {
        frames.push(&frame_of(rt, number)?)?;
    }
    Ok(frames)
}

/// Sends of a long row of frames: some that weren't taken yet, from a number on, the last answer, and
/// the milliseconds of the longest send.
#[derive(Drop)]
struct SentFrames {
    frames: Frames,
    from: u64,
    last: Answer,
    longest: u128,
}

fn whole_row(rt: HostRuntime) -> Result<SentFrames, Fail> {
    Ok(SentFrames {
        frames: many(rt, 0, WINDOW)?,
        from: 0,
        last: Answer::Late,
        longest: 0,
    })
}

// One send of frames that weren't taken yet.
fn send_rest<O: Outlet>(rt: HostRuntime, outlet: &mut O, row: &mut SentFrames) -> Result<(), Fail> {
    if outlet.taken() != row.from {
        row.from = outlet.taken();
        row.frames = many(rt, row.from as usize, WINDOW)?;
    }
    if row.frames.is_empty() {
        row.last = Answer::Taken;
        return Ok(());
    }
    let begun = Instant::now(&rt)?;
    row.last = answer_of(send(outlet, &row.frames));
    if row.last == Answer::Taken {
        row.last = Answer::Late;
    }
    row.longest = row.longest.max(begun.elapsed(&rt)?.as_millis());
    Ok(())
}

// Sends until all are taken or one is refused, up to fifteen seconds.
fn send_all<O: Outlet>(rt: HostRuntime, outlet: &mut O) -> Result<SentFrames, Fail> {
    let begun = Instant::now(&rt)?;
    let mut row = whole_row(rt)?;
    for _ in 0..1_000_000 {
        if row.last != Answer::Late || begun.elapsed(&rt)?.as_secs() >= 15 {
            break;
        }
        send_rest(rt, outlet, &mut row)?;
    }
    Ok(row)
}

fn promptness(longest: u128) -> &'static str {
    if longest < PROMPT {
        "prompt"
    } else {
        "held up"
    }
}

fn amount(taken: u64) -> &'static str {
    if taken == 0 {
        "none"
    } else if taken < COUNT as u64 {
        "some"
    } else {
        "all"
    }
}

fn as_text(rt: HostRuntime, row: &SentFrames, taken: u64) -> Result<String, Fail> {
    let (last, prompt) = (word(row.last), promptness(row.longest));
    let amount = amount(taken);
    Ok(format!(in rt.alloc(); "{last}{amount} {prompt}")?)
}

// A peer that takes nothing for five seconds has taken some of the frames, and no send waits for it.
fn unread<T: Threads + Copy>(threads: T, rt: HostRuntime) -> Result<String, Fail> {
    let (listener, port) = listen(rt)?;
    let mut outlet = outlet(threads, rt, port, 0)?;
    let row = send_all(rt, &mut outlet)?;
    let (_stream, _peer) = listener.accept()?;
    as_text(rt, &row, outlet.taken())
}

// Connections until the listener's queue takes no more.
fn fill(rt: HostRuntime, listener: &TcpListener) -> Result<Vec<TcpStream>, Fail> {
    let address = listener.local_addr()?;
    let wait = Duration::from_millis(200);
    let mut queue = Vec::new(rt.alloc());
    for _ in 0..1000 {
        match TcpStream::connect_timeout(&rt, &address, wait) {
            Ok(stream) => queue.push(stream)?,
            Err(_) => return Ok(queue),
        }
    }
    Ok(queue)
}

// A peer that doesn't answer is a fault after five seconds, and no send waits for it.
fn unanswered<T: Threads + Copy>(threads: T, rt: HostRuntime) -> Result<String, Fail> {
    let (listener, port) = listen(rt)?;
    let _queue = fill(rt, &listener)?;
    let mut outlet = outlet(threads, rt, port, 0)?;
    send_timed(rt, &mut outlet)
}

// What sends until all are taken or one is refused come to, and after how many seconds.
fn send_timed<O: Outlet>(rt: HostRuntime, outlet: &mut O) -> Result<String, Fail> {
    let begun = Instant::now(&rt)?;
    let row = send_all(rt, outlet)?;
    let seconds = begun.elapsed(&rt)?.as_secs();
    let text = as_text(rt, &row, outlet.taken())?;
    Ok(format!(in rt.alloc(); "{text} after {seconds}")?)
}

// What a peer reads at once, which must be these bytes.
fn hear(stream: &mut TcpStream, wanted: &[u8]) -> Result<usize, Fail> {
    let mut buffer = [0u8; 16_384];
    let count = match stream.read(&mut buffer) {
        Ok(count) => count,
        Err(error) if error.kind() == ErrorKind::WouldBlock => return Ok(0),
        Err(error) => return Err(Fail::from(error)),
    };
    if buffer.get(..count) != wanted.get(..count) {
        return Err("other bytes arrived".into());
    }
    Ok(count)
}

// Reads up to so many times, and tells how many bytes there were then.
fn hear_some(
    stream: &mut TcpStream,
    wanted: &[u8],
    before: usize,
    times: u32,
) -> Result<usize, Fail> {
    let mut heard = before;
    for _ in 0..times {
        let count = hear(stream, wanted.get(heard..).unwrap_or(&[]))?;
        if count == 0 {
            break;
        }
        heard = heard.saturating_add(count);
    }
    Ok(heard)
}

// A peer that reads a little between two sends gets all frames, each of them once and whole.
fn slow<T: Threads + Copy>(threads: T, rt: HostRuntime) -> Result<String, Fail> {
    let (listener, port) = listen(rt)?;
    let mut outlet = outlet(threads, rt, port, 0)?;
    let heard = heard_slowly(rt, &mut outlet, &listener)?;
    let frames = heard / SIZE;
    let taken = outlet.taken();
    let faults = outlet.counts().faults;
    Ok(format!(in rt.alloc(); "heard {frames} taken {taken} faults {faults}")?)
}

// How many bytes a peer gets that reads a little between two sends.
fn heard_slowly<O: Outlet>(
    rt: HostRuntime,
    outlet: &mut O,
    listener: &TcpListener,
) -> Result<usize, Fail> {
    let mut row = whole_row(rt)?;
    send_rest(rt, outlet, &mut row)?;
    let mut stream = accept_nonblocking(listener)?;
    hear_between(rt, outlet, &mut row, &mut stream)
}

fn accept_nonblocking(listener: &TcpListener) -> Result<TcpStream, Fail> {
    let (stream, _peer) = listener.accept()?;
    stream.set_nonblocking(true)?;
    Ok(stream)
}

// Reads a little and sends in turns, until all bytes were read. How many were.
fn hear_between<O: Outlet>(
    rt: HostRuntime,
    outlet: &mut O,
    row: &mut SentFrames,
    stream: &mut TcpStream,
) -> Result<usize, Fail> {
    let all = many(rt, 0, COUNT)?;
    let mut heard = 0;
    for _ in 0..100_000 {
        heard = hear_some(stream, all.bytes(), heard, 8)?;
        if heard >= COUNT * SIZE {
            break;
        }
        send_rest(rt, outlet, row)?;
    }
    Ok(heard)
}

// All that comes over the next connection.
fn read_next(rt: HostRuntime, listener: &TcpListener) -> Result<Vec<u8>, Fail> {
    let (mut stream, _peer) = listener.accept()?;
    let mut got = Vec::new(rt.alloc());
    stream.read_to_end(&mut got)?;
    Ok(got)
}

// A frame that isn't the one of which a part was sent goes over another connection.
fn other<T: Threads + Copy>(threads: T, rt: HostRuntime) -> Result<String, Fail> {
    let (listener, port) = listen(rt)?;
    let (whole, last) = send_another(threads, rt, port)?;
    let answer = word(last);
    let text = cut_and_next(rt, &listener, whole)?;
    Ok(format!(in rt.alloc(); "{answer}{text}")?)
}

// How many frames of a row are taken whole by twenty sends.
fn send_part<O: Outlet>(rt: HostRuntime, outlet: &mut O) -> Result<usize, Fail> {
    let mut row = whole_row(rt)?;
    for _ in 0..20 {
        send_rest(rt, outlet, &mut row)?;
    }
    Ok(outlet.taken() as usize)
}

// Sends a part of a row, and then other frames. How many of the first ones were taken whole, and what
// becomes of the others.
fn send_another<T: Threads + Copy>(
    threads: T,
    rt: HostRuntime,
    port: u16,
) -> Result<(usize, Answer), Fail> {
    let mut outlet = outlet(threads, rt, port, 0)?;
    let whole = send_part(rt, &mut outlet)?;
    let answer = tried(rt, &mut outlet, &["ab", "cd"])?;
    let _counts = outlet.into_counts();
    Ok((whole, answer))
}

// Whether a connection brings so many whole frames and a part of one, and what the next one brings.
fn cut_and_next(rt: HostRuntime, listener: &TcpListener, whole: usize) -> Result<String, Fail> {
    let first = read_next(rt, listener)?;
    let second = read_next(rt, listener)?;
    let cut = cut_word(first.len(), whole);
    let text = str::from_utf8(&second)?;
    Ok(format!(in rt.alloc(); "{cut} {text}")?)
}

// Whether so many bytes are this many whole frames and a part of one.
fn cut_word(count: usize, whole: usize) -> &'static str {
    if count / SIZE == whole && count % SIZE > 0 {
        "cut"
    } else {
        "other"
    }
}

fn name<T: Threads + Copy>(threads: T, rt: HostRuntime) -> Result<String, Fail> {
    let word = match open(threads, rt, b"\xff", 1, 0) {
        Ok(_) => "opened",
        Err(OpenRefusal::Failed) => "refused",
        Err(OpenRefusal::NoMemory) => "starved",
    };
    Ok(String::from_str(rt.alloc(), word)?)
}
