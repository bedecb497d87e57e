//! `syslogr`: checks configurations, moves messages as they say, and lists the entries of a disk-buffer's store.
#![tactic(auto)]

use sg_daemon::{Status, daemon};
use sg_device::Name;
use sg_world::{HostMachine, Streams};
use std::alloc::{AllocError, Global};
use std::io::ErrorKind;
use std::process::ExitCode;
use std::sync::Wait;
use std::thread::Threads;
use std::{env, fs};

/// The words of the command line, without the program's name.
fn read_words(alloc: Global, rt: &HostRuntime) -> Result<Vec<Name>, AllocError> {
    let args = match env::args(rt) {
        Ok(args) => args,
        Err(error) if error.kind() == ErrorKind::OutOfMemory => return Err(AllocError),
        Err(_) => return read_bytes(alloc, rt),
    };
    let mut words = Vec::new(alloc);
    for word in args.skip(1) {
        words.push(Name::from_vec(word.into_bytes()))?;
    }
    Ok(words)
}

/// The same words where one of them isn't UTF-8, which the standard library gives none of: Linux tells
/// them with NUL behind each. None where it doesn't.
fn read_bytes(alloc: Global, rt: &HostRuntime) -> Result<Vec<Name>, AllocError> {
    let mut words = Vec::new(alloc);
    let bytes = match fs::read(rt, "/proc/self/cmdline") {
        Ok(bytes) => bytes,
        Err(error) if error.kind() == ErrorKind::OutOfMemory => return Err(AllocError),
        Err(_) => return Ok(words),
    };
    let Some(told) = bytes.strip_suffix(b"\0") else {
        return Ok(words);
    };
    for word in told.split(|byte| *byte == 0).skip(1) {
        words.push(Name::new(alloc, word)?)?;
    }
    Ok(words)
}

/// Does what the words of the command line ask for, on the machine's files and sockets. `waits` is the
/// runtime again, as what may wait.
fn run_words<T: Threads + Wait + Eprint + Copy + Send + Sync>(
    waits: &T,
    alloc: Global,
    rt: HostRuntime,
) -> Result<Status, AllocError> {
    let words = read_words(alloc, &rt)?;
    let mut machine = HostMachine::new(*waits, rt)?;
    Ok(daemon(waits, alloc, &words, &mut machine))
}

fn main(rt: HostRuntime) -> ExitCode {
    // Before anything else is opened.
    let Ok(_streams) = Streams::open(&rt) else {
        return ExitCode::from(Status::NoMemory.code());
    };
    let status = match run_words(&rt, rt.alloc(), rt) {
        Ok(status) => status,
        Err(_) => Status::NoMemory,
    };
    ExitCode::from(status.code())
}
