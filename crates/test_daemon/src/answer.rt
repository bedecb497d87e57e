// What the program answers over a machine in memory.
use crate::machine::text;
use sg_daemon::daemon;
use sg_device::Name;
use sg_memory::MemoryWorld;
use sg_world::MemoryMachine;
use std::alloc::{AllocError, Global};
use std::sync::Wait;
use std::thread::Threads;

/// The words of a command line.
fn words(alloc: Global, line: &str) -> Result<Vec<Name>, AllocError> {
    let mut words = Vec::new(alloc);
    for word in line.split(" ") {
        words.push(Name::new(alloc, word.as_bytes())?)?;
    }
    Ok(words)
}

fn code<T: Threads + Wait + Eprint + Sync>(
    rt: &T,
    alloc: Global,
    words: &[Name],
    machine: &mut MemoryMachine,
) -> u8 {
    daemon(rt, alloc, words, machine).code()
}

/// The exit status of a command.
fn status<T: Threads + Wait + Eprint + Sync>(
    rt: &T,
    alloc: Global,
    line: &str,
    machine: &mut MemoryMachine,
) -> Result<u8, AllocError> {
    let words = words(alloc, line)?;
    Ok(code(rt, alloc, &words, machine))
}

fn code_text(alloc: Global, code: u8) -> Result<Vec<u8>, AllocError> {
    Ok(format!(in alloc; "{code};")?.into_bytes())
}

/// The exit status of a command, and behind `;` what is said.
pub(crate) fn answer<T: Threads + Wait + Eprint + Sync>(
    rt: &T,
    alloc: Global,
    line: &str,
    machine: &mut MemoryMachine,
) -> Result<Vec<u8>, AllocError> {
    let code = status(rt, alloc, line, machine)?;
    let mut answer = code_text(alloc, code)?;
    answer.extend_from_slice(machine.world.said())?;
    Ok(answer)
}

/// The frames that the last outlet took, one behind the other.
fn taken(world: &MemoryWorld) -> &[u8] {
    match world.closed_outlets() {
        Some(cell) => match &cell.closed {
            Some(outlet) => outlet.frames().bytes(),
            None => b"",
        },
        None => b"",
    }
}

/// The frames that the last outlet took, and behind `;` the answer.
fn with_frames(alloc: Global, world: &MemoryWorld, answer: &[u8]) -> Result<Vec<u8>, AllocError> {
    let mut run = taken(world).to_vec(alloc)?;
    run.push(b';')?;
    run.extend_from_slice(answer)?;
    Ok(run)
}

/// The frames that the last outlet took in a run, and behind `;` its answer.
pub(crate) fn run<T: Threads + Wait + Eprint + Sync>(
    rt: &T,
    alloc: Global,
    line: &str,
    machine: &mut MemoryMachine,
) -> Result<Vec<u8>, AllocError> {
    let answer = answer(rt, alloc, line, machine)?;
    with_frames(alloc, &machine.world, &answer)
}

/// Whether these are the bytes of a text of a row.
pub(crate) fn is_text(alloc: Global, said: &[u8], wanted: &str) -> Result<bool, AllocError> {
    Ok(text(alloc, wanted)?.as_slice() == said)
}
