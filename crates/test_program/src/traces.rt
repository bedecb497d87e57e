// What a file's trace says. The words of a row are how the file is cut into records, `lines` or `counted`, the bytes of the longest
// text, above 0, and the file; `missing` is no file at all. A record whose MESSAGE has an `x` has no offers, one with a `b` goes to
// both destinations, the second with flow-control, and every other one to the first. They send MESSAGE and LF, and MESSAGE alone.
ghost use Rattle.std.specs.Prelude.{◌<◌};

mod split;

use crate::faults::untraced_words;
use crate::heard::Heard;
use crate::machine::{add_text, machine_with};
use sg_device::NoMemory;
use sg_frame::FrameKind;
use sg_outfmt::Shape;
use sg_template::{Env, Template};
use sg_trace::{FileReading, SentForm, Untraced, trace_file};
use sg_world::MemoryMachine;
use split::SplitTrace;
use std::alloc::{AllocError, Global};

const ENV: Env = Env {
    zone: None,
    digits: 0,
    iso: false,
    old: None,
};

// What sends this template's text, which has no fault.
fn target(alloc: Global, text: &[u8]) -> Result<SentForm, NoMemory> {
    match Template::read(alloc, text) {
        Ok(template) => Ok(SentForm {
            shape: Shape::Text(template),
            env: ENV,
        }),
        Err(_) => Err(AllocError),
    }
}

fn machine(alloc: Global, text: &str) -> Result<MemoryMachine, NoMemory> {
    let mut files = Vec::new(alloc);
    add_text(alloc, b"in", text, &mut files)?;
    Ok(machine_with(alloc, files))
}

// How a trace ended, and what it said.
fn told(alloc: Global, traced: Result<(), Untraced>, said: &[u8]) -> Result<Vec<u8>, NoMemory> {
    let end: &[u8] = match traced {
        Ok(()) => b"ok",
        Err(untraced) => untraced_words(untraced),
    };
    let mut out = end.to_vec(alloc)?;
    out.extend_from_slice(b": ")?;
    out.extend_from_slice(said)?;
    Ok(out)
}

fn traced(alloc: Global, kind: FrameKind, limit: u32, text: &str) -> Result<Vec<u8>, NoMemory>
    requires { 0 < limit }
{
    let targets = [target(alloc, b"$MESSAGE\n")?, target(alloc, b"$MESSAGE")?];
    let mut router = SplitTrace { count: 0 };
    let mut machine = machine(alloc, text)?;
    let reader = FileReading {
        inlet: 0,
        kind,
        limit,
    };
    let traced = trace_file(alloc, b"in", &mut router, reader, &targets, &mut machine);
    told(alloc, traced, machine.world.said())
}

// How a row's file is cut, its longest text, and the file.
fn parts(row: &str) -> Option<(FrameKind, u32, &str)> {
    let Some((kind, rest)) = row.split_once(' ') else {
        return None;
    };
    let Some((limit, text)) = rest.split_once(' ') else {
        return None;
    };
    let Ok(limit) = limit.parse::<u32>() else {
        return None;
    };
    match kind {
        "counted" => Some((FrameKind::Counted, limit, text)),
        "lines" => Some((FrameKind::Lines, limit, text)),
        _ => None,
    }
}

/// How the trace ended, and what it said.
pub(crate) fn answer(alloc: Global, row: &str) -> Result<Heard, NoMemory> {
    match parts(row) {
        Some((kind, limit, text)) if limit > 0 => {
            Ok(Heard::Answer(traced(alloc, kind, limit, text)?))
        }
        _ => Ok(Heard::Unknown),
    }
}
