// The report of a run.
ghost use Rattle.std.specs.Prelude.{◌≡◌, ◌<◌, List, ◌∷◌, ◌++◌, length, OnOk, OnErr, IfOk, Some, slice_get};
ghost use Rattle.sg_report.specs.declared.line.SourceLine.{SourceLine};
ghost use Rattle.sg_report.specs.Report.{HasAll, position_of, position_text, line_text, driver_lines, source_lines, lines, dest_text, dest_lines, held_line, held_lines, fault_line, fault_lines, status_line, report_text};

use crate::Shown;
use crate::line::SourceLine;
use sg_machine::{DestTally, Tally};
use std::alloc::{AllocError, Global};

fn position_of(file: bool, stored: Option<u64>) -> Option<u64>
    ensures { result ≡ position_of file stored }
{
    if file {
        Some(stored.unwrap_or(0))
    } else {
        None
    }
}

fn inlet_line(tally: &Tally, shown: &Shown, i: usize) -> SourceLine
    requires all { HasAll tally.now shown.now }
    requires inlet { i < length tally.now.sources }
    ensures { Some result ≡ slice_get (lines tally.now shown.now) i }
{
    let source = tally.sources.at(i);
    SourceLine {
        driver: *shown.drivers.at(i),
        records: source.records,
        bad_frames: *shown.bad_frames.at(i),
        position: position_of(*shown.files.at(i), source.stored),
    }
}

fn append_position(
    alloc: Global,
    position: Option<u64>,
    text: &mut Vec<u8>,
) -> Result<(), AllocError>
    ensures { OnOk result (text.new.items ≡ text.old.items ++ position_text position) }
{
    if let Some(position) = position {
        let stored = format!(in alloc; " position {position}")?;
        text.extend_from_slice(stored.as_bytes())?;
    }
    Ok(())
}

fn append_line(alloc: Global, line: SourceLine, text: &mut Vec<u8>) -> Result<(), AllocError>
    ensures { OnOk result (text.new.items ≡ text.old.items ++ line_text line) }
{
    let SourceLine {
        driver,
        records,
        bad_frames,
        position,
    } = line;
    let numbers = format!(in alloc; "source {driver} records {records} bad-frames {bad_frames}")?;
    text.extend_from_slice(numbers.as_bytes())?;
    append_position(alloc, position, text)?;
    text.extend_from_slice(b"\n")?;
    Ok(())
}

// Goes on to the next inlet. What is said of the driver before is whole where another begins.
fn append_next(
    alloc: Global,
    sum: SourceLine,
    inlet: SourceLine,
    text: &mut Vec<u8>,
) -> Result<SourceLine, AllocError>
    ensures { IfOk result (λ next. (rest : List SourceLine)
        → text.new.items ++ driver_lines next rest
        ≡ text.old.items ++ driver_lines sum (inlet ∷ rest)) }
{
    if inlet.driver == sum.driver {
        return Ok(sum.join(inlet));
    }
    append_line(alloc, sum, text)?;
    Ok(inlet)
}

fn append_sources(
    alloc: Global,
    tally: &Tally,
    shown: &Shown,
    text: &mut Vec<u8>,
) -> Result<(), AllocError>
    requires { HasAll tally.now shown.now }
    ensures { OnOk result
        (text.new.items ≡ text.old.items ++ source_lines (lines tally.now shown.now)) }
{
    if tally.sources.is_empty() {
        return Ok(());
    }
    let mut sum = inlet_line(tally, shown, 0);
    for i in 1..tally.sources.len() {
        sum = append_next(alloc, sum, inlet_line(tally, shown, i), text)?;
    }
    append_line(alloc, sum, text)?;
    Ok(())
}

fn append_dest(
    alloc: Global,
    d: usize,
    dest: &DestTally,
    text: &mut Vec<u8>,
) -> Result<(), AllocError>
    ensures { OnOk result (text.new.items ≡ text.old.items ++ dest_text d dest.now) }
{
    let DestTally {
        taken,
        dropped_full,
        dropped_disk,
        left,
    } = *dest;
    let line = format!(in alloc;
        "destination {d} taken {taken} dropped-full {dropped_full} dropped-disk {dropped_disk} left {left}\n"
    )?;
    text.extend_from_slice(line.as_bytes())?;
    Ok(())
}

fn append_dests(alloc: Global, dests: &[DestTally], text: &mut Vec<u8>) -> Result<(), AllocError>
    ensures { OnOk result (text.new.items ≡ text.old.items ++ dest_lines 0 dests.now) }
{
    for (d, dest) in dests.iter().enumerate() {
        append_dest(alloc, d, dest, text)?;
    }
    Ok(())
}

// Nothing is said of a buffer that holds nothing.
fn append_held(alloc: Global, d: u32, frames: u64, text: &mut Vec<u8>) -> Result<(), AllocError>
    ensures { OnOk result (text.new.items ≡ text.old.items ++ held_line (d, frames)) }
{
    if frames == 0 {
        return Ok(());
    }
    let line = format!(in alloc; "buffer {d} held {frames}\n")?;
    text.extend_from_slice(line.as_bytes())?;
    Ok(())
}

fn append_buffers(alloc: Global, held: &[(u32, u64)], text: &mut Vec<u8>) -> Result<(), AllocError>
    ensures { OnOk result (text.new.items ≡ text.old.items ++ held_lines held.now) }
{
    for buffer in held {
        append_held(alloc, buffer.0, buffer.1, text)?;
    }
    Ok(())
}

fn append_fault(
    alloc: Global,
    kind: &str,
    number: u32,
    text: &mut Vec<u8>,
) -> Result<(), AllocError>
    ensures { OnOk result (text.new.items ≡ text.old.items ++ fault_line kind.now number) }
{
    let line = format!(in alloc; "fault {kind} {number}\n")?;
    text.extend_from_slice(line.as_bytes())?;
    Ok(())
}

fn append_faults(
    alloc: Global,
    kind: &str,
    numbers: &[u32],
    text: &mut Vec<u8>,
) -> Result<(), AllocError>
    ensures { OnOk result (text.new.items ≡ text.old.items ++ fault_lines kind.now numbers.now) }
{
    for number in numbers {
        append_fault(alloc, kind, *number, text)?;
    }
    Ok(())
}

fn append_status(alloc: Global, status: u8, text: &mut Vec<u8>) -> Result<(), AllocError>
    ensures { OnOk result (text.new.items ≡ text.old.items ++ status_line status) }
{
    let line = format!(in alloc; "status {status}\n")?;
    text.extend_from_slice(line.as_bytes())?;
    Ok(())
}

fn report(alloc: Global, tally: &Tally, shown: &Shown) -> Result<Vec<u8>, AllocError>
    requires { HasAll tally.now shown.now }
    ensures { IfOk result (λ text. text.items ≡ report_text tally.now shown.now) }
{
    let mut text = Vec::new(alloc);
    append_sources(alloc, tally, shown, &mut text)?;
    append_dests(alloc, tally.dests.as_slice(), &mut text)?;
    append_buffers(alloc, shown.held.as_slice(), &mut text)?;
    append_faults(alloc, "sink", shown.sinks.as_slice(), &mut text)?;
    append_faults(alloc, "store", shown.stores.as_slice(), &mut text)?;
    append_faults(alloc, "inlet", shown.inlets.as_slice(), &mut text)?;
    append_status(alloc, shown.status, &mut text)?;
    Ok(text)
}

/// Appends the report of a run: a line for each source driver, a line for each destination driver, a
/// line for each buffer that holds frames, the faults and the status. Without memory `out` stays as
/// it was.
pub fn tally_text(
    alloc: Global,
    tally: &Tally,
    shown: &Shown,
    out: &mut Vec<u8>,
) -> Result<(), AllocError>
    requires { HasAll tally.now shown.now }
    ensures ok { OnOk result (out.new.items ≡ out.old.items ++ report_text tally.now shown.now) }
    ensures err { OnErr result (out.new.items ≡ out.old.items) }
{
    let text = report(alloc, tally, shown)?;
    out.extend_from_slice(&text)
}
