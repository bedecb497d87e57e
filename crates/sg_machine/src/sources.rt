// Records that begin and are acknowledged.
ghost use Rattle.std.specs.Prelude.{◌≡◌, OnOk, Some, true};
ghost use Rattle.sg_list.specs.Lists.{change};
ghost use Rattle.sg_window.specs.Window.{one_less};
ghost use Rattle.sg_machine.specs.Turns.{trimmed, acked_one, begun_one, acks};

use crate::running::{Slip, SourceRun};
use sg_list::Seq;
use sg_window::BegunRecord;
use std::alloc::AllocError;

// Counts the records that have been acknowledged since, in time in proportion to their number.
fn trim(source: &mut SourceRun)
    ensures { source.new ≡ trimmed source.old }
{
    for k in source.acked..source.records.len() {
        let record = *source.records.at(k);
        if record.left != 0 {
            return;
        }
        source.acked = k + 1;
        source.mark = record.end;
    }
}

fn lessen(records: &mut Seq<BegunRecord>, number: u64)
    ensures { records.new ≡ change records.old number one_less }
{
    if number < records.len() as u64 {
        let waiting = records.at_mut(number as usize);
        waiting.left = waiting.left.saturating_sub(1);
    }
}

fn take_ack(source: &mut SourceRun, number: u64)
    ensures { source.new ≡ acked_one number source.old }
{
    lessen(&mut source.records, number);
    trim(source);
}

fn ack_record(sources: &mut Seq<SourceRun>, slip: &Slip, number: u64)
    ensures { slip.now.flow ≡ true → slip.now.number ≡ Some number
        → sources.new ≡ acks slip.now sources.old }
{
    let place = slip.inlet as usize;
    if place < sources.len() {
        take_ack(sources.at_mut(place), number);
    }
}

/// The record of the entry, where that is flow-controlled, waits for one acknowledgement less.
pub(crate) fn acknowledge(sources: &mut Seq<SourceRun>, slip: &Slip)
    ensures { sources.new ≡ acks slip.now sources.old }
{
    if !slip.flow {
        return;
    }
    if let Some(number) = slip.number {
        ack_record(sources, slip, number);
    }
}

/// Begins a record, which ends there and needs so many acknowledgements.
pub(crate) fn begin(source: &mut SourceRun, end: u64, left: u32) -> Result<(), AllocError>
    ensures { OnOk result (source.new ≡ begun_one end left source.old) }
{
    source.records.push(BegunRecord { end, left })?;
    trim(source);
    Ok(())
}
