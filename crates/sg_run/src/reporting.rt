// What is said of a run.
ghost use Rattle.std.specs.Prelude.{◌≡◌, ◌++◌, [], IfOk, OnOk};
ghost use Rattle.sg_run.specs.Ends.{early_text};
ghost use Rattle.sg_run.specs.Outcomes.{Drawn, HasLines, HasLinesAt, EndsBefore, EndsAfter, EndsSo};

use crate::end::{End, Outcome, after_rounds, before_rounds};
use sg_device::NoMemory;
use sg_list::Seq;
use sg_report::{Shown, damaged_text, failed_text, tally_text, unopened_text};
use sg_serve::{Counts, Device, Early, Ended, OutletRests, PlanEnded};
use std::alloc::Global;

/// What the report shows of a plan: for each inlet the number of its driver, and whether it is a file.
#[derive(Drop)]
pub(crate) struct ReportRows {
    pub(crate) drivers: Seq<u32>,
    pub(crate) files: Seq<bool>,
}

fn append_early(alloc: Global, early: Early, text: &mut Vec<u8>) -> Result<(), NoMemory>
    ensures { OnOk result (text.new.items ≡ text.old.items ++ early_text early) }
{
    match early {
        Early::OpenFault(Device::Store(n)) => unopened_text(alloc, "store", n, text),
        Early::OpenFault(Device::Inlet(n)) => unopened_text(alloc, "inlet", n, text),
        Early::OpenFault(Device::Dest(n)) => unopened_text(alloc, "destination", n, text),
        Early::Damage { store, at } => damaged_text(alloc, store, at, text),
        Early::DiskFault(s) => failed_text(alloc, s, text),
        Early::NoMemory => Ok(()),
    }
}

// How the run ended whose rounds didn't begin, with its line; none where memory ran out.
fn outcome_before(alloc: Global, early: Early) -> Result<Option<Outcome>, NoMemory>
    ensures { IfOk result (EndsBefore early) }
{
    let Some(end) = before_rounds(early) else {
        return Ok(None);
    };
    let mut text = Vec::new(alloc);
    append_early(alloc, early, &mut text)?;
    Ok(Some(Outcome { end, text }))
}

// The report of a run that ended so.
fn report_of(
    alloc: Global,
    lines: ReportRows,
    counts: Counts,
    end: End,
) -> Result<Vec<u8>, NoMemory>
    requires { HasLines lines counts }
    ensures { IfOk result (λ text. Drawn lines counts end text.items) }
{
    let Counts {
        tally,
        bad_frames,
        sinks: _,
        stores: _,
        inlets,
        rests,
    } = counts;
    let OutletRests {
        held,
        sinks,
        stores,
    } = rests;
    let ReportRows { drivers, files } = lines;
    let shown = Shown {
        drivers,
        files,
        bad_frames,
        held,
        sinks,
        stores,
        inlets,
        status: end.code(),
    };
    let mut text = Vec::new(alloc);
    tally_text(alloc, &tally, &shown, &mut text)?;
    Ok(text)
}

// How the run ended whose rounds ended so, with its report; none where memory ran out.
fn outcome_after(
    alloc: Global,
    lines: ReportRows,
    ended: Ended,
    counts: Counts,
) -> Result<Option<Outcome>, NoMemory>
    requires { HasLines lines counts }
    ensures { IfOk result (EndsAfter lines ended counts) }
{
    let Some(end) = after_rounds(ended, counts.fault()) else {
        return Ok(None);
    };
    let text = report_of(alloc, lines, counts, end)?;
    Ok(Some(Outcome { end, text }))
}

/// How the run of a plan ended, and what is to be said of it; none where memory ran out.
pub(crate) fn outcome_of(
    alloc: Global,
    lines: ReportRows,
    ending: PlanEnded,
) -> Result<Option<Outcome>, NoMemory>
    requires { HasLinesAt lines ending }
    ensures { IfOk result (EndsSo lines ending) }
{
    match ending {
        PlanEnded::Before(early) => outcome_before(alloc, early),
        PlanEnded::Ran(ended, Some(counts)) => outcome_after(alloc, lines, ended, counts),
        PlanEnded::Ran(_, None) => Ok(None),
    }
}
