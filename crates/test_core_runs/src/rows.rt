// Rows of runs.
ghost use Rattle.std.specs.Prelude.{◌≡◌, ◌≤◌, IfOk, length};

use crate::cores::disks;
use crate::draws::Draws;
use crate::images::{PICKS, Told, are_picks, look_into, open_again, picks};
use crate::migration::{are_parts, disks_with, over_older};
use crate::openings::OpenedCore;
use crate::runs::{EndedRun, run_over, unbegun};
use crate::steps::RunSoFar;
use sg_memory_disk::{DiskPlan, FaultPlan, MemoryDisk};
use std::alloc::{AllocError, Global};
use test_replies::ReplyText;

// The steps of a run at most.
const MOST: u64 = 1000;

// Records of a run that goes on end behind this place, which is behind all records of the run before.
const FROM: u64 = 20_000;

// What the runs of a row told.
#[derive(Drop)]
struct RunSums {
    runs: u64,
    refused: u64,
    more: u64,
    steps: u64,
    fronts: u64,
    rewinds: u64,
    failed: u64,
    told: Told,
    // The run and the step that differ.
    differs: Option<(u64, u64)>,
}

impl RunSums {
    fn new() -> RunSums {
        RunSums {
            runs: 0,
            refused: 0,
            more: 0,
            steps: 0,
            fronts: 0,
            rewinds: 0,
            failed: 0,
            told: Told {
                openings: 0,
                entries: 0,
                right: true,
            },
            differs: None,
        }
    }

    // What a run of that number, or one that goes on over what it left, came to.
    fn add(&mut self, number: u64, ended: &EndedRun) {
        if !ended.opened {
            self.refused = self.refused.saturating_add(1);
        }
        self.steps = self.steps.saturating_add(ended.steps);
        self.fronts = self.fronts.saturating_add(ended.run.fronts);
        self.rewinds = self.rewinds.saturating_add(ended.run.rewinds);
        if !ended.run.failed.is_empty() {
            self.failed = self.failed.saturating_add(1);
        }
        if !(ended.right && self.told.right) && self.differs.is_none() {
            self.differs = Some((number, ended.steps));
        }
    }

    fn put_runs(&self, out: &mut ReplyText) {
        out.put_number(self.runs);
        out.put_count(b" runs, ", self.more);
        out.put_count(b" go on, ", self.refused);
        out.put_count(b" refused, ", self.failed);
        out.put(b" with a store that failed, ");
    }

    fn put_steps(&self, out: &mut ReplyText) {
        out.put_number(self.steps);
        out.put_count(b" tallies, ", self.fronts);
        out.put_count(b" fronts, ", self.rewinds);
        out.put_count(b" rewinds, ", self.told.openings);
        out.put_count(b" openings, ", self.told.entries);
        out.put(b" entries");
    }

    fn said(&self, alloc: Global) -> Result<Vec<u8>, AllocError> {
        let mut out = ReplyText::new(alloc);
        if let Some((run, step)) = self.differs {
            out.put_count(b"DIFFERS in run ", run);
            out.put_count(b" at step ", step);
            out.put(b": ");
        }
        self.put_runs(&mut out);
        self.put_steps(&mut out);
        out.done()
    }
}

fn number(word: Option<&str>) -> u64 {
    match word {
        Some(word) => word.parse().unwrap_or(0),
        None => 0,
    }
}

// Whether these are so many numbers.
fn are_numbers(text: &str, count: usize) -> bool {
    for word in text.split(' ') {
        if word.parse::<u64>().is_err() {
            return false;
        }
    }
    text.split(' ').count() == count
}

// Whether these are the words of a row of `failures`.
fn are_failures(row: &str) -> bool {
    let Some((rest, more)) = row.rsplit_once(' ') else {
        return false;
    };
    let Some((numbers, tear)) = rest.rsplit_once(' ') else {
        return false;
    };
    are_numbers(numbers, 4) && are_picks(tear) && are_numbers(more, 1)
}

fn not_understood(alloc: Global) -> Result<Vec<u8>, AllocError> {
    Vec::from_slice(alloc, b"not understood")
}

// How many steps a run has, up to 1,000; whether it ends with the one in which a store fails; and how many steps more
// go on over what it leaves.
#[derive(Clone, Copy, Drop)]
struct Extent {
    steps: u64,
    brief: bool,
    more: u64,
}

// One of the disks, or none, stops behind some calls.
fn stop_one(disks: &mut Vec<MemoryDisk>, draws: &mut Draws)
    ensures { length disks.new.items ≡ length disks.old.items }
{
    let store = draws.below(9) as usize;
    let calls = draws.below(40);
    if store < disks.len() {
        disks[store].stop_after(calls);
    }
}

// So many steps of a run over these disks, in which that is found of the run before.
fn go_on(
    alloc: Global,
    sums: &mut RunSums,
    number: u64,
    before: &EndedRun,
    found: OpenedCore,
    disks: Vec<MemoryDisk>,
    steps: u64,
) -> Result<(), AllocError>
    requires disks { length disks.items ≡ 5 }
    requires steps { steps ≤ 1000 }
{
    let seed = sums.told.openings.wrapping_add(number);
    let mut disks = disks;
    let mut draws = Draws::new(seed);
    stop_one(&mut disks, &mut draws);
    let positions = found.positions;
    let run = RunSoFar::over(alloc, &before.run.made, found)?;
    let begun = unbegun(run, positions);
    let (ended, disks) = run_over(alloc, disks, begun, FROM, seed, steps, false)?;
    look_into(alloc, &disks, &ended, &mut sums.told)?;
    sums.more = sums.more.saturating_add(1);
    sums.add(number, &ended);
    Ok(())
}

// Opens again over one image of what a crash leaves of these disks, another one for the next number, and goes on with so
// many steps.
fn again(
    alloc: Global,
    sums: &mut RunSums,
    number: u64,
    ended: &EndedRun,
    disks: &[MemoryDisk],
    steps: u64,
) -> Result<(), AllocError>
    requires { steps ≤ 1000 }
{
    if steps == 0 || disks.len() != 5 {
        return Ok(());
    }
    let letters = PICKS[(number % 10) as usize];
    let Some((found, disks)) = open_again(alloc, disks, letters, ended, &mut sums.told)? else {
        return Ok(());
    };
    if disks.len() != 5 {
        return Ok(());
    }
    go_on(alloc, sums, number, ended, found, disks, steps)
}

// A run of that number over these disks, and what a crash leaves at its end, over which more steps go on.
fn one(
    alloc: Global,
    sums: &mut RunSums,
    number: u64,
    disks: Vec<MemoryDisk>,
    begun: EndedRun,
    seed: u64,
    extent: Extent,
) -> Result<(), AllocError>
    requires disks { length disks.items ≡ 5 }
{
    let steps = extent.steps.min(MOST);
    let (ended, disks) = run_over(alloc, disks, begun, 0, seed, steps, extent.brief)?;
    look_into(alloc, &disks, &ended, &mut sums.told)?;
    sums.runs = sums.runs.saturating_add(1);
    sums.add(number, &ended);
    again(alloc, sums, number, &ended, &disks, extent.more.min(MOST))
}

// A run that begins over these fresh stores.
fn one_fresh(
    alloc: Global,
    sums: &mut RunSums,
    number: u64,
    disks: Vec<MemoryDisk>,
    seed: u64,
    extent: Extent,
) -> Result<(), AllocError>
    requires { length disks.items ≡ 5 }
{
    let begun = unbegun(RunSoFar::new(alloc), [0; 3]);
    one(alloc, sums, number, disks, begun, seed, extent)
}

// The numbers of a row; 0 where there are fewer.
fn numbers(row: &str) -> [u64; 5] {
    let mut words = row.split(' ');
    [
        number(words.next()),
        number(words.next()),
        number(words.next()),
        number(words.next()),
        number(words.next()),
    ]
}

/// `SEED COUNT STEPS MORE`: so many runs with seeds from that one on.
pub(crate) fn runs(alloc: Global, row: &str) -> Result<Vec<u8>, AllocError> {
    if !are_numbers(row, 4) {
        return not_understood(alloc);
    }
    let asked = numbers(row);
    let extent = Extent {
        steps: asked[2],
        brief: false,
        more: asked[3],
    };
    let mut sums = RunSums::new();
    for k in 0..asked[1] {
        let disks = disks(alloc)?;
        let seed = asked[0].wrapping_add(k);
        one_fresh(alloc, &mut sums, k, disks, seed, extent)?;
    }
    sums.said(alloc)
}

/// `SEED STEPS MORE`: the run of that seed, ended behind each of its steps.
pub(crate) fn moments(alloc: Global, row: &str) -> Result<Vec<u8>, AllocError> {
    if !are_numbers(row, 3) {
        return not_understood(alloc);
    }
    let asked = numbers(row);
    let mut sums = RunSums::new();
    for steps in 0..asked[1].min(MOST) {
        let disks = disks(alloc)?;
        let extent = Extent {
            steps,
            brief: false,
            more: asked[2],
        };
        one_fresh(alloc, &mut sums, steps, disks, asked[0], extent)?;
    }
    sums.said(alloc)
}

// A store fails: for good or once, and what then a write or a sync leaves.
#[derive(Clone, Copy, Drop)]
struct Failing<'a> {
    store: u64,
    stops: bool,
    tear: &'a str,
}

// From a call on each one fails, or that one alone.
fn plan(alloc: Global, call: u64, failing: Failing<'_>) -> Result<DiskPlan, AllocError> {
    let tears = picks(alloc, failing.tear)?;
    if failing.stops {
        return Ok(DiskPlan {
            fails: FaultPlan::never(alloc),
            left: Some(call),
            tears,
        });
    }
    let fails = FaultPlan::new(vec![in alloc; call]?);
    Ok(DiskPlan {
        fails,
        left: None,
        tears,
    })
}

// Disks of which one fails by such a plan.
fn failing_disks(
    alloc: Global,
    call: u64,
    failing: Failing<'_>,
) -> Result<Vec<MemoryDisk>, AllocError>
    ensures { IfOk result (λ disks. length disks.items ≡ 5) }
{
    let plan = plan(alloc, call, failing)?;
    let mut disks = disks(alloc)?;
    if failing.store < 5 {
        disks[failing.store as usize].fail(plan);
    }
    Ok(disks)
}

// A run in which the store fails behind so many calls.
fn one_failing(
    alloc: Global,
    sums: &mut RunSums,
    call: u64,
    failing: Failing<'_>,
    seed: u64,
    extent: Extent,
) -> Result<(), AllocError> {
    let disks = failing_disks(alloc, call, failing)?;
    one_fresh(alloc, sums, call, disks, seed, extent)
}

fn all_failing(
    alloc: Global,
    seed: u64,
    calls: u64,
    failing: Failing<'_>,
    extent: Extent,
) -> Result<Vec<u8>, AllocError> {
    let brief = Extent {
        brief: true,
        ..extent
    };
    let mut sums = RunSums::new();
    for call in 0..calls {
        let seed = seed.wrapping_add(call);
        one_failing(alloc, &mut sums, call, failing, seed, extent)?;
        one_failing(alloc, &mut sums, call, failing, seed, brief)?;
    }
    sums.said(alloc)
}

/// `SEED STORE CALLS STEPS TEAR MORE`: for each number of calls up to that one a run in which the store fails behind so
/// many, for good or once; and the same run, ended with the step in which it fails.
pub(crate) fn failures(alloc: Global, row: &str, stops: bool) -> Result<Vec<u8>, AllocError> {
    let asked = numbers(row);
    if !are_failures(row) || asked[1] >= 5 {
        return not_understood(alloc);
    }
    let mut words = row.split(' ').skip(4);
    let failing = Failing {
        store: asked[1],
        stops,
        tear: words.next().unwrap_or(""),
    };
    let extent = Extent {
        steps: asked[3],
        brief: false,
        more: number(words.next()),
    };
    all_failing(alloc, asked[0], asked[2], failing, extent)
}

// A run over a disk-buffer of these bytes and so many entries, whose store stops behind so many calls.
fn one_older(
    alloc: Global,
    sums: &mut RunSums,
    call: u64,
    parts: &str,
    count: u32,
    seed: u64,
    extent: Extent,
) -> Result<(), AllocError> {
    let disks = disks_with(alloc, parts, Some(call))?;
    let begun = over_older(alloc, count)?;
    one(alloc, sums, call, disks, begun, seed, extent)
}

/// `SEED CALLS STEPS MORE COUNT | PARTS`: for each number of calls up to that one a run over a disk-buffer of an older
/// format, whose store stops behind so many. It has these bytes, which are those of so many entries: the first three of
/// an entry's text are its number, as is the moment it was sent.
pub(crate) fn older(alloc: Global, row: &str) -> Result<Vec<u8>, AllocError> {
    let (words, parts) = row.split_once(" | ").unwrap_or((row, ""));
    if !are_numbers(words, 5) || !are_parts(parts) {
        return not_understood(alloc);
    }
    let asked = numbers(words);
    let count = asked[4].min(9) as u32;
    let extent = Extent {
        steps: asked[2],
        brief: false,
        more: asked[3],
    };
    let mut sums = RunSums::new();
    for call in 0..asked[1] {
        let seed = asked[0].wrapping_add(call);
        one_older(alloc, &mut sums, call, parts, count, seed, extent)?;
    }
    sums.said(alloc)
}
