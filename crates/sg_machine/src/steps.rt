// Events on that which a replay keeps. Each answers whether it is legal; where it isn't, what is kept
// is of no use any more.
ghost use Rattle.std.specs.Prelude.{◌≡◌, ◌<◌, ◌+◌, ◌^◌, ◌&&◌, Some, None, if◌then◌else◌, IfOk, OnOk, ◌++◌, slice_get, length};
ghost use Rattle.sg_list.specs.Lists.{passes_at};
ghost use Rattle.sg_machine.specs.Legal.{at_most_this, is_nil};
ghost use Rattle.sg_machine.specs.Needs.{store_number, may_admit_run, may_settle_run, may_store_run, may_rewind_run};
ghost use Rattle.sg_machine.specs.Turns.{settle_turns, most_run};
ghost use Rattle.sg_machine.specs.Steps.{with_failed, admit_step, settle_step, refill_at, refill_step, store_step, rewind_step, look_step, act_step};

use crate::admits::admit_records;
use crate::legal::{
    fails_one, fails_only, may_admit, may_rewind, may_settle, may_store, store_of, store_works,
};
use crate::moves::{move_some, settle_some};
use crate::running::Run;
use crate::{Act, Admission, Event, Verdict};
use std::alloc::AllocError;

fn is_admit_open(run: &Run, i: u32, records: &[Admission]) -> bool
    ensures { result ≡ passes_at run.now.sources i (may_admit_run records.now) }
{
    match run.sources.get(i as usize) {
        Some(source) => may_admit(source, records),
        None => false,
    }
}

fn admit(
    run: &mut Run,
    i: u32,
    records: &[Admission],
    verdicts: &[Verdict],
    failed: &[u32],
) -> Result<bool, AllocError>
    requires { most_run run.old.dests + 1024000 < 2 ^ 64 }
    ensures { IfOk result (λ ok. admit_step i records.now verdicts.now failed.now run.old
        ≡ (if ok then Some run.new else None)) }
{
    if !is_admit_open(run, i, records) {
        return Ok(false);
    }
    if failed.len() > run.dests.len() {
        return Ok(false);
    }
    let mut expected = run.failed.copy()?;
    expected.extend_from_slice(failed)?;
    if !admit_records(run, i, failed, records, verdicts)? {
        return Ok(false);
    }
    Ok(expected.as_slice() == run.failed.as_slice())
}

fn is_settle_legal(run: &Run, d: u32, n: u32, failed: &[u32]) -> bool
    ensures { result ≡ passes_at run.now.dests d (λ dest. may_settle_run n dest
        && at_most_this run.now.failed (store_number dest) failed.now) }
{
    match run.dests.get(d as usize) {
        Some(dest) => {
            may_settle(n, dest) && fails_only(run.failed.as_slice(), store_of(dest), failed)
        }
        None => false,
    }
}

fn settle(run: &mut Run, d: u32, n: u32, failed: &[u32]) -> Result<bool, AllocError>
    ensures { IfOk result
        (λ ok. settle_step d n failed.now run.old ≡ (if ok then Some run.new else None)) }
{
    if !is_settle_legal(run, d, n, failed) {
        return Ok(false);
    }
    settle_some(run, d as usize, n);
    run.failed.extend_from_slice(failed)?;
    Ok(true)
}

fn refill(run: &mut Run, d: u32, n: u32, failed: &[u32]) -> bool
    ensures { refill_step d n failed.now run.old ≡ (if result then Some run.new else None) }
{
    let capacity = match run.dests.get(d as usize) {
        Some(dest) => {
            if !store_works(run.failed.as_slice(), store_of(dest)) {
                return false;
            }
            match dest.setup.buffer {
                Some(buffer) => buffer.capacity,
                None => return false,
            }
        }
        None => return false,
    };
    0 < n && n <= 1000 && failed.is_empty() && move_some(run, d as usize, n, capacity)
}

fn is_store_legal(run: &Run, i: u32, w: u64, failed: &[u32]) -> bool
    ensures { result
        ≡ (passes_at run.now.sources i (may_store_run run.now.failed w) && is_nil failed.now) }
{
    match run.sources.get(i as usize) {
        Some(source) => may_store(run.failed.as_slice(), w, source) && failed.is_empty(),
        None => false,
    }
}

fn store(run: &mut Run, i: u32, w: u64, failed: &[u32]) -> bool
    ensures { store_step i w failed.now run.old ≡ (if result then Some run.new else None) }
{
    if !is_store_legal(run, i, w, failed) {
        return false;
    }
    run.sources.at_mut(i as usize).stored = w;
    true
}

fn is_rewind_legal(run: &Run, i: u32, failed: &[u32]) -> bool
    ensures { result
        ≡ (passes_at run.now.sources i (may_rewind_run run.now.failed) && is_nil failed.now) }
{
    match run.sources.get(i as usize) {
        Some(source) => may_rewind(run.failed.as_slice(), source) && failed.is_empty(),
        None => false,
    }
}

fn rewind(run: &mut Run, i: u32, failed: &[u32]) -> bool
    ensures { rewind_step i failed.now run.old ≡ (if result then Some run.new else None) }
{
    if !is_rewind_legal(run, i, failed) {
        return false;
    }
    let source = run.sources.at_mut(i as usize);
    source.stored = 0;
    source.mark = 0;
    true
}

fn look(run: &mut Run, failed: &[u32]) -> Result<bool, AllocError>
    ensures { IfOk result
        (λ ok. look_step failed.now run.old ≡ (if ok then Some run.new else None)) }
{
    if !fails_one(run, failed) {
        return Ok(false);
    }
    run.failed.extend_from_slice(failed)?;
    Ok(true)
}

/// Whether the event is legal; where it is, what is kept is that of the state after it.
pub(crate) fn step(run: &mut Run, event: &Event) -> Result<bool, AllocError>
    requires { most_run run.old.dests + 1024000 < 2 ^ 64 }
    ensures { IfOk result (λ ok. act_step event.now.act event.now.failed run.old
        ≡ (if ok then Some run.new else None)) }
{
    let failed = event.failed.as_slice();
    match &event.act {
        Act::Admit {
            inlet,
            records,
            verdicts,
        } => admit(run, *inlet, records.as_slice(), verdicts.as_slice(), failed),
        Act::Settle(d, n) => settle(run, *d, *n, failed),
        Act::Refill(d, n) => Ok(refill(run, *d, *n, failed)),
        Act::Store(i, w) => Ok(store(run, *i, *w, failed)),
        Act::Rewind(i) => Ok(rewind(run, *i, failed)),
        Act::Look => look(run, failed),
    }
}
