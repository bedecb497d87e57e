// Records that come in, in order.
ghost use Rattle.std.specs.Prelude.{◌≡◌, ◌≤◌, ◌<◌, ◌+◌, ◌*◌, ◌^◌, Some, None, Ok, true, length, slice_get, if◌then◌else◌, IfOk};
ghost use Rattle.std.specs.List.{list_all};
ghost use Rattle.sg_machine.specs.Legal.{is_admissible};
ghost use Rattle.sg_machine.specs.Turns.{record_turn, record_turns, most_run};

use crate::running::Run;
use crate::sources::begin;
use crate::verdicts::{admit_offers, owed_by};
use crate::{Admission, Verdict};
use std::alloc::AllocError;

// Judges the offers of a record, keeps what they leave, and begins the record.
fn admit_record(
    run: &mut Run,
    i: u32,
    failing: &[u32],
    admission: &Admission,
    verdicts: &[Verdict],
) -> Result<bool, AllocError>
    requires there { i < length run.old.sources }
    requires few { length admission.now.offers ≤ 1024 }
    requires dropped { most_run run.old.dests + 1024 < 2 ^ 64 }
    ensures turn { IfOk result (λ ok. record_turn i failing.now run.old admission.now verdicts.now
        ≡ (if ok then Some run.new else None)) }
    ensures same { result ≡ Ok true → length run.new.sources ≡ length run.old.sources }
    ensures dropped { result ≡ Ok true → most_run run.new.dests ≤ most_run run.old.dests + 1024 }
{
    let place = i as usize;
    let number = run.sources.at(place).records.len() as u64;
    let offers = admission.offers.as_slice();
    if !admit_offers(
        &mut run.dests,
        failing,
        &mut run.failed,
        i,
        number,
        offers,
        verdicts,
    )? {
        return Ok(false);
    }
    let left = owed_by(offers, verdicts);
    begin(run.sources.at_mut(place), admission.end, left)?;
    Ok(true)
}

/// Judges the offers of records in order, keeps what they leave, and begins the records; false where
/// a verdict is wrong, or there are more or fewer than offers.
pub(crate) fn admit_records(
    run: &mut Run,
    i: u32,
    failing: &[u32],
    records: &[Admission],
    verdicts: &[Verdict],
) -> Result<bool, AllocError>
    requires there { i < length run.old.sources }
    requires few { list_all is_admissible records.now ≡ true }
    requires dropped { most_run run.old.dests + 1024 * length records.now < 2 ^ 64 }
    ensures turns { IfOk result (λ ok. record_turns i failing.now run.old records.now verdicts.now
        ≡ (if ok then Some run.new else None)) }
    ensures dropped { result ≡ Ok true
        → most_run run.new.dests ≤ most_run run.old.dests + 1024 * length records.now }
{
    let mut rest = verdicts;
    for admission in records {
        let count = admission.offers.len();
        if rest.len() < count {
            return Ok(false);
        }
        let (now, later) = rest.split_at(count);
        if !admit_record(run, i, failing, admission, now)? {
            return Ok(false);
        }
        rest = later;
    }
    Ok(rest.is_empty())
}
