// What acts need.
ghost use Rattle.std.specs.Prelude.{◌≡◌, ◌+◌, nat_le};
ghost use Rattle.std.specs.List.{list_all, list_any};
ghost use Rattle.sg_machine.specs.Legal.{is_this, works, at_most_this, is_admissible};
ghost use Rattle.sg_machine.specs.Needs.{store_number, is_runs_store, fails_one_run, may_admit_run, may_settle_run, may_store_run, may_rewind_run};

use crate::Admission;
use crate::running::{DestRun, Run, SourceRun};
use crate::verdicts::lists;

pub(crate) fn store_of(dest: &DestRun) -> Option<u32>
    ensures { result ≡ store_number dest.now }
{
    match dest.setup.buffer {
        Some(buffer) => Some(buffer.store),
        None => None,
    }
}

fn has_number(s: u32, store: Option<u32>) -> bool
    ensures { result ≡ is_this s store }
{
    match store {
        Some(t) => t == s,
        None => false,
    }
}

pub(crate) fn store_works(failed: &[u32], store: Option<u32>) -> bool
    ensures { result ≡ works failed.now store }
{
    match store {
        Some(s) => !lists(failed, s),
        None => false,
    }
}

fn is_inlets_store(sources: &[SourceRun], s: u32) -> bool
    ensures { result ≡ list_any (λ source. is_this s source.setup.store) sources.now }
{
    sources
        .iter()
        .any(|source| has_number(s, source.setup.store))
}

fn is_dests_store(dests: &[DestRun], s: u32) -> bool
    ensures { result ≡ list_any (λ dest. is_this s (store_number dest)) dests.now }
{
    dests.iter().any(|dest| has_number(s, store_of(dest)))
}

fn is_store(run: &Run, s: u32) -> bool
    ensures { result ≡ is_runs_store run.now s }
{
    is_inlets_store(run.sources.as_slice(), s) || is_dests_store(run.dests.as_slice(), s)
}

pub(crate) fn fails_only(failed: &[u32], store: Option<u32>, new: &[u32]) -> bool
    ensures { result ≡ at_most_this failed.now store new.now }
{
    match new {
        [] => true,
        [s] => store_works(failed, store) && has_number(*s, store),
        _ => false,
    }
}

pub(crate) fn fails_one(run: &Run, new: &[u32]) -> bool
    ensures { result ≡ fails_one_run run.now new.now }
{
    match new {
        [] => true,
        [s] => is_store(run, *s) && !lists(run.failed.as_slice(), *s),
        _ => false,
    }
}

fn is_open(admission: &Admission) -> bool
    ensures { result ≡ is_admissible admission.now }
{
    admission.end < 1 << 63 && admission.offers.len() <= 1024
}

fn are_open(records: &[Admission]) -> bool
    ensures { result ≡ list_all is_admissible records.now }
{
    records.iter().all(|admission| is_open(admission))
}

fn has_credit(outstanding: usize, count: usize, window: usize) -> bool
    ensures { result ≡ nat_le (outstanding + count) window }
{
    count <= window && outstanding <= window - count
}

/// 1 to 1000 records, for which the window has room.
pub(crate) fn may_admit(source: &SourceRun, records: &[Admission]) -> bool
    ensures { result ≡ may_admit_run records.now source.now }
{
    let count = records.len();
    let outstanding = source.records.len().saturating_sub(source.acked);
    0 < count
        && count <= 1000
        && has_credit(outstanding, count, source.setup.window as usize)
        && are_open(records)
}

/// So many entries are left.
pub(crate) fn may_settle(n: u32, dest: &DestRun) -> bool
    ensures { result ≡ may_settle_run n dest.now }
{
    0 < n && n as usize <= dest.kept.len().saturating_sub(dest.taken)
}

/// The store works, and the position is the mark and not the stored one.
pub(crate) fn may_store(failed: &[u32], w: u64, source: &SourceRun) -> bool
    ensures { result ≡ may_store_run failed.now w source.now }
{
    store_works(failed, source.setup.store) && w == source.mark && w != source.stored
}

/// The store works, no record was admitted, and the stored position isn't 0.
pub(crate) fn may_rewind(failed: &[u32], source: &SourceRun) -> bool
    ensures { result ≡ may_rewind_run failed.now source.now }
{
    store_works(failed, source.setup.store) && source.records.is_empty() && source.stored != 0
}
