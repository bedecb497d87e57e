// What becomes of offers, one after another.
ghost use Rattle.std.specs.Prelude.{◌≡◌, ◌≤◌, ◌<◌, ◌+◌, ◌^◌, ◌++◌, ℕ, Some, length, drop, slice_get, vec_capacity};
ghost use Rattle.sg_list.specs.Lists.{change};
ghost use Rattle.sg_counter.specs.Bringing.{AllMayEnter};
ghost use Rattle.sg_machine.specs.Verdicts.{claims_in, claims_of};
ghost use Rattle.sg_machine.specs.Turns.{owes_by, owing};
ghost use Rattle.sg_sinks.specs.States.{Sunk};
ghost use Rattle.sg_offers.specs.Payloads.{buffers_of, payloads_of};
ghost use Rattle.sg_offers.specs.Rooms.{seen_in, HaveRoom, IsBatchReady};
ghost use Rattle.sg_offers.specs.Answering.{fails_at, verdict_at, spent, spent_after, sinks_after, verdicts_from, begun_of, first_block, AreBlocks, AreClaimsWithin};

use crate::{Batch, BatchVerdicts, Payload};
use sg_list::Seq;
use sg_machine::{Admission, Verdict};
use sg_msg::Offer;
use sg_sinks::Sink;
use sg_spool::Block;
use sg_window::BegunRecord;
use std::collections::VecDeque;

// Whether an offer with this flow-control and verdict needs an acknowledgement.
fn owes(flow: bool, verdict: Verdict) -> bool
    ensures { result ≡ owes_by flow verdict }
{
    match verdict {
        Verdict::Queued | Verdict::Waits => flow,
        Verdict::Spooled | Verdict::DroppedFull | Verdict::DroppedDisk => false,
    }
}

// Whether the store of that destination fails.
fn is_failing(fails: &[bool], d: u32) -> bool
    ensures { result ≡ fails_at fails.now d }
{
    match fails.get(d as usize) {
        Some(flag) => *flag,
        None => false,
    }
}

// The block of the next offer.
fn next_block(payloads: &mut VecDeque<Payload>) -> Option<Block>
    ensures block { result ≡ first_block payloads.old.items }
    ensures rest { payloads.new.items ≡ drop 1 payloads.old.items }
{
    let Some(payload) = payloads.pop_front() else {
        return None;
    };
    let Payload {
        dest: _,
        block,
        taken: _,
    } = payload;
    block
}

// At its destination.
fn offer_at(
    sinks: &mut Seq<Sink>,
    inlet: u32,
    number: u64,
    fails: &[bool],
    offer: Offer,
    block: Option<Block>,
) -> Verdict
    requires there { offer.dest < length sinks.old }
    requires room { (sink : Sunk) → slice_get sinks.old offer.dest ≡ Some sink → 0 < sink.room }
    ensures verdict { result ≡ verdict_at fails.now (seen_in sinks.old) offer }
    ensures spent { sinks.new ≡ change sinks.old offer.dest
        (spent (fails_at fails.now offer.dest) inlet number offer block result) }
{
    let fail = is_failing(fails, offer.dest);
    let sink = sinks.at_mut(offer.dest as usize);
    sink.offer(inlet, number, offer, block, fail)
}

// Takes each offer of a record, which has that place in the batch. Answers the record with the
// acknowledgements that it needs.
fn offer_record(
    sinks: &mut Seq<Sink>,
    inlet: u32,
    next: u64,
    place: u64,
    fails: &[bool],
    admission: Admission,
    payloads: &mut VecDeque<Payload>,
    verdicts: &mut Vec<Verdict>,
) -> BegunRecord
    requires number { next + place < 2 ^ 64 }
    requires few { length admission.offers ≤ 1024 }
    requires within { AreClaimsWithin (length sinks.old)
        (claims_in place admission.end admission.offers) }
    requires room { HaveRoom sinks.old (claims_in place admission.end admission.offers) }
    requires blocks { AreBlocks inlet (buffers_of (seen_in sinks.old))
        (claims_in place admission.end admission.offers) payloads.old.items }
    requires capacity { length verdicts.old.items + length admission.offers
        ≤ vec_capacity verdicts.old }
    ensures spent { sinks.new ≡ spent_after fails.now inlet next sinks.old
        (claims_in place admission.end admission.offers) }
    ensures verdicts { verdicts.new.items ≡ verdicts.old.items
        ++ verdicts_from fails.now inlet next (seen_in sinks.old)
        (claims_in place admission.end admission.offers) }
    ensures end { result.end ≡ admission.end }
    ensures left { result.left ≡ owing admission.offers (verdicts_from fails.now inlet next
        (seen_in sinks.old) (claims_in place admission.end admission.offers)) }
    ensures payloads { payloads.new.items ≡ drop (length admission.offers) payloads.old.items }
    ensures capacity { vec_capacity verdicts.new ≡ vec_capacity verdicts.old }
{
    let number = next + place;
    let Admission { end, offers } = admission;
    let mut rest = VecDeque::from(offers.into_vec());
    let mut left = 0;
    while let Some(offer) = rest.pop_front() {
        let flow = offer.flow;
        let block = next_block(payloads);
        let verdict = offer_at(sinks, inlet, number, fails, offer, block);
        if owes(flow, verdict) {
            left += 1;
        }
        verdicts.push_reserved(verdict);
    }
    BegunRecord { end, left }
}

/// Keeps what the offers of the records leave, one after another, where the next record of the inlet
/// has the number `next`. Takes no memory.
pub fn offer_all(
    sinks: &mut Seq<Sink>,
    inlet: u32,
    next: u64,
    records: Vec<Admission>,
    batch: Batch,
) -> BatchVerdicts
    requires enter { AllMayEnter (length sinks.old) records.items }
    requires number { next + length records.items < 2 ^ 64 }
    requires payloads { batch.payloads.items
        ≡ payloads_of inlet (seen_in sinks.old) (claims_of records.items) }
    requires ready { IsBatchReady records.items sinks.old batch.answers }
    ensures sinks { seen_in sinks.new
        ≡ sinks_after batch.fails.items inlet next (seen_in sinks.old) (claims_of records.items) }
    ensures verdicts { result.verdicts.items
        ≡ verdicts_from batch.fails.items inlet next (seen_in sinks.old) (claims_of records.items) }
    ensures begun { result.begun.items ≡ begun_of records.items
        (verdicts_from batch.fails.items inlet next (seen_in sinks.old) (claims_of records.items)) }
{
    let Batch {
        payloads,
        fails,
        mut answers,
    } = batch;
    let mut payloads = VecDeque::from(payloads);
    let mut rest = VecDeque::from(records);
    let mut place = 0;
    while let Some(admission) = rest.pop_front() {
        let begun = offer_record(
            sinks,
            inlet,
            next,
            place,
            &fails,
            admission,
            &mut payloads,
            &mut answers.verdicts,
        );
        answers.begun.push_reserved(begun);
        place += 1;
    }
    answers
}
