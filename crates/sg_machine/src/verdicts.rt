// What becomes of offers.
ghost use Rattle.std.specs.Prelude.{◌≡◌, ◌≤◌, ◌<◌, ◌+◌, ◌^◌, Some, None, Ok, true, length, slice_get, if◌then◌else◌, IfOk, OnOk};
ghost use Rattle.sg_list.specs.Lists.{change};
ghost use Rattle.sg_machine.specs.Verdicts.{is_listed, same_verdict};
ghost use Rattle.sg_machine.specs.declared.event.Verdict.TheVariants.{Spooled};
ghost use Rattle.sg_machine.specs.Turns.{has_space, queue_turn, disk_turn, fails_turn, judged_turn, judged_run, kept_run, spooled_run, offered_run, offered_runs, judged_runs, owes_by, owing, most_run, IsSpooledRight};

use crate::moves::used_with;
use crate::running::{DestRun, Slip};
use crate::{BufferSetup, Verdict};
use sg_list::Seq;
use sg_msg::{Message, Offer};
use std::alloc::AllocError;

pub(crate) fn lists(numbers: &[u32], n: u32) -> bool
    ensures { result ≡ is_listed n numbers.now }
{
    numbers.iter().any(|m| *m == n)
}

fn fits(capacity: u64, dest: &DestRun, message: &Message) -> bool
    ensures { result ≡ has_space capacity dest.now message.now }
{
    used_with(capacity, dest.used, message).is_some()
}

fn by_queue(dest: &DestRun, offer: &Offer) -> Verdict
    ensures { result ≡ queue_turn dest.now offer.now }
{
    if offer.flow || dest.unflowed < dest.setup.fifo as usize {
        Verdict::Queued
    } else {
        Verdict::DroppedFull
    }
}

fn by_disk(buffer: &BufferSetup, dest: &DestRun, broken: bool, offer: &Offer) -> Verdict
    ensures { result ≡ disk_turn buffer.now dest.now broken offer.now }
{
    if broken {
        if offer.flow {
            Verdict::Waits
        } else {
            Verdict::DroppedDisk
        }
    } else if dest.moved < dest.kept.len() || !fits(buffer.capacity, dest, &offer.message) {
        if offer.flow {
            Verdict::Waits
        } else {
            Verdict::DroppedFull
        }
    } else {
        Verdict::Spooled
    }
}

fn are_same(a: Verdict, b: Verdict) -> bool
    ensures { result ≡ same_verdict a b }
{
    match (a, b) {
        (Verdict::Queued, Verdict::Queued) => true,
        (Verdict::Spooled, Verdict::Spooled) => true,
        (Verdict::Waits, Verdict::Waits) => true,
        (Verdict::DroppedFull, Verdict::DroppedFull) => true,
        (Verdict::DroppedDisk, Verdict::DroppedDisk) => true,
        _ => false,
    }
}

// The store fails at the offer.
fn breaks(
    buffer: &BufferSetup,
    dest: &DestRun,
    failing: &[u32],
    failed: &[u32],
    offer: &Offer,
) -> bool
    ensures { result ≡ fails_turn buffer.now dest.now failing.now failed.now offer.now }
{
    lists(failing, buffer.store)
        && are_same(
            Verdict::Spooled,
            by_disk(buffer, dest, lists(failed, buffer.store), offer),
        )
}

// Whether the verdict is right, with the stores that have failed then.
fn judge(
    dest: &DestRun,
    failing: &[u32],
    failed: &mut Seq<u32>,
    offer: &Offer,
    verdict: Verdict,
) -> Result<bool, AllocError>
    ensures { IfOk result (
        λ ok. judged_turn dest.now.setup.buffer dest.now failing.now failed.old offer.now verdict
        ≡ (if ok then Some failed.new else None)) }
{
    match dest.setup.buffer {
        None => Ok(are_same(verdict, by_queue(dest, offer))),
        Some(buffer) => {
            if breaks(&buffer, dest, failing, failed.as_slice(), offer) {
                if !are_same(verdict, by_disk(&buffer, dest, true, offer)) {
                    return Ok(false);
                }
                failed.push(buffer.store)?;
                return Ok(true);
            }
            let broken = lists(failed.as_slice(), buffer.store);
            Ok(are_same(verdict, by_disk(&buffer, dest, broken, offer)))
        }
    }
}

// A count of entries that would pass the end of a number is lack of memory.
fn one_more(count: usize) -> Result<usize, AllocError>
    ensures { IfOk result (λ n. n ≡ count + 1) }
{
    match count.checked_add(1) {
        Some(more) => Ok(more),
        None => Err(AllocError),
    }
}

fn more_unflowed(unflowed: usize, flow: bool) -> Result<usize, AllocError>
    ensures { IfOk result (λ n. n ≡ (if flow then unflowed else unflowed + 1)) }
{
    if flow {
        return Ok(unflowed);
    }
    one_more(unflowed)
}

fn keep_slip(dest: &mut DestRun, inlet: u32, number: u64, offer: &Offer) -> Result<(), AllocError>
    ensures { OnOk result (dest.new ≡ kept_run inlet number offer.now dest.old) }
{
    let unflowed = more_unflowed(dest.unflowed, offer.flow)?;
    dest.kept.push(Slip {
        inlet,
        number: Some(number),
        flow: offer.flow,
        message: offer.message.share()?,
    })?;
    dest.unflowed = unflowed;
    Ok(())
}

fn spool_slip(
    dest: &mut DestRun,
    inlet: u32,
    number: u64,
    offer: &Offer,
    capacity: u64,
) -> Result<(), AllocError>
    requires { has_space capacity dest.old offer.now.message ≡ true }
    ensures { OnOk result (dest.new ≡ spooled_run inlet number offer.now dest.old) }
{
    let used = match used_with(capacity, dest.used, &offer.message) {
        Some(used) => used,
        None => unreachable!(),
    };
    let moved = one_more(dest.moved)?;
    keep_slip(dest, inlet, number, offer)?;
    dest.moved = moved;
    dest.used = used;
    Ok(())
}

// Keeps the message of an offer whose verdict is right, or counts it as dropped.
fn take_one(
    dest: &mut DestRun,
    inlet: u32,
    number: u64,
    offer: &Offer,
    verdict: Verdict,
) -> Result<(), AllocError>
    requires full { dest.old.dropped_full + 1 < 2 ^ 64 }
    requires disk { dest.old.dropped_disk + 1 < 2 ^ 64 }
    requires space { IsSpooledRight dest.old offer.now verdict }
    ensures { OnOk result (dest.new ≡ offered_run inlet number offer.now verdict dest.old) }
{
    match verdict {
        Verdict::Queued => keep_slip(dest, inlet, number, offer)?,
        Verdict::Spooled => {
            let capacity = match dest.setup.buffer {
                Some(buffer) => buffer.capacity,
                None => unreachable!(),
            };
            spool_slip(dest, inlet, number, offer, capacity)?;
        }
        Verdict::Waits => keep_slip(dest, inlet, number, offer)?,
        Verdict::DroppedFull => dest.dropped_full += 1,
        Verdict::DroppedDisk => dest.dropped_disk += 1,
    }
    Ok(())
}

// Judges one offer and keeps what it leaves; false where its verdict is wrong.
fn admit_one(
    dests: &mut Seq<DestRun>,
    failing: &[u32],
    failed: &mut Seq<u32>,
    inlet: u32,
    number: u64,
    offer: &Offer,
    verdict: Verdict,
) -> Result<bool, AllocError>
    requires { most_run dests.old + 1 < 2 ^ 64 }
    ensures judged { IfOk result (λ ok. judged_run (slice_get dests.old offer.now.dest) failing.now
        failed.old offer.now verdict ≡ (if ok then Some failed.new else None)) }
    ensures kept { result ≡ Ok true
        → dests.new ≡ change dests.old offer.now.dest (offered_run inlet number offer.now verdict) }
    ensures dropped { result ≡ Ok true → most_run dests.new ≤ most_run dests.old + 1 }
{
    let place = offer.dest as usize;
    if place >= dests.len() || !judge(dests.at(place), failing, failed, offer, verdict)? {
        return Ok(false);
    }
    take_one(dests.at_mut(place), inlet, number, offer, verdict)?;
    Ok(true)
}

/// Judges the offers of a record in order and keeps what they leave; false where a verdict is wrong,
/// or there are more or fewer than offers.
pub(crate) fn admit_offers(
    dests: &mut Seq<DestRun>,
    failing: &[u32],
    failed: &mut Seq<u32>,
    inlet: u32,
    number: u64,
    offers: &[Offer],
    verdicts: &[Verdict],
) -> Result<bool, AllocError>
    requires { most_run dests.old + length offers.now < 2 ^ 64 }
    ensures judged { IfOk result (
        λ ok. judged_runs inlet number failing.now dests.old failed.old offers.now verdicts.now
        ≡ (if ok then Some failed.new else None)) }
    ensures kept { result ≡ Ok true
        → dests.new ≡ offered_runs inlet number dests.old offers.now verdicts.now }
    ensures dropped { result ≡ Ok true
        → most_run dests.new ≤ most_run dests.old + length offers.now }
{
    if offers.len() != verdicts.len() {
        return Ok(false);
    }
    for k in 0..offers.len() {
        if !admit_one(
            dests,
            failing,
            failed,
            inlet,
            number,
            &offers[k],
            verdicts[k],
        )? {
            return Ok(false);
        }
    }
    Ok(true)
}

fn owes(flow: bool, verdict: Verdict) -> bool
    ensures { result ≡ owes_by flow verdict }
{
    match verdict {
        Verdict::Queued | Verdict::Waits => flow,
        Verdict::Spooled | Verdict::DroppedFull | Verdict::DroppedDisk => false,
    }
}

/// How many acknowledgements a record with these offers and verdicts needs.
pub(crate) fn owed_by(offers: &[Offer], verdicts: &[Verdict]) -> u32
    requires same { length offers.now ≡ length verdicts.now }
    requires few { length offers.now ≤ 1024 }
    ensures { result ≡ owing offers.now verdicts.now }
{
    let mut count = 0;
    for k in 0..offers.len() {
        if owes(offers[k].flow, verdicts[k]) {
            count += 1;
        }
    }
    count
}
