// Calls of a core as words, and its replies.
ghost use Rattle.std.specs.Prelude.{◌≡◌, ◌≤◌, ◌<◌, ◌+◌, IfOk, IfSome, OnOk, length};
ghost use Rattle.sg_counter.specs.Bringing.{AllMayEnter};
ghost use Rattle.test_hub.specs.Cores.{IsTriedSetup, MayAsk};
ghost use Rattle.sg_msg.specs.Offers.{AllWithin};

use crate::cores::{add_offer, add_record};
use sg_counter::{CoreCall, CoreReply, Counter, Settler};
use sg_list::Seq;
use sg_machine::Admission;
use sg_msg::Offer;
use std::alloc::{AllocError, Global};
use std::sync::Wait;
use test_replies::{
    ReplyText, Teller, number, put_admitted, put_front, put_number, put_refilled, put_settled,
    put_stored, told,
};

// Sources 0 and 1 have the position stores 0 and 1. Destination 0 is a queue in memory, destination 1 has a
// disk-buffer in store 2. How calls are written stands at `is_call` of test_replies. An admit answers the verdicts
// Q, S, W, F and D, or for lack of credit - and how many records came back; a front the first's place and their
// number, or e where none is left; a settle k, or - where that isn't the front; a refill how many moved, - where
// none waits, o where the first doesn't fit. A store that has failed answers x.

// The offer of a word as d0f100, behind its d.
fn offer_word(alloc: Global, offers: &mut Vec<Offer>, word: &str) -> Result<(), AllocError>
    requires few { length offers.old.items < 1024 }
    requires within { AllWithin 2 offers.old.items }
    ensures within { OnOk result (AllWithin 2 offers.new.items) }
    ensures count { OnOk result (length offers.new.items ≤ length offers.old.items + 1) }
{
    let flow = word.contains('f');
    let (dest, size) = word
        .split_once(if flow { 'f' } else { 'n' })
        .unwrap_or(("", ""));
    let dest = number(Some(dest));
    if dest >= 2 {
        return Ok(());
    }
    let size = number(Some(size)) as usize;
    if size > 1 << 30 {
        return Ok(());
    }
    add_offer(alloc, offers, dest, size, flow)
}

// The offers of a record, the words behind its end.
fn offers(alloc: Global, text: &str) -> Result<Vec<Offer>, AllocError>
    ensures within { IfOk result (λ offers. AllWithin 2 offers.items) }
    ensures few { IfOk result (λ offers. length offers.items ≤ 1024) }
{
    let mut offers = Vec::new(alloc);
    for word in text.split_whitespace() {
        if let Some(word) = word.strip_prefix('d') {
            if offers.len() < 1024 {
                offer_word(alloc, &mut offers, word)?;
            }
        }
    }
    Ok(offers)
}

// The records of an admit: each begins with an r and its end.
fn records(alloc: Global, text: &str) -> Result<Vec<Admission>, AllocError>
    ensures { IfOk result (λ records. AllMayEnter 2 records.items) }
{
    let mut records = Vec::new(alloc);
    for part in text.split('r').skip(1) {
        let (end, rest) = part.split_once(' ').unwrap_or((part, ""));
        let offers = offers(alloc, rest)?;
        add_record(&mut records, u64::from(number(Some(end))), offers)?;
    }
    Ok(records)
}

fn admit(alloc: Global, inlet: u32, text: &str) -> Result<Option<CoreCall>, AllocError>
    requires inlet { inlet < 2 }
    ensures { IfOk result (λ call. IfSome call MayAsk) }
{
    let records = records(alloc, text)?;
    if records.is_empty() {
        return Ok(None);
    }
    if records.len() > 1000 {
        return Ok(None);
    }
    Ok(Some(CoreCall::Admit {
        inlet,
        records: Seq::new(records),
    }))
}

/// The call of these words, where they are one.
pub(crate) fn read_call(alloc: Global, text: &str) -> Result<Option<CoreCall>, AllocError>
    ensures { IfOk result (λ call. IfSome call MayAsk) }
{
    let (first, rest) = text.split_once(' ').unwrap_or((text, ""));
    let mut words = first.get(1..).unwrap_or("").split(',');
    let which = number(words.next());
    let place = number(words.next());
    let n = number(words.next());
    if which >= 2 {
        return Ok(None);
    }
    match first.chars().next() {
        Some('a') => admit(alloc, which, rest),
        Some('f') if place > 0 && place <= 1000 => Ok(Some(CoreCall::Front {
            dest: which,
            most: place,
        })),
        Some('s') if n > 0 => Ok(Some(CoreCall::Settle {
            dest: which,
            place: u64::from(place),
            n,
            count: 0,
        })),
        Some('m') => Ok(Some(CoreCall::Refill(which))),
        Some('p') => Ok(Some(CoreCall::Store(which))),
        Some('c') => Ok(Some(CoreCall::Credit(which))),
        _ => Ok(None),
    }
}

/// Makes the call.
#[tactic(auto, using(crate::proofs::TestLemmas::batch_of))]
pub(crate) fn ask<C: Settler<Teller>, T: Wait>(
    rt: &T,
    alloc: Global,
    counter: &mut C,
    call: CoreCall,
) -> CoreReply
    requires left { 0 < C.left counter.old }
    requires tried { IsTriedSetup (C.setup counter.old) }
    requires may { MayAsk call }
    ensures step { C.step counter.old call result counter.new }
    ensures setup { C.setup counter.new ≡ C.setup counter.old }
    ensures left { C.left counter.old ≤ C.left counter.new + 1 }
{
    match call {
        CoreCall::Credit(i) => CoreReply::Credit(counter.credit(rt, i)),
        CoreCall::Admit { inlet, records } => {
            match counter.admit(rt, alloc, inlet, records.into_vec()) {
                Ok(verdicts) => CoreReply::Admitted(Ok(Seq::new(verdicts))),
                Err(refused) => CoreReply::Admitted(Err(refused)),
            }
        }
        CoreCall::Front { dest, most } => CoreReply::Front(counter.front(rt, alloc, dest, most)),
        CoreCall::Settle {
            dest,
            place,
            n,
            count,
        } => CoreReply::Settled(counter.settle(rt, dest, place, n, told(count))),
        CoreCall::Refill(d) => CoreReply::Refilled(counter.refill(rt, d)),
        CoreCall::Store(i) => CoreReply::Stored(counter.store(rt, i)),
    }
}

/// Says a reply.
pub(crate) fn put_reply(out: &mut ReplyText, reply: CoreReply) {
    match reply {
        CoreReply::Credit(credit) => put_number(out, credit),
        CoreReply::Admitted(Ok(verdicts)) => put_admitted(out, Ok(verdicts.into_vec())),
        CoreReply::Admitted(Err(refused)) => put_admitted(out, Err(refused)),
        CoreReply::Front(front) => put_front(out, front),
        CoreReply::Settled(settled) => put_settled(out, settled),
        CoreReply::Refilled(refill) => put_refilled(out, refill),
        CoreReply::Stored(stored) => put_stored(out, stored),
    }
}
