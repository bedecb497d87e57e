// The payloads of offers.
ghost use Rattle.std.specs.Prelude.{◌≡◌, ◌<◌, ◌+◌, ◌^◌, ◌++◌, [], ◌∷◌, ℕ, true, IfOk, OnOk, IsSome, length, map};
ghost use Rattle.sg_list.specs.Lists.{change};
ghost use Rattle.sg_codec.specs.Spelling.{IsSpellable};
ghost use Rattle.sg_counter.specs.Bringing.{MayEnter, AllMayEnter};
ghost use Rattle.sg_machine.specs.Verdicts.{claims_in, claims_of};
ghost use Rattle.sg_sinks.specs.Blocks.{kept_of_offer};
ghost use Rattle.sg_offers.specs.Payloads.{buffers_of, trial_in, takes_offer, tried_offer, trials_then, trials_after, payload_of, payloads_from, payloads_of, AllSpellable};
ghost use Rattle.sg_offers.specs.Rooms.{seen_in};

use crate::Payload;
use sg_device::NoMemory;
use sg_machine::Admission;
use sg_msg::Offer;
use sg_sinks::{Sink, Trial, offer_block};
use std::alloc::{AllocError, Global};

// The trial of a disk-buffer whose store works.
fn trial_of(sink: &Sink) -> Option<Trial>
    ensures { result ≡ trial_in sink.now.seen }
{
    let buffer = sink.setup().buffer?;
    if sink.is_broken() {
        return None;
    }
    Some(sink.trial(buffer))
}

fn trials_of(alloc: Global, sinks: &[Sink]) -> Result<Vec<Option<Trial>>, AllocError>
    ensures { IfOk result (λ trials. trials.items ≡ map trial_in (seen_in sinks.now)) }
{
    let mut trials = Vec::with_capacity(alloc, sinks.len())?;
    for sink in sinks {
        trials.push(trial_of(sink))?;
    }
    Ok(trials)
}

fn try_offer(trial: &mut Option<Trial>, offer: &Offer) -> bool
    ensures taken { result ≡ takes_offer offer.now trial.old }
    ensures after { trial.new ≡ tried_offer offer.now trial.old }
{
    match trial {
        Some(trial) => trial.take(offer.flow, &offer.message),
        None => false,
    }
}

// The payload of an offer of the record with that end, which is tried then.
fn payload_for(
    alloc: Global,
    sinks: &[Sink],
    trials: &mut [Option<Trial>],
    inlet: u32,
    end: u64,
    offer: &Offer,
) -> Result<Payload, NoMemory>
    requires sink { offer.now.dest < length sinks.now }
    requires trial { offer.now.dest < length trials.old }
    requires end { end < 2 ^ 63 }
    ensures payload { IfOk result (λ payload. payload
        ≡ payload_of inlet end (buffers_of (seen_in sinks.now)) trials.old offer.now) }
    ensures kept { IfOk result
        (λ payload. IsSome payload.block → IsSpellable (kept_of_offer inlet end offer.now)) }
    ensures trials { OnOk result (trials.new ≡ trials_then trials.old offer.now) }
{
    let d = offer.dest as usize;
    let block = offer_block(alloc, sinks[d].setup().buffer, inlet, end, offer)?;
    let taken = try_offer(&mut trials[d], offer);
    Ok(Payload {
        dest: offer.dest,
        block,
        taken,
    })
}

fn push_payload(payloads: &mut Vec<Payload>, payload: Payload) -> Result<(), AllocError>
    ensures { OnOk result (payloads.new.items ≡ payloads.old.items ++ payload ∷ []) }
{
    payloads.push(payload)?;
    Ok(())
}

// The payloads of a record's offers, behind those of the records before.
fn record_payloads(
    alloc: Global,
    sinks: &[Sink],
    trials: &mut [Option<Trial>],
    inlet: u32,
    admission: &Admission,
    payloads: &mut Vec<Payload>,
) -> Result<(), NoMemory>
    requires enter { MayEnter (length sinks.now) admission.now }
    requires trials { length trials.old ≡ length sinks.now }
    ensures payloads { (place : ℕ) → OnOk result (payloads.new.items
        ≡ payloads.old.items ++ payloads_from inlet (buffers_of (seen_in sinks.now)) trials.old
        (claims_in place admission.now.end admission.now.offers)) }
    ensures kept { (place : ℕ) → OnOk result (AllSpellable inlet (buffers_of (seen_in sinks.now))
        (claims_in place admission.now.end admission.now.offers)) }
    ensures trials { (place : ℕ) → OnOk result (trials.new
        ≡ trials_after trials.old (claims_in place admission.now.end admission.now.offers)) }
{
    for offer in admission.offers.as_slice() {
        let payload = payload_for(alloc, sinks, trials, inlet, admission.end, offer)?;
        push_payload(payloads, payload)?;
    }
    Ok(())
}

/// The payloads of all offers, in order.
pub(crate) fn payloads_for(
    alloc: Global,
    sinks: &[Sink],
    inlet: u32,
    records: &[Admission],
) -> Result<Vec<Payload>, NoMemory>
    requires { AllMayEnter (length sinks.now) records.now }
    ensures payloads { IfOk result (λ payloads. payloads.items
        ≡ payloads_of inlet (seen_in sinks.now) (claims_of records.now)) }
    ensures kept { IfOk result
        (λ _. AllSpellable inlet (buffers_of (seen_in sinks.now)) (claims_of records.now)) }
{
    let mut trials = trials_of(alloc, sinks)?;
    let mut payloads = Vec::with_capacity(alloc, records.len())?;
    for admission in records {
        record_payloads(alloc, sinks, &mut trials, inlet, admission, &mut payloads)?;
    }
    Ok(payloads)
}
