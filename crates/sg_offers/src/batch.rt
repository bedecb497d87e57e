// A batch of records of one inlet.
ghost use Rattle.std.specs.Prelude.{◌≡◌, ◌≤◌, ℕ, [], false, IfOk, length, map, vec_capacity};
ghost use Rattle.sg_counter.specs.Bringing.{AllMayEnter};
ghost use Rattle.sg_machine.specs.Verdicts.{claims_of};
ghost use Rattle.sg_offers.specs.Payloads.{buffers_of, payloads_of, AllSpellable, AreSmall, ArePayloadsSpelled};
ghost use Rattle.sg_offers.specs.Rooms.{seen_in, IsBatchReady};

use crate::payloads::payloads_for;
use crate::room::room_for;
use sg_device::NoMemory;
use sg_list::Seq;
use sg_machine::{Admission, Verdict};
use sg_sinks::Sink;
use sg_spool::Block;
use sg_window::BegunRecord;
use std::alloc::{AllocError, Global};

/// The entry of an offer: the number of its destination, its block where it may go to a disk-buffer,
/// and whether the disk-buffer takes it, if its store works throughout.
#[derive(Drop)]
pub struct Payload {
    pub dest: u32,
    pub block: Option<Block>,
    pub taken: bool,
}

/// What becomes of the records: the verdicts of all their offers, in order, and each record with the
/// acknowledgements that it needs.
#[derive(Drop)]
pub struct BatchVerdicts {
    pub verdicts: Vec<Verdict>,
    pub begun: Vec<BegunRecord>,
}

/// All that a batch takes memory for.
#[derive(Drop)]
pub struct Batch {
    /// Those of all offers, in order.
    pub payloads: Vec<Payload>,
    /// Of each destination whether the store of its disk-buffer fails within the call.
    pub fails: Vec<bool>,
    pub answers: BatchVerdicts,
}

fn answers_for(alloc: Global, offers: usize, records: usize) -> Result<BatchVerdicts, AllocError>
    ensures no_verdict { IfOk result (λ answers. answers.verdicts.items ≡ []) }
    ensures none_begun { IfOk result (λ answers. answers.begun.items ≡ []) }
    ensures verdicts { IfOk result (λ answers. offers ≤ vec_capacity answers.verdicts) }
    ensures begun { IfOk result (λ answers. records ≤ vec_capacity answers.begun) }
{
    let verdicts = Vec::with_capacity(alloc, offers)?;
    let begun = Vec::with_capacity(alloc, records)?;
    Ok(BatchVerdicts { verdicts, begun })
}

/// Takes all memory that the records need: room where their offers go, payloads and answers. No store
/// fails yet. An error leaves what is seen of each destination.
pub fn prepare(
    alloc: Global,
    sinks: &mut Seq<Sink>,
    inlet: u32,
    records: &[Admission],
) -> Result<Batch, NoMemory>
    requires { AllMayEnter (length sinks.old) records.now }
    ensures same { seen_in sinks.new ≡ seen_in sinks.old }
    ensures payloads { IfOk result (λ batch. batch.payloads.items
        ≡ payloads_of inlet (seen_in sinks.old) (claims_of records.now)) }
    ensures spelled { AreSmall (buffers_of (seen_in sinks.old))
        → IfOk result (λ batch. ArePayloadsSpelled inlet (claims_of records.now)
        batch.payloads.items) }
    ensures kept { IfOk result
        (λ _. AllSpellable inlet (buffers_of (seen_in sinks.old)) (claims_of records.now)) }
    ensures fails { IfOk result (λ batch. batch.fails.items ≡ map (λ _. false) sinks.old) }
    ensures ready { IfOk result (λ batch. IsBatchReady records.now sinks.new batch.answers) }
{
    let payloads = payloads_for(alloc, sinks.as_slice(), inlet, records)?;
    let fails = vec![in alloc; false; sinks.len()]?;
    let answers = answers_for(alloc, payloads.len(), records.len())?;
    room_for(alloc, sinks, &payloads)?;
    Ok(Batch {
        payloads,
        fails,
        answers,
    })
}
