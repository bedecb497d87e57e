// Room at the destinations.
ghost use Rattle.std.specs.Prelude.{◌≡◌, ◌≤◌, ◌<◌, ℕ, Some, IfOk, OnOk, length, slice_get, slice_index};
ghost use Rattle.sg_sinks.specs.States.{Sunk};
ghost use Rattle.sg_offers.specs.Rooms.{seen_in, counted_to, AreTo};

use crate::Payload;
use sg_list::Seq;
use sg_sinks::Sink;
use std::alloc::{AllocError, Global};

// How many of the payloads go to each destination.
fn counts_of(alloc: Global, dests: usize, payloads: &[Payload]) -> Result<Vec<usize>, AllocError>
    requires { AreTo dests payloads.now }
    ensures len { IfOk result (λ counts. length counts.items ≡ dests) }
    ensures count { IfOk result
        (λ counts. (d : ℕ) → d < dests → slice_index counts.items d ≡ counted_to d payloads.now) }
{
    let mut counts = vec![in alloc; 0usize; dests]?;
    for payload in payloads {
        counts[payload.dest as usize] += 1;
    }
    Ok(counts)
}

// Makes room for so many offers at each destination.
fn reserve_all(sinks: &mut Seq<Sink>, counts: &[usize]) -> Result<(), AllocError>
    requires { length counts.now ≡ length sinks.old }
    ensures same { seen_in sinks.new ≡ seen_in sinks.old }
    ensures room { OnOk result ((d : ℕ) (sink : Sunk) → slice_get sinks.new d ≡ Some sink
        → slice_index counts.now d ≤ sink.room) }
{
    for d in 0..counts.len() {
        sinks.at_mut(d).reserve(counts[d])?;
    }
    Ok(())
}

/// Makes room for all payloads where they go.
pub(crate) fn room_for(
    alloc: Global,
    sinks: &mut Seq<Sink>,
    payloads: &[Payload],
) -> Result<(), AllocError>
    requires { AreTo (length sinks.old) payloads.now }
    ensures same { seen_in sinks.new ≡ seen_in sinks.old }
    ensures room { OnOk result ((d : ℕ) (sink : Sunk) → slice_get sinks.new d ≡ Some sink
        → counted_to d payloads.now ≤ sink.room) }
{
    let counts = counts_of(alloc, sinks.len(), payloads)?;
    reserve_all(sinks, &counts)
}
