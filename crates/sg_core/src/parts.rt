// The destinations and sources of a core, one entry after another.
ghost use Rattle.std.specs.Prelude.{◌≡◌, ◌≤◌, ◌<◌, ◌+◌, ℕ, Some, map, length, slice_get};
ghost use Rattle.sg_list.specs.Lists.{change};
ghost use Rattle.sg_offers.specs.Rooms.{seen_in};
ghost use Rattle.sg_sinks.specs.States.{SinkState, with_broken};
ghost use Rattle.sg_standing.specs.Sources.{acks_all};
ghost use Rattle.sg_core.specs.Parts.{HasWaiting, CanAckAll, entries_at, settled_waiting_some, moved_some, CanMove};

use sg_list::Seq;
use sg_machine::BufferSetup;
use sg_sinks::Sink;
use sg_standing::{Source, acknowledge};

/// The store of the destination's disk-buffer has failed.
pub fn break_at(sinks: &mut Seq<Sink>, d: u32)
    requires { d < length sinks.old }
    ensures { seen_in sinks.new ≡ change (seen_in sinks.old) d with_broken }
{
    let sink = sinks.at_mut(d as usize);
    sink.break_store();
}

/// Settles the first n entries that wait, and acknowledges each.
pub fn settle_waiting(sinks: &mut Seq<Sink>, sources: &mut Seq<Source>, d: u32, n: usize)
    requires waits { HasWaiting (slice_get (seen_in sinks.old) d) n }
    requires acks { CanAckAll sources.old (entries_at (seen_in sinks.old) d n) }
    ensures sinks { seen_in sinks.new ≡ change (seen_in sinks.old) d (settled_waiting_some n) }
    ensures sources { sources.new ≡ acks_all sources.old (entries_at (seen_in sinks.old) d n) }
{
    for k in 0..n {
        let entry = sinks.at_mut(d as usize).settle_waiting();
        acknowledge(sources, &entry);
    }
}

/// Moves the first n entries that wait to the disk, where they stand already, and acknowledges each.
pub fn move_waiting(
    sinks: &mut Seq<Sink>,
    sources: &mut Seq<Source>,
    d: u32,
    buffer: BufferSetup,
    n: usize,
)
    requires moves { CanMove buffer (slice_get (seen_in sinks.old) d) n }
    requires acks { CanAckAll sources.old (entries_at (seen_in sinks.old) d n) }
    ensures sinks { seen_in sinks.new ≡ change (seen_in sinks.old) d (moved_some n) }
    ensures sources { sources.new ≡ acks_all sources.old (entries_at (seen_in sinks.old) d n) }
{
    for k in 0..n {
        let entry = sinks.at_mut(d as usize).move_waiting(buffer);
        acknowledge(sources, &entry);
    }
}
