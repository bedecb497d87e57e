// Entries that are settled, or moved into a disk-buffer.
ghost use Rattle.std.specs.Prelude.{◌≡◌, ◌≤◌, ◌<◌, ◌+◌, ◌-◌, length, slice_get, Some, None, true, false, MatchOption, if◌then◌else◌};
ghost use Rattle.std.specs.Option.{option_map_or};
ghost use Rattle.sg_msg.specs.Length.{encoded_len};
ghost use Rattle.sg_machine.specs.Turns.{settled_run, settle_acks, settle_turn, settle_turns, acks, moved_run, move_turn, can_move, move_turns};

use crate::running::{DestRun, Run, SourceRun};
use crate::sources::acknowledge;
use sg_list::Seq;
use sg_msg::{Message, less_entry};

// What is left of the room behind this many bytes and the message's entry.
fn less_spooled(room: u64, bytes: u64, message: &Message) -> Option<u64>
    ensures { MatchOption result (room < bytes + encoded_len message.now)
        (λ n. n + bytes + encoded_len message.now ≡ room) }
{
    less_entry(room.checked_sub(bytes)?, message)
}

/// The bytes of a disk-buffer that are taken once the message's entry is, where it fits.
pub(crate) fn used_with(capacity: u64, used: u64, message: &Message) -> Option<u64>
    ensures { MatchOption result (capacity < used + (5 + encoded_len message.now + 1))
        (λ n. (n ≡ used + (5 + encoded_len message.now))
        × (used + (5 + encoded_len message.now + 1) ≤ capacity)) }
{
    let room = less_spooled(capacity.checked_sub(used)?, 6, message)?;
    Some(capacity - room - 1)
}

// The record of the entry at that place waits for one acknowledgement less.
fn ack_at(sources: &mut Seq<SourceRun>, dest: &DestRun, place: usize)
    ensures { sources.new ≡ option_map_or (λ slip. acks slip sources.old)
        (slice_get dest.now.kept place) sources.old }
{
    if let Some(slip) = dest.kept.get(place) {
        acknowledge(sources, slip);
    }
}

fn less_used(used: u64, message: &Message) -> u64
    ensures { result ≡ used - (5 + encoded_len message.now) }
{
    match less_spooled(used, 5, message) {
        Some(left) => left,
        None => 0,
    }
}

fn settle_first(dest: &mut DestRun)
    ensures { dest.new ≡ settled_run dest.old }
{
    if dest.taken >= dest.kept.len() {
        return;
    }
    let slip = dest.kept.at(dest.taken);
    if dest.taken < dest.moved {
        dest.used = less_used(dest.used, &slip.message);
    }
    if !slip.flow {
        dest.unflowed = dest.unflowed.saturating_sub(1);
    }
    dest.taken += 1;
    dest.moved = dest.moved.max(dest.taken);
}

fn ack_settled(sources: &mut Seq<SourceRun>, dest: &DestRun)
    ensures { sources.new ≡ settle_acks sources.old dest.now }
{
    if dest.taken >= dest.moved {
        ack_at(sources, dest, dest.taken);
    }
}

fn settle_one(run: &mut Run, d: usize)
    ensures { run.new ≡ settle_turn d run.old }
{
    if d < run.dests.len() {
        ack_settled(&mut run.sources, run.dests.at(d));
        settle_first(run.dests.at_mut(d));
    }
}

/// The destination has taken so many of its first entries.
pub(crate) fn settle_some(run: &mut Run, d: usize, n: u32)
    ensures { run.new ≡ settle_turns n d run.old }
{
    for _k in 0..n {
        settle_one(run, d);
    }
}

fn move_first(dest: &mut DestRun, capacity: u64) -> bool
    ensures can { result ≡ can_move capacity dest.old }
    ensures moved { result ≡ true → dest.new ≡ moved_run dest.old }
{
    if dest.moved >= dest.kept.len() {
        return false;
    }
    let slip = dest.kept.at(dest.moved);
    let Some(used) = used_with(capacity, dest.used, &slip.message) else {
        return false;
    };
    dest.used = used;
    dest.moved += 1;
    true
}

fn move_one(run: &mut Run, d: usize, capacity: u64) -> bool
    ensures can { result ≡ option_map_or (can_move capacity) (slice_get run.old.dests d) false }
    ensures moved { result ≡ true → run.new ≡ move_turn d run.old }
{
    if d >= run.dests.len() {
        return false;
    }
    let dest = run.dests.at(d);
    ack_at(&mut run.sources, dest, dest.moved);
    move_first(run.dests.at_mut(d), capacity)
}

/// So many of the first entries that wait go into the disk-buffer; false where one of them doesn't fit.
pub(crate) fn move_some(run: &mut Run, d: usize, n: u32, capacity: u64) -> bool
    ensures { move_turns n capacity d run.old ≡ (if result then Some run.new else None) }
{
    for _k in 0..n {
        if !move_one(run, d, capacity) {
            return false;
        }
    }
    true
}
