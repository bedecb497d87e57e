// What a disk-buffer would take.
ghost use Rattle.std.specs.Prelude.{◌≡◌, ◌<◌, ◌+◌, true, false, MatchOption};
ghost use Rattle.sg_msg.specs.Length.{encoded_len};
ghost use Rattle.sg_sinks.specs.Fitting.{space, has_space};
ghost use Rattle.sg_sinks.specs.Trials.{trial_of, refill_of, takes_in, tried};

use crate::Sink;
use sg_machine::BufferSetup;
use sg_msg::{Message, less_entry};

/// What a disk-buffer has taken if its store works throughout: its capacity, the bytes that are taken,
/// and whether an entry waits, so that it takes no other.
#[derive(Clone, Copy, Drop)]
pub struct Trial {
    pub capacity: u64,
    pub used: u64,
    pub waits: bool,
}

// What is left of the room behind a gate, a length, a closed gate and the message's entry.
fn room_behind(room: u64, message: &Message) -> Option<u64>
    ensures { MatchOption result (room < 6 + encoded_len message.now)
        (λ n. n + 6 + encoded_len message.now ≡ room) }
{
    less_entry(room.checked_sub(6)?, message)
}

/// The length of the message's entry, where it fits into a disk-buffer of which so much is taken.
pub(crate) fn length_within(capacity: u64, used: u64, message: &Message) -> Option<u64>
    ensures { MatchOption result (has_space capacity used (encoded_len message.now) ≡ false)
        (λ n. (n ≡ encoded_len message.now)
        × (has_space capacity used (encoded_len message.now) ≡ true)) }
{
    let room = capacity.checked_sub(used)?;
    let left = room_behind(room, message)?;
    Some(room - left - 6)
}

impl Sink {
    /// What its disk-buffer would take of further offers.
    pub fn trial(&self, buffer: BufferSetup) -> Trial
        ensures { result ≡ trial_of buffer self.now.seen }
    {
        Trial {
            capacity: buffer.capacity,
            used: self.used,
            waits: self.queue.len() != 0,
        }
    }

    /// What it would take of the entries that wait.
    pub fn refill(&self, buffer: BufferSetup) -> Trial
        ensures { result ≡ refill_of buffer self.now.seen }
    {
        Trial {
            capacity: buffer.capacity,
            used: self.used,
            waits: false,
        }
    }
}

impl Trial {
    /// Whether the message's entry is taken; where it isn't, it waits if it has flow-control.
    pub fn take(&mut self, flow: bool, message: &Message) -> bool
        ensures taken { result ≡ takes_in (encoded_len message.now) self.old }
        ensures after { self.new ≡ tried flow (encoded_len message.now) self.old }
    {
        if self.waits {
            return false;
        }
        match length_within(self.capacity, self.used, message) {
            Some(length) => {
                self.used += 5 + length;
                true
            }
            None => {
                self.waits = flow;
                false
            }
        }
    }
}
