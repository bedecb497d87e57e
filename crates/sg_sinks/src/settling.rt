// Entries that are settled, or go to the disk.
ghost use Rattle.std.specs.Prelude.{◌≡◌, ◌<◌, ◌≤◌, ◌+◌, ◌^◌, Some, IsSome, length, option_copied, slice_get, drop};
ghost use Rattle.std.specs.VecDeque.{deque_len, deque_capacity};
ghost use Rattle.sg_sinks.specs.Fitting.{space};
ghost use Rattle.sg_sinks.specs.Moving.{moved_first, block_at, FitsFirst};
ghost use Rattle.sg_sinks.specs.Settling.{settled_spooled, settled_waiting};

use crate::Sink;
use crate::trial::length_within;
use sg_machine::BufferSetup;
use sg_queue::Entry;
use sg_spool::Block;
use std::collections::VecDeque;

// Takes the first n off. Answers what they took.
fn take_off(lengths: &mut VecDeque<u64>, n: usize) -> u64
    requires enough { n ≤ length lengths.old.items }
    requires small { space lengths.old.items < 2 ^ 64 }
    ensures rest { lengths.new.items ≡ drop n lengths.old.items }
    ensures size { result + space lengths.new.items ≡ space lengths.old.items }
    ensures len { deque_len lengths.new + n ≡ deque_len lengths.old }
    ensures capacity { deque_capacity lengths.new ≡ deque_capacity lengths.old }
{
    let mut size = 0;
    for _k in 0..n {
        let Some(length) = lengths.pop_front() else {
            unreachable!()
        };
        size += 5 + length;
    }
    size
}

impl Sink {
    /// The first n entries on its disk are settled. Answers what they took of it: 5 bytes and its length
    /// for each.
    pub fn settle_spooled(&mut self, n: usize) -> u64
        requires enough { n ≤ length self.old.seen.lengths }
        ensures seen { self.new.seen ≡ settled_spooled n self.old.seen }
        ensures size { result + space self.new.seen.lengths ≡ space self.old.seen.lengths }
        ensures room { self.new.room ≡ self.old.room }
    {
        let size = take_off(&mut self.lengths, n);
        self.used -= size;
        self.taken += n as u64;
        size
    }

    /// The first entry that waits is settled.
    pub fn settle_waiting(&mut self) -> Entry
        requires waits { IsSome (slice_get self.old.seen.entries 0) }
        ensures entry { slice_get self.old.seen.entries 0 ≡ Some result }
        ensures seen { self.new.seen ≡ settled_waiting self.old.seen }
        ensures room { self.new.room ≡ self.old.room }
    {
        self.blocks.pop_front();
        self.taken += 1;
        match self.queue.pop() {
            Some(entry) => entry,
            None => unreachable!(),
        }
    }

    /// The first entry that waits goes to the disk, where it fits. Takes no memory.
    #[tactic(auto, using(crate::proofs::SpaceLemmas::space_push))]
    pub fn move_waiting(&mut self, buffer: BufferSetup) -> Entry
        requires buffer { self.old.seen.setup.buffer ≡ Some buffer }
        requires waits { IsSome (slice_get self.old.seen.entries 0) }
        requires fits { FitsFirst buffer.capacity self.old.seen }
        ensures entry { slice_get self.old.seen.entries 0 ≡ Some result }
        ensures seen { self.new.seen ≡ moved_first self.old.seen }
        ensures room { self.new.room ≡ self.old.room }
    {
        self.blocks.pop_front();
        let entry = match self.queue.pop() {
            Some(entry) => entry,
            None => unreachable!(),
        };
        let length = match length_within(buffer.capacity, self.used, &entry.message) {
            Some(length) => length,
            None => unreachable!(),
        };
        self.lengths.push_back_reserved(length);
        self.used += 5 + length;
        entry
    }

    /// The block of the entry at a place among those that wait, where it has one.
    pub fn block(&self, k: usize) -> Option<&Block>
        ensures { option_copied result ≡ block_at self.now.seen.blocks k }
    {
        self.blocks.get(k)?.as_ref()
    }
}
