// A destination of the core.
ghost use Rattle.std.specs.Prelude.{◌≡◌, length, slice_get, option_copied};
ghost use Rattle.sg_sinks.specs.Fitting.{space};
ghost use Rattle.sg_sinks.specs.States.{fresh_sink, with_broken};

use sg_machine::DestSetup;
use sg_queue::{Entry, Queue};
use sg_spool::Block;
use std::alloc::Global;
use std::collections::VecDeque;
use std::marker::Model;

/// A destination: its setup, how many entries it has taken, the lengths of those that stand on its disk,
/// in bytes of format 2, those that wait in memory, each with its block, whether the store of its
/// disk-buffer has failed, and the numbers of dropped offers by cause.
pub struct Sink {
    pub(crate) setup: DestSetup,
    pub(crate) taken: u64,
    pub(crate) lengths: VecDeque<u64>,
    // What they take of the disk-buffer.
    pub(crate) used: u64,
    pub(crate) queue: Queue,
    pub(crate) blocks: VecDeque<Option<Block>>,
    pub(crate) broken: bool,
    pub(crate) dropped_full: u64,
    pub(crate) dropped_disk: u64,
    // For so many offers more there is memory.
    pub(crate) room: usize,
}

impl Drop for Sink {
    fn drop(self) {
        let Sink {
            setup: _setup,
            taken: _taken,
            lengths: _lengths,
            used: _used,
            queue: _queue,
            blocks: _blocks,
            broken: _broken,
            dropped_full: _dropped_full,
            dropped_disk: _dropped_disk,
            room: _room,
        } = self;
    }
}

impl Model for Sink {
    ghost use Rattle.sg_sinks.specs.States.{Sunk};
    ghost use Rattle.std.specs.Prelude.{◌+◌};
    ghost use Rattle.sg_sinks.specs.Roomy.{IsRoomy, Ring};
    ghost use Rattle.std.specs.VecDeque.{deque_len, deque_capacity};

    ghost Value = { Sunk };

    ghost view = { λ s. record {
      seen = record {
        setup = s.setup;
        taken = s.taken;
        lengths = s.lengths.items;
        entries = s.queue.entries;
        blocks = s.blocks.items;
        broken = s.broken;
        dropped_full = s.dropped_full;
        dropped_disk = s.dropped_disk;
      };
      room = s.room;
    } };

    ghost invariant = { λ s. IsRoomy s.taken (s.dropped_full + s.dropped_disk) s.lengths.items
        (record { len = deque_len s.lengths; capacity = deque_capacity s.lengths }) s.used s.queue
        (record { len = deque_len s.blocks; capacity = deque_capacity s.blocks }) s.room };
}

impl Sink {
    /// A destination of no entries, without room.
    pub fn new(alloc: Global, setup: DestSetup) -> Sink
        ensures seen { result.seen ≡ fresh_sink setup }
        ensures room { result.room ≡ 0 }
    {
        Sink {
            setup,
            taken: 0,
            lengths: VecDeque::new(alloc),
            used: 0,
            queue: Queue::new(alloc),
            blocks: VecDeque::new(alloc),
            broken: false,
            dropped_full: 0,
            dropped_disk: 0,
            room: 0,
        }
    }

    /// The setup.
    pub fn setup(&self) -> DestSetup
        ensures { result ≡ self.now.seen.setup }
    {
        self.setup
    }

    /// How many entries it has taken.
    pub fn taken(&self) -> u64
        ensures { result ≡ self.now.seen.taken }
    {
        self.taken
    }

    /// How many entries stand on its disk.
    pub fn spooled(&self) -> usize
        ensures { result ≡ length self.now.seen.lengths }
    {
        self.lengths.len()
    }

    /// What they take of the disk-buffer: 5 bytes and its length for each.
    pub fn used(&self) -> u64
        ensures { result ≡ space self.now.seen.lengths }
    {
        self.used
    }

    /// How many offers it has dropped, for lack of room and for a failed store.
    pub fn dropped(&self) -> (u64, u64)
        ensures { result ≡ (self.now.seen.dropped_full, self.now.seen.dropped_disk) }
    {
        (self.dropped_full, self.dropped_disk)
    }

    /// How many entries wait in memory.
    pub fn waiting(&self) -> usize
        ensures { result ≡ length self.now.seen.entries }
    {
        self.queue.len()
    }

    /// The entry at a place among those that wait, counted from 0.
    pub fn get(&self, k: usize) -> Option<&Entry>
        ensures { option_copied result ≡ slice_get self.now.seen.entries k }
    {
        self.queue.get(k)
    }

    /// Whether the store of its disk-buffer has failed.
    pub fn is_broken(&self) -> bool
        ensures { result ≡ self.now.seen.broken }
    {
        self.broken
    }

    /// The store of its disk-buffer has failed.
    pub fn break_store(&mut self)
        ensures seen { self.new.seen ≡ with_broken self.old.seen }
        ensures room { self.new.room ≡ self.old.room }
    {
        self.broken = true;
    }
}
