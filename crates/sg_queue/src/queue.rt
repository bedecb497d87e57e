// The entries that wait for a destination.
ghost use Rattle.std.specs.Prelude.{◌≡◌, ◌≤◌, ◌<◌, ◌+◌, ◌↔◌, [], ◌∷◌, ◌++◌, IsTrue, IsOk, OnOk, length, option_copied, option_to_list, slice_get};
ghost use Rattle.sg_queue.specs.Waiting.{unflowed_of};

use crate::Entry;
use std::alloc::{AllocError, Global};
use std::collections::VecDeque;
use std::marker::Model;

/// The entries that wait for a destination, first in first out.
#[derive(Drop)]
pub struct Queue {
    entries: VecDeque<Entry>,
    unflowed: u64,
}

impl Model for Queue {
    ghost use Rattle.std.specs.Prelude.{◌≡◌, ◌-◌};
    ghost use Rattle.std.specs.VecDeque.{deque_len, deque_capacity};
    ghost use Rattle.sg_queue.specs.Waiting.{Waiting, unflowed_of};

    ghost Value = { Waiting };

    ghost view = { λ q. record {
      entries = q.entries.items;
      spare = deque_capacity q.entries - deque_len q.entries;
    } };

    ghost invariant = { λ q. q.unflowed ≡ unflowed_of q.entries.items };
}

impl Queue {
    /// An empty queue, which takes no memory yet.
    pub fn new(alloc: Global) -> Queue
        ensures { result.entries ≡ [] }
    {
        Queue {
            entries: VecDeque::new(alloc),
            unflowed: 0,
        }
    }

    /// Makes room for `n` more entries at least. An error leaves the entries as they were, and no
    /// less room.
    pub fn reserve(&mut self, n: usize) -> Result<(), AllocError>
        ensures entries { self.new.entries ≡ self.old.entries }
        ensures room { OnOk result (n ≤ self.new.spare) }
        ensures spare { self.old.spare ≤ self.new.spare }
        ensures enough { n ≤ self.old.spare → IsOk result }
    {
        self.entries.reserve(n)
    }

    /// Puts the entry at the end.
    pub fn push(&mut self, entry: Entry)
        requires { 0 < self.old.spare }
        ensures entries { self.new.entries ≡ self.old.entries ++ entry ∷ [] }
        ensures spare { self.new.spare + 1 ≡ self.old.spare }
    {
        if !entry.flow {
            self.unflowed += 1;
        }
        self.entries.push_back_reserved(entry);
    }

    /// The first entry.
    pub fn front(&self) -> Option<&Entry>
        ensures { option_copied result ≡ slice_get self.now.entries 0 }
    {
        self.entries.front()
    }

    /// The entry at a place among those that wait, counted from 0.
    pub fn get(&self, k: usize) -> Option<&Entry>
        ensures { option_copied result ≡ slice_get self.now.entries k }
    {
        self.entries.get(k)
    }

    /// Takes the first entry out. Its room is left for another.
    pub fn pop(&mut self) -> Option<Entry>
        ensures first { result ≡ slice_get self.old.entries 0 }
        ensures rest { self.old.entries ≡ option_to_list result ++ self.new.entries }
        ensures spare { self.new.spare ≡ self.old.spare + length (option_to_list result) }
    {
        let entry = self.entries.pop_front()?;
        if !entry.flow {
            self.unflowed -= 1;
        }
        Some(entry)
    }

    /// The number of entries without flow-control.
    pub fn unflowed(&self) -> u64
        ensures { result ≡ unflowed_of self.now.entries }
    {
        self.unflowed
    }

    /// The number of entries.
    pub fn len(&self) -> usize
        ensures { result ≡ length self.now.entries }
    {
        self.entries.len()
    }

    pub fn is_empty(&self) -> bool
        ensures { IsTrue result ↔ (self.now.entries ≡ []) }
    {
        self.entries.is_empty()
    }
}

// A queue may be handed to another thread.
fn is_send<T: Send>() {}

fn queue_is_send() {
    is_send::<Queue>();
}
