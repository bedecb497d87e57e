// A window of records, each with the acknowledgements that it still needs.
ghost use Rattle.std.specs.Prelude.{◌≡◌, ◌≤◌, ◌<◌, ◌+◌, ◌-◌, ◌^◌, [], ◌∷◌, ◌++◌, ℕ, List, IfOk, length};
ghost use Rattle.std.specs.VecDeque.{deque_len, deque_capacity};
ghost use Rattle.sg_list.specs.Lists.{change};
ghost use Rattle.sg_window.specs.Window.{window_of, first_waiting, left_at, after_begin, after_ack, outstanding, mark_from, WindowStandsFor, one_less};
ghost use Rattle.sg_window.specs.declared.tracker.BegunRecord.{BegunRecord};

use std::alloc::{AllocError, Global};
use std::collections::VecDeque;
use std::marker::Model;

/// A record that was begun.
#[derive(Clone, Copy, PartialEq, Eq, Drop)]
pub struct BegunRecord {
    /// The place in its input behind it.
    pub end: u64,
    /// The acknowledgements that it still needs.
    pub left: u32,
}

/// Records begun in order, and those of them that are outstanding: all behind the longest prefix of
/// acknowledged ones. At most the window's number are outstanding at a time.
#[derive(Drop)]
pub struct Tracker {
    window: u32,
    begun: u64,
    mark: u64,
    ring: VecDeque<BegunRecord>,
}

impl Model for Tracker {
    ghost use Rattle.std.specs.Prelude.{◌≡◌, ◌≤◌, ◌<◌, length, ◌^◌};
    ghost use Rattle.std.specs.VecDeque.{deque_len, deque_capacity};
    ghost use Rattle.sg_window.specs.Window.{Window, outstanding};

    ghost Value = { Window };

    ghost view = { λ t. record {
      limit = t.window;
      begun = t.begun;
      mark = t.mark;
      waiting = t.ring.items;
    } };

    ghost invariant = { λ t. (deque_len t.ring ≤ t.window) × (t.window ≤ deque_capacity t.ring)
        × (deque_len t.ring ≤ t.begun) × (outstanding t.ring.items ≡ t.ring.items) };
}

impl Tracker {
    /// A window of no records, whose mark is `from`. Takes the memory for all records that may be
    /// outstanding, so that no other call takes any.
    pub fn new(alloc: Global, window: u32, from: u64) -> Result<Tracker, AllocError>
        requires { 0 < window }
        ensures { IfOk result (λ t. t ≡ window_of window 0 from []) }
    {
        let ring = VecDeque::with_capacity(alloc, window as usize)?;
        Ok(Tracker {
            window,
            begun: 0,
            mark: from,
            ring,
        })
    }

    /// How many records may be begun now.
    pub fn credit(&self) -> u64
        ensures value { result ≡ self.now.limit - length self.now.waiting }
        ensures within { length self.now.waiting ≤ self.now.limit }
    {
        (self.window as usize - self.ring.len()) as u64
    }

    /// How many records were begun, which is the next one's number.
    pub fn begun(&self) -> u64
        ensures { result ≡ self.now.begun }
    {
        self.begun
    }

    /// The end of the last record of the longest acknowledged prefix; where that is empty, the place
    /// that the window was made with.
    pub fn mark(&self) -> u64
        ensures { result ≡ self.now.mark }
    {
        self.mark
    }

    /// Begins a record that ends there and needs so many acknowledgements, and answers its number,
    /// counted from 0. In constant time.
    pub fn begin(&mut self, end: u64, left: u32) -> u64
        requires credit { length self.old.waiting < self.old.limit }
        requires few { self.old.begun < 2 ^ 63 }
        ensures number { result ≡ self.old.begun }
        ensures after { self.new ≡ after_begin self.old end left }
        ensures stands { (from : ℕ) (records : List BegunRecord)
            → WindowStandsFor self.old from records
            → WindowStandsFor self.new from (records ++ record { end = end; left = left } ∷ []) }
    {
        let number = self.begun;
        self.ring.push_back_reserved(BegunRecord { end, left });
        trim(&mut self.mark, &mut self.ring);
        self.begun += 1;
        number
    }

    /// Takes one acknowledgement of the record of that number, which is outstanding and needs one.
    /// In constant time for each record that is outstanding no more.
    pub fn ack(&mut self, number: u64)
        requires outstanding { first_waiting self.old ≤ number }
        requires owed { 0 < left_at self.old.waiting (number - first_waiting self.old) }
        ensures after { self.new ≡ after_ack self.old number }
        ensures stands { (from : ℕ) (records : List BegunRecord)
            → WindowStandsFor self.old from records
            → WindowStandsFor self.new from (change records number one_less) }
    {
        let place = (number - (self.begun - self.ring.len() as u64)) as usize;
        self.ring[place].left -= 1;
        trim(&mut self.mark, &mut self.ring);
    }
}

// Takes the acknowledged records off the front.
fn trim(mark: &mut u64, ring: &mut VecDeque<BegunRecord>)
    ensures mark { mark.new ≡ mark_from mark.old ring.old.items }
    ensures ring { ring.new.items ≡ outstanding ring.old.items }
    ensures len { deque_len ring.new ≤ deque_len ring.old }
    ensures capacity { deque_capacity ring.new ≡ deque_capacity ring.old }
{
    while let Some(first) = ring.front().copied() {
        if first.left != 0 {
            break;
        }
        *mark = first.end;
        ring.pop_front();
    }
}

// A tracker may be handed to another thread.
fn is_send<T: Send>() {}

fn tracker_is_send() {
    is_send::<Tracker>();
}
