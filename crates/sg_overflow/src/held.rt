// The frames that are held: those in the store, and then those in memory.
ghost use Rattle.std.specs.Prelude.{◌≡◌, ◌↔◌, ◌≤◌, ◌+◌, ◌-◌, ◌^◌, min, [], ◌∷◌, ◌++◌, length, take, true, false, IsTrue, OnOk, OnErr, IfOk, IfErr, IfSome};
ghost use Rattle.sg_device.specs.Disk.{content, WhereTold};
ghost use Rattle.sg_device.specs.Outlet.{OutletState};
ghost use Rattle.sg_overflow.specs.Held.{HasHeldRoom, StandsStill, ReadsHeld, Shows, HeldStop, DropsHeld, SpillStop, SettlesHeld, SettleStop};
ghost use Rattle.sg_overflow.specs.Line.{MovesLine};
ghost use Rattle.sg_overflow.specs.View.{held_of, held_count, IsHeldTold, IsStored, IsWithinMemory};

use crate::reading::read_first;
use crate::staging::write_first;
use crate::{Limits, Memory, Stop};
use sg_device::{Disk, Frames, NoMemory};
use sg_spool::{RewriteRefusal, Spool};
use std::alloc::Global;
use std::marker::Model;

/// How many frames are forwarded in one send.
pub(crate) const BATCH: u64 = 100;

/// Frames, the oldest first: those in the store, and then those in memory.
pub struct Held<D: Disk> {
    spool: Spool<D>,
    memory: Memory,
    limits: Limits,
    // The frames in the store.
    stored: u64,
    // Whether the store's list may have others in front of them.
    behind: bool,
    failed: bool,
}

impl<D: Disk> Model for Held<D> {
    ghost use Rattle.std.specs.Prelude.{◌≡◌};
    ghost use Rattle.sg_overflow.specs.View.{Held as View, IsHeldSound};

    ghost Value = { View D };

    ghost view = { λ h. record {
      store = h.spool;
      memory = h.memory;
      limits = h.limits;
      stored = h.stored;
      behind = h.behind;
    } };

    ghost invariant = { λ h. IsHeldSound D.state h.failed (record {
      store = h.spool;
      memory = h.memory;
      limits = h.limits;
      stored = h.stored;
      behind = h.behind;
    }) };
}

impl<D: Disk> Held<D> {
    // The list of an open store, and nothing in memory.
    pub(crate) fn new(alloc: Global, spool: Spool<D>, limits: Limits) -> Held<D>
        requires open { spool.closed ≡ false }
        requires unstaged { spool.rows.staged ≡ 0 }
        requires limit { spool.capacity ≡ limits.capacity }
        requires small { limits.capacity ≤ 2 ^ 30 }
        requires list { WhereTold (content (D.state spool.disk))
            (λ bytes. IsStored D.state spool spool.rows.count) }
        ensures is { result ≡ record {
          store = spool;
          memory = [];
          limits = limits;
          stored = spool.rows.count;
          behind = false;
        } }
        ensures few { result.stored ≤ 2 ^ 64 - 1 }
    {
        let stored = spool.count();
        Held {
            spool,
            memory: Memory::new(alloc),
            limits,
            stored,
            behind: false,
            failed: false,
        }
    }

    pub(crate) fn into_disk(self) -> D
        ensures { result ≡ self.store.disk }
    {
        let Held {
            spool,
            memory: _memory,
            limits: _,
            stored: _,
            behind: _,
            failed: _,
        } = self;
        spool.into_disk()
    }

    /// The number of frames.
    pub(crate) fn count(&self) -> u64
        ensures count { result ≡ min (held_count self.now) (2 ^ 64 - 1) }
        ensures told { IsHeldTold D.state self.now }
    {
        self.stored.saturating_add(self.memory.len() as u64)
    }

    /// Whether nothing is held.
    pub(crate) fn is_empty(&self) -> bool
        ensures empty { result ≡ true → held_count self.now ≡ 0 }
        ensures some { result ≡ false → 1 ≤ held_count self.now }
        ensures none { result ≡ true → IfSome (held_of D.state self.now) (λ frames. frames ≡ []) }
        ensures still { StandsStill D.state self.now }
        ensures told { IsHeldTold D.state self.now }
    {
        self.stored == 0 && self.memory.len() == 0
    }

    /// Whether the store has failed.
    pub(crate) fn failed(&self) -> bool
        ensures { result ≡ self.now.store.closed }
    {
        self.failed
    }

    /// Whether frames that take so many bytes as entries are within the capacity, beside those held.
    pub(crate) fn has_room(&self, size: u64) -> bool
        ensures { IsTrue result ↔ HasHeldRoom self.now size }
    {
        let Some(room) = self.limits.capacity.checked_sub(self.spool.live()) else {
            return false;
        };
        let Some(left) = room.checked_sub(self.memory.size()) else {
            return false;
        };
        size < left
    }

    /// Puts a frame for which there is room behind the others, in memory.
    pub(crate) fn push(&mut self, alloc: Global, frame: &[u8]) -> Result<(), NoMemory>
        requires { HasHeldRoom self.old (length frame.now + 6) }
        ensures ok { OnOk result (self.new
            ≡ record self.old { memory = self.old.memory ++ frame.now ∷ [] }) }
        ensures err { OnErr result (self.new ≡ self.old) }
    {
        self.memory.push(alloc, frame)
    }

    /// The first frames: of the store where it has some, else of memory.
    pub(crate) fn first(&mut self, alloc: Global) -> Result<Frames, Stop>
        ensures reads { ReadsHeld D.state self.old self.new }
        ensures shows { IfOk result (Shows D.state self.old self.new) }
        ensures cause { IfErr result (HeldStop self.new.store.closed) }
    {
        let stored = self.stored;
        if stored == 0 {
            return match self.memory.first(alloc, BATCH as usize) {
                Ok(frames) => Ok(frames),
                Err(_) => Err(Stop::NoMemory),
            };
        }
        if self.failed {
            return Err(Stop::Store);
        }
        let most = stored.min(BATCH);
        match read_first(alloc, &mut self.spool, most) {
            Ok(frames) => Ok(frames),
            Err(RewriteRefusal::DiskFault) => {
                self.failed = true;
                Err(Stop::Store)
            }
            Err(RewriteRefusal::NoMemory) => Err(Stop::NoMemory),
        }
    }

    /// Takes the first frames out, as many of those shown by `first`, and tells whether the store works.
    /// Where it fails they are out all the same, though its list may have them still.
    pub(crate) fn remove_first(&mut self, n: u64) -> bool
        requires some { n ≤ held_count self.old }
        requires stored { 1 ≤ self.old.stored → n ≤ self.old.stored }
        requires works { 1 ≤ self.old.stored → self.old.store.closed ≡ false }
        ensures drops { DropsHeld D.state n self.old self.new }
        ensures cause { result ≡ false → self.new.store.closed ≡ true }
    {
        if self.stored == 0 {
            self.memory.remove_first(n as usize);
            return true;
        }
        if n == 0 {
            return true;
        }
        self.stored -= n;
        match self.spool.advance(n) {
            Ok(()) => true,
            Err(_) => {
                self.behind = true;
                self.failed = true;
                false
            }
        }
    }

    /// Moves the oldest frames of memory to the store, so that at most `kept` are left there. All are put
    /// into its list by one commit. Where the store fails all stay in memory; without memory those that
    /// it has no block for do.
    pub(crate) fn spill(&mut self, alloc: Global, kept: usize) -> Stop
        ensures moves { (inner : OutletState)
            → MovesLine D.state [] 0 0 inner inner self.old self.new }
        ensures cause { SpillStop kept (length self.new.memory) self.new.store.closed result }
    {
        let excess = self.memory.len().saturating_sub(kept);
        if excess == 0 {
            return Stop::Open;
        }
        if self.failed {
            return Stop::Store;
        }
        if excess as u64 > u64::MAX - self.stored {
            return Stop::NoMemory;
        }
        let (moved, stop) = write_first(alloc, &mut self.spool, &self.memory, excess);
        if stop.is_store() {
            self.failed = true;
            return Stop::Store;
        }
        self.memory.remove_first(moved);
        self.stored += moved as u64;
        stop
    }

    /// The same of those that memory doesn't take; the newest of those that can't be moved are dropped. Tells
    /// how many those are.
    pub(crate) fn settle(&mut self, alloc: Global) -> (usize, Stop)
        ensures settles { SettlesHeld D.state self.old self.new result.0 }
        ensures cause { SettleStop result.0 self.new.store.closed result.1 }
        ensures memory { IsWithinMemory self.new }
    {
        let kept = self.kept();
        let stop = self.spill(alloc, kept);
        let dropped = self.cut(kept);
        (dropped, stop)
    }

    // How many frames memory takes between two calls.
    fn kept(&self) -> usize
        ensures { result ≡ self.now.limits.memory }
    {
        self.limits.memory as usize
    }

    // Drops the newest frames of memory beyond so many, and tells how many those are.
    fn cut(&mut self, kept: usize) -> usize
        ensures dropped { result ≡ length self.old.memory - kept }
        ensures rest { self.new ≡ record self.old { memory = take kept self.old.memory } }
    {
        let dropped = self.memory.len().saturating_sub(kept);
        self.memory.truncate(kept);
        dropped
    }
}
