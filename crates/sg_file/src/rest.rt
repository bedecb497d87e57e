// When an adapter waits that has nothing to give, and what ends the wait.
ghost use Rattle.std.specs.Prelude.{◌≡◌, IfOk};
ghost use Rattle.sg_file.specs.Waiting.{IsNotIdleYet, IsAnother};

use crate::locks::Locks;
use crate::reminder::{Reminder, Reminders};
use crate::reserved::{Reservation, Reserved};
use crate::sockets::Sockets;
use std::alloc::{AllocError, Global};
use std::fs::File;
use std::os::fd::AsRawFd;
use std::sync::Arc;
use std::sync::atomic::{AtomicBool, AtomicU64, Ordering};
use std::thread;
use std::time::Duration;

// The longest wait, in milliseconds.
const LONGEST: u64 = 100;

#[derive(Drop)]
struct SharedWaits {
    // The waits since anything happened last.
    streak: AtomicU64,
    // All waits.
    waits: AtomicU64,
    // An adapter waits at present.
    waiting: AtomicBool,
    // The sockets that end a wait, where the system has a poll for them.
    sockets: Option<Sockets>,
    // The locks of the files that are appended to.
    locks: Locks,
    // The files that are not.
    reserved: Arc<Reserved>,
    // What is told once a minute, by an adapter that is idle or to which something happened.
    reminders: Reminders,
}

/// The wait of the adapters of one machine that have nothing to give. Once all of them were idle, one
/// of them waits: not at all after anything happened at any of them, then 1, 2, 4 .. 100
/// milliseconds, or until one of the sockets that are watched is ready.
#[derive(Drop)]
pub struct IdleWait {
    rt: HostRuntime,
    shared: Arc<SharedWaits>,
    // The waits of all when this adapter was idle last.
    seen: u64,
}

impl IdleWait {
    /// Of the first adapter.
    pub fn new(alloc: Global, rt: HostRuntime) -> Result<IdleWait, AllocError>
        ensures { IfOk result IsNotIdleYet }
    {
        let shared = SharedWaits {
            streak: AtomicU64::new(0),
            waits: AtomicU64::new(0),
            waiting: AtomicBool::new(false),
            sockets: Sockets::new(alloc, rt).ok(),
            locks: Locks::new(alloc)?,
            reserved: Arc::new(alloc, Reserved::new(alloc)?)?,
            reminders: Reminders::new(alloc, rt),
        };
        Ok(IdleWait {
            rt,
            shared: Arc::new(alloc, shared)?,
            seen: u64::MAX,
        })
    }

    /// Of another adapter of the same machine.
    pub fn share(&self) -> Result<IdleWait, AllocError>
        ensures { IfOk result (IsAnother self.now) }
    {
        Ok(IdleWait {
            rt: self.rt,
            shared: Arc::try_clone(&self.shared)?,
            seen: u64::MAX,
        })
    }

    /// A wait ends from now on where this socket has something to read, or also where it takes bytes
    /// again. It doesn't block, and is read or written until it would block before the next wait: the
    /// system tells of a change once. One that can't be watched ends no wait.
    pub fn watch<S: AsRawFd>(&self, socket: &S, writes: bool) {
        if let Some(sockets) = &self.shared.sockets {
            let _unwatched = sockets.watch(socket, writes);
        }
    }

    /// The locks of the files to which the adapters append.
    pub(crate) fn locks(&self) -> &Locks {
        &self.shared.locks
    }

    /// No adapter appends to this file until the answer is dropped: it is a source or a store.
    pub fn reserve(&self, file: &File) -> Result<Reservation, AllocError> {
        Reservation::new(&self.shared.reserved, file)
    }

    /// The files to which no adapter appends.
    pub(crate) fn reserved(&self) -> &Reserved {
        &self.shared.reserved
    }

    /// This line is told once a minute from now on.
    pub fn remind(&self, reminder: Reminder) {
        self.shared.reminders.add(reminder);
    }

    /// No line is told once a minute any more.
    pub fn end_reminders(&self) {
        self.shared.reminders.end();
    }

    /// Something happened.
    pub fn happened(&self) {
        self.shared.reminders.tell();
        self.shared.streak.store(0, Ordering::SeqCst);
        if self.shared.waiting.load(Ordering::SeqCst) {
            self.wake();
        }
    }

    /// Ends the wait that is under way, or else the next one, from any thread.
    pub fn wake(&self) {
        if let Some(sockets) = &self.shared.sockets {
            sockets.wake();
        }
    }

    /// Nothing happened. It waits where no other adapter did since this one was idle last.
    pub fn wait(&mut self) {
        self.shared.reminders.tell();
        let waits = self.shared.waits.load(Ordering::SeqCst);
        if waits != self.seen {
            self.seen = waits;
            return;
        }
        self.seen = self
            .shared
            .waits
            .fetch_add(1, Ordering::SeqCst)
            .wrapping_add(1);
        let streak = self.shared.streak.fetch_add(1, Ordering::SeqCst);
        if streak > 0 {
            let millis = if streak < 8 {
                1u64 << (streak - 1)
            } else {
                LONGEST
            };
            self.pause(Duration::from_millis(millis.min(LONGEST)));
        }
    }

    // Waits at most so long, and not at all where something has happened since the last look.
    fn pause(&self, most: Duration) {
        self.shared.waiting.store(true, Ordering::SeqCst);
        if self.shared.streak.load(Ordering::SeqCst) > 0 {
            match &self.shared.sockets {
                Some(sockets) => sockets.wait(&self.rt, most),
                None => thread::sleep(&self.rt, most),
            }
        }
        self.shared.waiting.store(false, Ordering::SeqCst);
    }
}
