// What the operator is told once a minute, as long as it is so.
use crate::lines::DeviceNotices;
use std::alloc::{AllocError, Global};
use std::sync::Mutex;
use std::sync::atomic::{AtomicU64, Ordering};
use std::thread;
use std::time::{Duration, Instant};

// The seconds from one line to the next.
const EVERY: u64 = 60;

// How often it is tried to add one, a millisecond apart.
const TRIES: u32 = 1_000;

/// A line on standard error about a device.
#[derive(Drop)]
pub struct Reminder {
    lines: DeviceNotices,
    words: &'static str,
}

impl Reminder {
    /// About a device of this kind and name.
    pub fn new(
        alloc: Global,
        rt: HostRuntime,
        kind: &str,
        name: &[u8],
        words: &'static str,
    ) -> Result<Reminder, AllocError> {
        Ok(Reminder {
            lines: DeviceNotices::new(alloc, rt, kind, name)?,
            words,
        })
    }
}

#[derive(Drop)]
struct ReminderList {
    all: Vec<Reminder>,
    // When they were told last, or the first one was added.
    last: Option<Instant>,
}

/// The lines that are told once a minute.
#[derive(Drop)]
pub(crate) struct Reminders {
    rt: HostRuntime,
    count: AtomicU64,
    list: Mutex<ReminderList>,
}

impl Reminders {
    pub(crate) fn new(alloc: Global, rt: HostRuntime) -> Reminders {
        Reminders {
            rt,
            count: AtomicU64::new(0),
            list: Mutex::new(ReminderList {
                all: Vec::new(alloc),
                last: None,
            }),
        }
    }

    /// This one is told from the next minute on.
    pub(crate) fn add(&self, reminder: Reminder) {
        for _ in 0..TRIES {
            if let Some(mut guard) = self.list.try_lock() {
                let list = &mut *guard;
                if list.all.is_empty() {
                    list.last = Instant::now(&self.rt).ok();
                }
                if list.all.push(reminder).is_ok() {
                    self.count.fetch_add(1, Ordering::SeqCst);
                }
                return;
            }
            thread::sleep(&self.rt, Duration::from_millis(1));
        }
    }

    /// None of them is told any more.
    pub(crate) fn end(&self) {
        if let Some(mut guard) = self.list.try_lock() {
            let list = &mut *guard;
            list.all.clear();
            self.count.store(0, Ordering::SeqCst);
        }
    }

    /// Tells them, where a minute has passed.
    pub(crate) fn tell(&self) {
        if self.count.load(Ordering::SeqCst) == 0 {
            return;
        }
        if let Some(mut guard) = self.list.try_lock() {
            let list = &mut *guard;
            if is_minute(&self.rt, list.last) {
                list.last = Instant::now(&self.rt).ok();
                tell_all(&mut list.all);
            }
        }
    }
}

fn is_minute(rt: &HostRuntime, last: Option<Instant>) -> bool {
    let Some(last) = last else {
        return true;
    };
    match last.elapsed(rt) {
        Ok(since) => since.as_secs() >= EVERY,
        Err(_) => false,
    }
}

fn tell_all(all: &mut Vec<Reminder>) {
    for reminder in all {
        let words = reminder.words;
        reminder.lines.tell(words.as_bytes());
    }
}
