// What may happen again and again, and is told at most once a minute.
use crate::lines::DeviceNotices;
use std::alloc::{AllocError, Global};
use std::sync::Mutex;
use std::sync::atomic::{AtomicU64, Ordering};
use std::time::Instant;

// The seconds from one line to the next.
const EVERY: u64 = 60;

/// One line on standard error at once, and then one a minute at most, with the number of times before it
/// that weren't told.
#[derive(Drop)]
pub struct Notice {
    rt: HostRuntime,
    // The times that weren't told yet.
    untold: AtomicU64,
    teller: Mutex<NoticeWriter>,
}

#[derive(Drop)]
struct NoticeWriter {
    lines: DeviceNotices,
    last: Option<Instant>,
}

impl Notice {
    /// About a device of this kind and name.
    pub fn new(
        alloc: Global,
        rt: HostRuntime,
        kind: &str,
        name: &[u8],
    ) -> Result<Notice, AllocError> {
        Ok(Notice {
            rt,
            untold: AtomicU64::new(0),
            teller: Mutex::new(NoticeWriter {
                lines: DeviceNotices::new(alloc, rt, kind, name)?,
                last: None,
            }),
        })
    }

    /// It has happened, as these words say.
    pub fn happens(&self, words: &[u8]) {
        let Some(mut guard) = self.teller.try_lock() else {
            self.count();
            return;
        };
        let teller = &mut *guard;
        if is_early(&self.rt, teller.last) {
            self.count();
            return;
        }
        teller.last = Instant::now(&self.rt).ok();
        let before = self.untold.swap(0, Ordering::SeqCst);
        tell(&self.rt, &mut teller.lines, words, before);
    }

    /// It will not happen any more. The times that weren't told are, in one line.
    pub fn end(&self, words: &[u8]) {
        if let Some(mut guard) = self.teller.try_lock() {
            let teller = &mut *guard;
            let before = self.untold.swap(0, Ordering::SeqCst);
            if before > 0 {
                tell(&self.rt, &mut teller.lines, words, before);
            }
        }
    }

    fn count(&self) {
        self.untold.fetch_add(1, Ordering::SeqCst);
    }
}

fn is_early(rt: &HostRuntime, last: Option<Instant>) -> bool {
    let Some(last) = last else {
        return false;
    };
    match last.elapsed(rt) {
        Ok(since) => since.as_secs() < EVERY,
        Err(_) => false,
    }
}

// Words, and how often it has happened before.
fn tell(rt: &HostRuntime, lines: &mut DeviceNotices, words: &[u8], before: u64) {
    if before == 0 {
        lines.tell(words);
        return;
    }
    if let Ok(text) = with_number(rt.alloc(), words, before) {
        lines.tell(&text);
    } else {
        lines.tell(words);
    }
}

fn with_number(alloc: Global, words: &[u8], before: u64) -> Result<Vec<u8>, AllocError> {
    let mut text = words.to_vec(alloc)?;
    let number = format!(in alloc; ", {before} times more since the last line")?;
    text.extend_from_slice(number.as_bytes())?;
    Ok(text)
}
