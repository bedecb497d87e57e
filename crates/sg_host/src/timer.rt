// The time since something was due last.

use std::time::Instant;

/// A timer over the system's monotonic clock.
#[derive(Drop)]
pub struct Timer {
    rt: HostRuntime,
    last: Option<Instant>,
}

impl Timer {
    /// It begins now.
    pub fn new(rt: HostRuntime) -> Timer {
        Timer {
            rt,
            last: Instant::now(&rt).ok(),
        }
    }

    /// Whether so many seconds have passed since it answered true last, or since it began. It answers
    /// false while the clock tells nothing.
    pub fn is_due(&mut self, seconds: u32) -> bool {
        let Ok(now) = Instant::now(&self.rt) else {
            return false;
        };
        let due = match self.last {
            Some(last) => now.duration_since(last).as_secs() >= u64::from(seconds),
            None => seconds == 0,
        };
        if due || self.last.is_none() {
            self.last = Some(now);
        }
        due
    }
}
