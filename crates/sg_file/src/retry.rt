// When an outlet is opened anew.
ghost use Rattle.std.specs.Prelude.{◌≡◌, None, false};

use std::time::Instant;

/// The time from one try to open an outlet to the next.
#[derive(Drop)]
pub struct Retry {
    rt: HostRuntime,
    // In seconds.
    every: u32,
    last: Option<Instant>,
}

impl Retry {
    /// So many seconds; nothing was tried yet.
    pub fn new(rt: HostRuntime, every: u32) -> Retry
        ensures every { result.every ≡ every }
        ensures tried { result.last ≡ None }
    {
        Retry {
            rt,
            every,
            last: None,
        }
    }

    /// It is tried now.
    pub fn begin(&mut self)
        ensures { self.new.every ≡ self.old.every }
    {
        self.last = Instant::now(&self.rt).ok();
    }

    /// Whether it is too early for another try. It isn't where nothing was tried, or with 0 seconds.
    pub fn is_early(&self) -> bool
        ensures tried { self.now.last ≡ None → result ≡ false }
        ensures every { self.now.every ≡ 0 → result ≡ false }
    {
        let Some(last) = self.last else {
            return false;
        };
        match last.elapsed(&self.rt) {
            Ok(since) => since.as_secs() < u64::from(self.every),
            Err(_) => false,
        }
    }
}
