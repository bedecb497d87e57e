// The counts of an outlet.
ghost use Rattle.std.specs.Prelude.{◌≡◌, true};

use sg_device::SendRefusal;

/// The frames taken since the opening, the sends and reopenings that failed, those since a frame was taken last,
/// those that were too early, and the frames that the store held at the opening.
#[derive(Clone, Copy, Drop)]
pub struct OutletTally {
    pub count: u64,
    pub faults: u64,
    pub failing: u64,
    pub laters: u64,
    pub loaded: u64,
}

impl OutletTally {
    ghost use Rattle.sg_overflow.specs.Tallies.{fresh_tally, after_send, after_fault, after_later, CanCount};

    /// At the opening of a store with so many frames.
    pub(crate) fn fresh(loaded: u64) -> OutletTally
        ensures { result ≡ fresh_tally loaded }
    {
        OutletTally {
            count: 0,
            faults: 0,
            failing: 0,
            laters: 0,
            loaded,
        }
    }

    /// Whether so many frames more can be counted, and one send more that is too early.
    pub(crate) fn can_count(self, number: u64) -> bool
        ensures { result ≡ true → CanCount self number }
    {
        if number > u64::MAX - self.count {
            return false;
        }
        self.laters < u64::MAX
    }

    /// A send took so many frames, and answered this.
    pub(crate) fn after_send(self, taken: u64, answer: Result<(), SendRefusal>) -> OutletTally
        ensures { result ≡ after_send self taken answer }
    {
        let failing = if taken == 0 { self.failing } else { 0 };
        let mut next = self;
        next.count = self.count.saturating_add(taken);
        match answer {
            Ok(()) => next.failing = 0,
            Err(SendRefusal::Fault) => {
                next.faults = self.faults.saturating_add(1);
                next.failing = failing.saturating_add(1);
            }
            Err(SendRefusal::Later) => {
                next.failing = failing;
                next.laters = self.laters.saturating_add(1);
            }
            Err(SendRefusal::NoMemory) => next.failing = failing,
        }
        next
    }

    /// A reopening failed.
    pub(crate) fn after_fault(self) -> OutletTally
        ensures { result ≡ after_fault self }
    {
        let mut next = self;
        next.faults = self.faults.saturating_add(1);
        next.failing = self.failing.saturating_add(1);
        next
    }

    /// It was too early for a reopening.
    pub(crate) fn after_later(self) -> OutletTally
        ensures { result ≡ after_later self }
    {
        let mut next = self;
        next.laters = self.laters.saturating_add(1);
        next
    }
}
