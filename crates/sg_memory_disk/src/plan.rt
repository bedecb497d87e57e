// Which calls are to fail.
ghost use Rattle.std.specs.Prelude.{◌≡◌};

use std::alloc::Global;

/// The numbers of the calls that fail, counted from 0.
#[derive(Drop)]
pub struct FaultPlan {
    fails: Vec<u64>,
    calls: u64,
}

impl FaultPlan {
    ghost use Rattle.sg_memory_disk.specs.Plan.{IsFaultless, after_call, fails_now, failing};

    /// No call fails.
    pub fn never(alloc: Global) -> FaultPlan
        ensures { IsFaultless result }
    {
        FaultPlan {
            fails: Vec::new(alloc),
            calls: 0,
        }
    }

    /// These calls fail.
    pub fn new(fails: Vec<u64>) -> FaultPlan
        ensures fails { failing result ≡ fails.items }
        ensures first { result.calls ≡ 0 }
    {
        FaultPlan { fails, calls: 0 }
    }

    /// Counts a call, and tells whether it fails.
    pub fn next(&mut self) -> bool
        ensures fails { result ≡ fails_now self.old }
        ensures counted { self.new ≡ after_call self.old }
    {
        let call = self.calls;
        self.calls = call.saturating_add(1);
        self.fails.contains(&call)
    }
}
