// The calls of a disk in memory, and how many have failed.
ghost use Rattle.std.specs.Prelude.{◌≡◌, ◌≤◌, false};
ghost use Rattle.std.specs.Bool.{OnTrue};
ghost use Rattle.sg_device.specs.Faults.{Rose};
ghost use Rattle.sg_memory_disk.specs.DiskPlan.{after_next, refuses, with_fault, with_starved};

use crate::DiskPlan;

/// The calls of a disk that fail, and those that failed.
#[derive(Drop)]
pub struct DiskCalls {
    pub plan: DiskPlan,
    pub faults: u64,
    /// A call found no memory.
    pub starved: bool,
}

impl DiskCalls {
    /// Calls by this plan, of which none was made yet.
    pub fn new(plan: DiskPlan) -> DiskCalls
        ensures plan { result.plan ≡ plan }
        ensures faults { result.faults ≡ 0 }
        ensures starved { result.starved ≡ false }
    {
        DiskCalls {
            plan,
            faults: 0,
            starved: false,
        }
    }

    /// Counts a call, and tells whether it fails.
    pub fn next(&mut self) -> bool
        ensures fails { result ≡ refuses self.old.plan }
        ensures counted { self.new ≡ after_next self.old }
        ensures rose { OnTrue result (Rose self.old.faults self.new.faults) }
        ensures later { self.old.faults ≤ self.new.faults }
    {
        let fails = self.plan.next();
        if fails {
            self.fault();
        }
        fails
    }

    /// Counts a fault.
    pub fn fault(&mut self)
        ensures counted { self.new ≡ with_fault self.old }
        ensures rose { Rose self.old.faults self.new.faults }
        ensures later { self.old.faults ≤ self.new.faults }
    {
        self.faults = self.faults.saturating_add(1);
    }

    /// Counts a fault that lack of memory brought.
    pub fn starve(&mut self)
        ensures counted { self.new ≡ with_starved self.old }
        ensures rose { Rose self.old.faults self.new.faults }
        ensures later { self.old.faults ≤ self.new.faults }
    {
        self.fault();
        self.starved = true;
    }
}
