// Which calls of a disk in memory fail, and what they leave.
ghost use Rattle.std.specs.Prelude.{◌≡◌, drop, None, Some};
ghost use Rattle.sg_memory_disk.specs.DiskPlan.{refuses, counted, IsDiskQuiet, first_plan};

use crate::{FaultPlan, Pick};
use std::alloc::Global;
use std::collections::VecDeque;

/// The calls of a disk that fail, and what they leave.
#[derive(Drop)]
pub struct DiskPlan {
    pub fails: FaultPlan,
    /// The number of calls that pass before each later one fails, if it is set.
    pub left: Option<u64>,
    /// What the writes since the last sync leave, in order, where one of them or the sync fails; the
    /// last one counts for those behind it too. A call that fails changes nothing where there is none.
    pub tears: Vec<Pick>,
}

impl DiskPlan {
    /// No call fails.
    pub fn never(alloc: Global) -> DiskPlan
        ensures { IsDiskQuiet result }
    {
        DiskPlan::failing(alloc, FaultPlan::never(alloc))
    }

    /// These calls fail.
    pub fn failing(alloc: Global, fails: FaultPlan) -> DiskPlan
        ensures fails { result.fails ≡ fails }
        ensures left { result.left ≡ None }
    {
        DiskPlan {
            fails,
            left: None,
            tears: Vec::new(alloc),
        }
    }

    /// So many calls pass, and every later one fails.
    pub fn stopping(alloc: Global, calls: u64) -> DiskPlan
        ensures left { result.left ≡ Some calls }
    {
        DiskPlan {
            fails: FaultPlan::never(alloc),
            left: Some(calls),
            tears: Vec::new(alloc),
        }
    }

    /// Counts a call, and tells whether it fails.
    pub fn next(&mut self) -> bool
        ensures fails { result ≡ refuses self.old }
        ensures counted { self.new ≡ counted self.old }
    {
        let planned = self.fails.next();
        let stopped = self.left == Some(0);
        if let Some(left) = self.left {
            self.left = Some(left.saturating_sub(1));
        }
        planned || stopped
    }
}

/// The plan of the disk that is opened next. No call fails of those behind the last plan.
pub(crate) fn take_plan(alloc: Global, plans: &mut VecDeque<DiskPlan>) -> DiskPlan
    ensures first { first_plan plans.old.items result }
    ensures rest { plans.new.items ≡ drop 1 plans.old.items }
{
    match plans.pop_front() {
        Some(plan) => plan,
        None => DiskPlan::never(alloc),
    }
}
