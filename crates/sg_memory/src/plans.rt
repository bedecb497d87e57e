// Which calls of a machine in memory, and of the devices that it opens, are to fail.
ghost use Rattle.std.specs.Prelude.{◌≡◌, drop};
ghost use Rattle.sg_memory_disk.specs.Plan.{failing, IsFaultless};
ghost use Rattle.sg_memory.specs.Plans.{AreQuiet, IsOutletQuiet, IsPathsQuiet, first_failing, IsFirstOutlet, IsFirstPaths};

use sg_device::{OutletFault, Reopened};
use sg_memory_disk::FaultPlan;
use std::alloc::Global;
use std::collections::VecDeque;

/// What the calls of an outlet, or of an opener, come to.
#[derive(Drop)]
pub struct OutletScript {
    /// The sends and reopenings that fail, counted together, and the openings of an opener with them.
    pub fails: FaultPlan,
    /// The frames that a send takes before it fails or answers Later, or all but one of them where
    /// there are fewer.
    pub first: usize,
    /// The reopenings that answer Later, where they don't fail, and an opener's openings with them.
    pub laters: FaultPlan,
    /// The sends that answer Later, where they don't fail.
    pub waits: FaultPlan,
}

impl OutletScript {
    ghost use Rattle.sg_memory.specs.Scripts.{SendStands};

    /// No call fails, and none is too early.
    pub fn never(alloc: Global) -> OutletScript
        ensures { IsOutletQuiet result }
    {
        OutletScript::failing(alloc, FaultPlan::never(alloc))
    }

    /// These calls fail, and take nothing.
    pub fn failing(alloc: Global, fails: FaultPlan) -> OutletScript
        ensures fails { result.fails ≡ fails }
        ensures laters { IsFaultless result.laters }
        ensures waits { IsFaultless result.waits }
    {
        OutletScript {
            fails,
            first: 0,
            laters: FaultPlan::never(alloc),
            waits: FaultPlan::never(alloc),
        }
    }

    /// Counts a send where so many calls were too early, and tells whether it fails or is too early.
    pub(crate) fn next_send(&mut self, laters: u64) -> Result<Reopened, OutletFault>
        ensures { SendStands self.old laters result }
    {
        let waits = self.waits.next();
        if self.fails.next() || (waits && laters == u64::MAX) {
            return Err(OutletFault);
        }
        if waits {
            return Ok(Reopened::Later);
        }
        Ok(Reopened::Ready)
    }
}

/// What the calls of an opener come to.
#[derive(Drop)]
pub struct PathsPlan {
    pub calls: OutletScript,
    /// The questions for a file that took nothing for long which are answered by true.
    pub unused: FaultPlan,
}

impl PathsPlan {
    /// No call fails, and none is too early.
    pub fn never(alloc: Global) -> PathsPlan
        ensures { IsPathsQuiet result }
    {
        PathsPlan {
            calls: OutletScript::never(alloc),
            unused: FaultPlan::never(alloc),
        }
    }
}

/// The calls of a machine that fail, and those of the devices that it opens.
pub struct WorldPlans {
    pub reads: FaultPlan,
    pub inlet_opens: FaultPlan,
    pub outlet_opens: FaultPlan,
    pub paths_opens: FaultPlan,
    pub says: FaultPlan,
    /// The patterns that are too large.
    pub builds: FaultPlan,
    /// The questions for the time that are answered by true.
    pub dues: FaultPlan,
    /// The plans of the inlets that will be opened, in order. No call fails of those behind them.
    pub inlets: VecDeque<FaultPlan>,
    /// The same of the outlets.
    pub outlets: VecDeque<OutletScript>,
    /// The same of the openers.
    pub paths: VecDeque<PathsPlan>,
}

impl Drop for WorldPlans {
    fn drop(self) {
        let WorldPlans {
            reads: _reads,
            inlet_opens: _inlet_opens,
            outlet_opens: _outlet_opens,
            paths_opens: _paths_opens,
            says: _says,
            builds: _builds,
            dues: _dues,
            inlets: _inlets,
            outlets: _outlets,
            paths: _paths,
        } = self;
    }
}

impl WorldPlans {
    /// No call fails, and nothing is ever due.
    pub fn never(alloc: Global) -> WorldPlans
        ensures { AreQuiet result }
    {
        WorldPlans {
            reads: FaultPlan::never(alloc),
            inlet_opens: FaultPlan::never(alloc),
            outlet_opens: FaultPlan::never(alloc),
            paths_opens: FaultPlan::never(alloc),
            says: FaultPlan::never(alloc),
            builds: FaultPlan::never(alloc),
            dues: FaultPlan::never(alloc),
            inlets: VecDeque::new(alloc),
            outlets: VecDeque::new(alloc),
            paths: VecDeque::new(alloc),
        }
    }
}

/// The plan of the inlet that is opened next.
pub fn take_inlet(alloc: Global, plans: &mut VecDeque<FaultPlan>) -> FaultPlan
    ensures first { failing result ≡ first_failing plans.old.items }
    ensures rest { plans.new.items ≡ drop 1 plans.old.items }
{
    match plans.pop_front() {
        Some(plan) => plan,
        None => FaultPlan::never(alloc),
    }
}

/// The plan of the outlet that is opened next.
pub fn take_outlet(alloc: Global, plans: &mut VecDeque<OutletScript>) -> OutletScript
    ensures first { IsFirstOutlet plans.old.items result }
    ensures rest { plans.new.items ≡ drop 1 plans.old.items }
{
    match plans.pop_front() {
        Some(plan) => plan,
        None => OutletScript::never(alloc),
    }
}

/// The plan of the opener that is opened next.
pub fn take_paths(alloc: Global, plans: &mut VecDeque<PathsPlan>) -> PathsPlan
    ensures first { IsFirstPaths plans.old.items result }
    ensures rest { plans.new.items ≡ drop 1 plans.old.items }
{
    match plans.pop_front() {
        Some(plan) => plan,
        None => PathsPlan::never(alloc),
    }
}
