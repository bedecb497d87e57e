// What the destinations of a configuration send.
ghost use Rattle.std.specs.Prelude.{◌≡◌, ◌++◌, ◌∷◌, [], map, IfOk, OnOk};
ghost use Rattle.sg_trace.specs.Tracing.{target_of};

use crate::SentForm;
use sg_device::NoMemory;
use sg_run_plan::OutletPlan;
use std::alloc::Global;
use std::collections::VecDeque;

fn push_target(targets: &mut Vec<SentForm>, outlet: OutletPlan) -> Result<(), NoMemory>
    ensures { OnOk result (targets.new.items ≡ targets.old.items ++ target_of outlet ∷ []) }
{
    let OutletPlan {
        spec: _,
        shape,
        env,
        overflow: _,
    } = outlet;
    targets.push(SentForm { shape, env })?;
    Ok(())
}

pub(crate) fn targets_of(alloc: Global, outlets: Vec<OutletPlan>) -> Result<Vec<SentForm>, NoMemory>
    ensures { IfOk result (λ targets. targets.items ≡ map target_of outlets.items) }
{
    let mut targets = Vec::new(alloc);
    let mut rest = VecDeque::from(outlets);
    while let Some(outlet) = rest.pop_front() {
        push_target(&mut targets, outlet)?;
    }
    Ok(targets)
}
