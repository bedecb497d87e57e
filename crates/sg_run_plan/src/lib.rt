//! The plan of a run: what its inlets, outlets and stores are, and how its flow core is set up.
#![tactic(auto)]

mod inlet;
mod outlet;
mod overflow;
mod plan;

pub use inlet::InletPlan;
pub use outlet::OutletPlan;
pub use overflow::OverflowPlan;
pub use plan::RunPlan;
