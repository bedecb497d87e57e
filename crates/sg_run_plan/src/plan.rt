// A plan.

use crate::{InletPlan, OutletPlan};
use sg_machine::Setup;
use sg_outside::StoreSpec;

/// What is run: the setup of the flow core, the devices by their numbers, and whether the run ends once
/// all input was taken.
#[derive(Drop)]
pub struct RunPlan {
    pub setup: Setup,
    pub inlets: Vec<InletPlan>,
    pub outlets: Vec<OutletPlan>,
    pub stores: Vec<StoreSpec>,
    pub once: bool,
}
