// An outlet of a run.

use crate::OverflowPlan;
use sg_outfmt::Shape;
use sg_outside::OutletSpec;
use sg_template::Env;

/// An outlet.
#[derive(Drop)]
pub struct OutletPlan {
    pub spec: OutletSpec,
    pub shape: Shape,
    pub env: Env,
    /// Its disk-buffer, where that isn't reliable.
    pub overflow: Option<OverflowPlan>,
}
