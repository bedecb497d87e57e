// An inlet of a run.

use sg_device::Name;
use sg_frame::FrameKind;
use sg_outside::InletSpec;

/// An inlet.
#[derive(Drop)]
pub struct InletPlan {
    pub spec: InletSpec,
    /// The name of its source, none of an inline one.
    pub source: Option<Name>,
    /// The number of its driver.
    pub driver: u32,
    pub kind: FrameKind,
    /// How many bytes a record may have.
    pub limit: u32,
    /// How many records are taken in one turn.
    pub fetch: u32,
}
