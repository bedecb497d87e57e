// What a source is set up with.

use sg_frame::FrameKind;

/// What a source is set up with.
#[derive(Clone, Copy, PartialEq, Eq, Drop)]
pub struct SourceSpec {
    /// The inlet's number.
    pub inlet: u32,
    pub kind: FrameKind,
    /// The bytes of the longest text of a record, above 0: log-msg-size().
    pub limit: u32,
    /// How many records a turn takes at most, 1 to 1,000: log-fetch-limit().
    pub fetch: u32,
    /// The place of the inlet where reading begins.
    pub from: u64,
    /// Whether the inlet has a position store. The end of a record is its place then, and else 0.
    pub stored: bool,
}
