// How the file is read, and what destinations send.

use sg_frame::FrameKind;
use sg_outfmt::Shape;
use sg_template::Env;

/// How a file is read: as an inlet of that number would.
#[derive(Clone, Copy, PartialEq, Eq, Drop)]
pub struct FileReading {
    pub inlet: u32,
    pub kind: FrameKind,
    /// The bytes of the longest text of a record, above 0.
    pub limit: u32,
}

/// What a destination sends.
pub struct SentForm {
    pub shape: Shape,
    pub env: Env,
}

impl Drop for SentForm {
    fn drop(self) {
        let SentForm {
            shape: _shape,
            env: _env,
        } = self;
    }
}
