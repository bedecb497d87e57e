// What a trace keeps.

use sg_frame::Framer;

/// What a trace keeps.
pub(crate) struct Tracer {
    pub(crate) framer: Framer,
    /// The number of the next record.
    pub(crate) number: u64,
    /// Room for a frame.
    pub(crate) bytes: Vec<u8>,
    /// What isn't said yet.
    pub(crate) text: Vec<u8>,
}

impl Drop for Tracer {
    fn drop(self) {
        let Tracer {
            framer: _framer,
            number: _number,
            bytes: _bytes,
            text: _text,
        } = self;
    }
}
