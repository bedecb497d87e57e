// How records stand in a stream of bytes.

/// The framing of a stream (RFC 6587).
#[derive(Clone, Copy, PartialEq, Eq, Drop)]
pub enum FrameKind {
    /// Each record ends with a line feed: non-transparent framing, RFC 6587 section 3.4.2.
    Lines,
    /// Each record stands behind the number of its bytes and a space: octet counting, RFC 6587
    /// section 3.4.1.
    Counted,
}
