// What becomes of a row.

/// What becomes of a row.
#[derive(Drop)]
pub(crate) enum Heard {
    /// It says what later rows begin with.
    Setting,
    /// What is printed.
    Answer(Vec<u8>),
    /// It isn't understood.
    Unknown,
}
