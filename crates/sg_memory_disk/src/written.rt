// Bytes that were written to a disk in memory.
ghost use Rattle.std.specs.Prelude.{◌+◌, ◌<◌, ◌≤◌, ◌^◌, length};

/// Bytes that were written at a place.
#[derive(Drop)]
pub struct DiskWrite {
    /// A byte offset.
    pub at: u64,
    pub bytes: Vec<u8>,
    ghost short: { at + length bytes.items < 2 ^ 63 },
}

/// A write of so many bytes at a place that failed, and the bytes that stand there since.
#[derive(Drop)]
pub struct TornWrite {
    /// A byte offset.
    pub at: u64,
    /// Bytes.
    pub size: u64,
    pub bytes: Vec<u8>,
    ghost short: { at + size < 2 ^ 63 },
    ghost fits: { length bytes.items ≤ size },
}
