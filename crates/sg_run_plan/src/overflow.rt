// A disk-buffer that isn't reliable.

use sg_outside::StoreSpec;

/// A disk-buffer that isn't reliable: its store, the bytes that its frames take there at most, and how many
/// of them are in memory.
#[derive(Drop)]
pub struct OverflowPlan {
    pub store: StoreSpec,
    /// 1 MiB to 1 GiB.
    pub capacity: u64,
    /// 1 to 100,000.
    pub memory: u32,
}
