// Kinds of stores.

/// What a store keeps.
#[derive(Clone, Copy, PartialEq, Eq, Drop)]
pub enum StoreKind {
    /// The position of an inlet.
    Position,
    /// The entries of a disk-buffer, which take so many bytes at most. Those found at an opening may
    /// exceed it.
    Buffer { capacity: u64 },
}
