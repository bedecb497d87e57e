// Why stores aren't opened.

use thiserror::Error;

/// Why a core wasn't opened. The disks come back.
#[derive(Clone, Copy, Debug, PartialEq, Eq, Drop, Error)]
pub enum CoreRefusal {
    /// The disk of this number holds no store of its kind: the place of the byte that shows it.
    #[error("store {0} is damaged at {1}")]
    Damage(u32, u64),
    /// A call on the disk of this number failed.
    #[error("store {0} failed")]
    DiskFault(u32),
    #[error("no memory")]
    NoMemory,
}
