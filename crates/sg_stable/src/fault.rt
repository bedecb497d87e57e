// Why a store isn't opened.
ghost use Rattle.std.specs.Prelude.{◌≡◌};
ghost use Rattle.sg_stable.specs.declared.fault.StoreRefusal.TheVariants.{DiskFault as StoreFault, NoMemory};

use sg_device::DiskFault;
use std::alloc::AllocError;
use thiserror::Error;

/// Why a store wasn't opened.
#[derive(Clone, Copy, Debug, PartialEq, Eq, Drop, Error)]
pub enum StoreRefusal {
    /// The bytes are no store: the place of the first that shows it.
    #[error("damaged at {0}")]
    Damage(u64),
    #[error("the disk failed")]
    DiskFault,
    #[error("no memory")]
    NoMemory,
}

impl From<DiskFault> for StoreRefusal {
    ghost from_gives = { λ _ refusal. refusal ≡ StoreFault };

    fn from(_: DiskFault) -> Self {
        StoreRefusal::DiskFault
    }
}

impl From<AllocError> for StoreRefusal {
    ghost from_gives = { λ _ refusal. refusal ≡ NoMemory };

    fn from(_: AllocError) -> Self {
        StoreRefusal::NoMemory
    }
}
