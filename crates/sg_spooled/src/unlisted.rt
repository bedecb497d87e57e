// Why a store wasn't listed.
ghost use Rattle.std.specs.Prelude.{◌≡◌};
ghost use Rattle.sg_spooled.specs.declared.unlisted.Unlisted.TheVariants.{NoMemory};

use std::alloc::AllocError;
use thiserror::Error;

/// Why the entries of a store weren't all listed.
#[derive(Clone, Copy, Debug, PartialEq, Eq, Drop, Error)]
pub enum Unlisted {
    /// The store couldn't be opened.
    #[error("not opened")]
    NotOpened,
    /// From this place on its bytes are no store, or no entry stands at the gate at this place.
    #[error("damaged at {0}")]
    Damage(u64),
    /// Its disk failed.
    #[error("the disk failed")]
    DiskFault,
    /// A text couldn't be said.
    #[error("not said")]
    SayFault,
    #[error("no memory")]
    NoMemory,
}

impl From<AllocError> for Unlisted {
    ghost from_gives = { λ _ unlisted. unlisted ≡ NoMemory };

    fn from(_: AllocError) -> Self {
        Unlisted::NoMemory
    }
}
