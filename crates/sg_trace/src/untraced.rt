// Why a file wasn't traced.
ghost use Rattle.std.specs.Prelude.{◌≡◌};
ghost use Rattle.sg_trace.specs.declared.untraced.Untraced.TheVariants.{NoMemory};

use std::alloc::AllocError;
use thiserror::Error;

/// Why the offers of a file's records weren't all said.
#[derive(Clone, Copy, Debug, PartialEq, Eq, Drop, Error)]
pub enum Untraced {
    /// The file couldn't be opened.
    #[error("not opened")]
    NotOpened,
    /// A pull failed.
    #[error("the inlet failed")]
    InletFault,
    /// 68,719,476,736 pulls were made, and the last wasn't the end.
    #[error("too many pulls")]
    RoundsSpent,
    /// A text couldn't be said.
    #[error("not said")]
    SayFault,
    #[error("no memory")]
    NoMemory,
}

impl From<AllocError> for Untraced {
    ghost from_gives = { λ _ untraced. untraced ≡ NoMemory };

    fn from(_: AllocError) -> Self {
        Untraced::NoMemory
    }
}
