// What a message refuses.
ghost use Rattle.std.specs.Prelude.{◌≡◌};
ghost use Rattle.sg_msg.specs.declared.refusal.MsgRefusal.TheVariants.{NoMemory as MsgNoMemory};

use std::alloc::AllocError;
use thiserror::Error;

/// Why a pair wasn't changed.
#[derive(Clone, Copy, Debug, PartialEq, Eq, Drop, Error)]
pub enum MsgRefusal {
    /// The name is a macro's.
    #[error("the name is a macro")]
    HardMacro,
    #[error("no memory")]
    NoMemory,
}

impl From<AllocError> for MsgRefusal {
    ghost from_gives = { λ _ refusal. refusal ≡ MsgNoMemory };

    fn from(_: AllocError) -> Self {
        MsgRefusal::NoMemory
    }
}
