// Why bytes aren't read as an entry.
ghost use Rattle.std.specs.Prelude.{◌≡◌};
ghost use Rattle.sg_codec.specs.declared.refusal.CodecRefusal.TheVariants.{NoMemory as CodecNoMemory};
ghost use Rattle.sg_codec.specs.declared.refusal.DecodeStop.TheVariants.{NoMemory as StopNoMemory};

use std::alloc::AllocError;
use thiserror::Error;

/// Why bytes aren't read as an entry.
#[derive(Clone, Copy, Debug, PartialEq, Eq, Drop, Error)]
pub enum CodecRefusal {
    /// The bytes are no entry. The place is that of the first byte of the first field that is cut off
    /// or out of its range, or of what follows the entry.
    #[error("damaged at {0}")]
    Damage(u64),
    #[error("no memory")]
    NoMemory,
}

impl From<AllocError> for CodecRefusal {
    ghost from_gives = { λ _ refusal. refusal ≡ CodecNoMemory };

    fn from(_: AllocError) -> Self {
        CodecRefusal::NoMemory
    }
}

/// Where reading stops.
#[derive(Clone, Copy, Drop)]
pub(crate) enum DecodeStop {
    /// At the first damaged byte: so many bytes stand from it on.
    Damaged(usize),
    NoMemory,
}

impl From<AllocError> for DecodeStop {
    ghost from_gives = { λ _ stop. stop ≡ StopNoMemory };

    fn from(_: AllocError) -> Self {
        DecodeStop::NoMemory
    }
}
