// Why a record has no message.
ghost use Rattle.std.specs.Prelude.{◌≡◌};
ghost use Rattle.sg_r5424.specs.declared.refusal.R5424Refusal.TheVariants.{NoMemory as LacksMemory};

use std::alloc::AllocError;
use thiserror::Error;

/// Why a record has no message.
#[derive(Clone, Copy, Debug, PartialEq, Eq, Drop, Error)]
pub enum R5424Refusal {
    /// The record isn't of RFC 5424's form. What can't be read begins at this place, in bytes, which
    /// is at most the record's length.
    #[error("not a record of RFC 5424")]
    Syntax(usize),
    #[error("no memory")]
    NoMemory,
}

impl From<AllocError> for R5424Refusal {
    ghost from_gives = { λ _ refusal. refusal ≡ LacksMemory };

    fn from(_: AllocError) -> Self {
        R5424Refusal::NoMemory
    }
}
