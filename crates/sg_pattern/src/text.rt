// A pattern as a configuration writes it, and why nothing is made of it.
ghost use Rattle.std.specs.Prelude.{◌≡◌};
ghost use Rattle.sg_pattern.specs.declared.text.BuildRefusal.TheVariants.{NoMemory as RefusalNoMemory};

use crate::{Flags, Kind};
use sg_device::Name;
use sg_lex::Line;
use std::alloc::AllocError;
use thiserror::Error;

#[derive(Drop)]
pub struct PatternText {
    pub kind: Kind,
    pub text: Name,
    pub flags: Flags,
    pub line: Line,
}

/// Why what has patterns wasn't made.
#[derive(Clone, Copy, Debug, PartialEq, Eq, Drop, Error)]
pub enum BuildRefusal {
    /// The pattern of this line is no regular expression over bytes, or is nested more than 250 deep.
    #[error("no pattern")]
    BadPattern(Line),
    /// The builder refused the pattern of this line for its size, and its count rose.
    #[error("the pattern is too large")]
    TooLarge(Line),
    #[error("no memory")]
    NoMemory,
}

impl From<AllocError> for BuildRefusal {
    ghost from_gives = { λ _ refusal. refusal ≡ RefusalNoMemory };

    fn from(_: AllocError) -> Self {
        BuildRefusal::NoMemory
    }
}
