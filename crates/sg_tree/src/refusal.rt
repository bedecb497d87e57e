// Why paths weren't made.
ghost use Rattle.std.specs.Prelude.{◌≡◌};
ghost use Rattle.sg_tree.specs.Refusals.{path_refusal};
ghost use Rattle.sg_tree.specs.declared.refusal.PathRefusal.TheVariants.{NoMemory as LacksMemory};

use sg_lex::Line;
use sg_pattern::BuildRefusal;
use std::alloc::AllocError;
use thiserror::Error;

/// Why paths weren't made, or a record has no offers.
#[derive(Clone, Copy, Debug, PartialEq, Eq, Drop, Error)]
pub enum PathRefusal {
    /// The pattern of this line is no regular expression over bytes, or is nested more than 250 deep.
    #[error("no pattern")]
    BadPattern(Line),
    /// The builder refused the pattern of this line for its size, and its count rose.
    #[error("the pattern is too large")]
    PatternTooLarge(Line),
    /// With the statement of this line a record may have more than 1,024 offers, or more than 1,024
    /// messages reach a place in it.
    #[error("too many offers")]
    TooManyOffers(Line),
    #[error("no memory")]
    NoMemory,
}

impl From<AllocError> for PathRefusal {
    ghost from_gives = { λ _ refusal. refusal ≡ LacksMemory };

    fn from(_: AllocError) -> Self {
        PathRefusal::NoMemory
    }
}

impl From<BuildRefusal> for PathRefusal {
    ghost from_gives = { λ built refusal. refusal ≡ path_refusal built };

    fn from(refusal: BuildRefusal) -> Self {
        match refusal {
            BuildRefusal::BadPattern(line) => PathRefusal::BadPattern(line),
            BuildRefusal::TooLarge(line) => PathRefusal::PatternTooLarge(line),
            BuildRefusal::NoMemory => PathRefusal::NoMemory,
        }
    }
}
