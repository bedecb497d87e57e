// The numbers of the kinds.
ghost use Rattle.std.specs.Prelude.{◌≡◌, ◌<◌};
ghost use Rattle.sg_fault.specs.Faults.{number};

use sg_lex::ConfigKind;

/// The number of a kind, 1 to 30. Of two faults at one token the one with the lower number is told.
#[tactic(auto, unfolding(crate::specs::Faults::number))]
pub fn kind_number(kind: ConfigKind) -> u64
    ensures value { result ≡ number kind }
    ensures bound { result < 32 }
{
    match kind {
        ConfigKind::OpenString => 1,
        ConfigKind::BadByte => 2,
        ConfigKind::Version => 3,
        ConfigKind::IncludeDepth => 4,
        ConfigKind::UnknownVariable => 5,
        ConfigKind::MissingArgument => 6,
        ConfigKind::UnknownArgument => 7,
        ConfigKind::TooLong => 8,
        ConfigKind::Unexpected => 9,
        ConfigKind::Unsupported => 10,
        ConfigKind::BadNumber => 11,
        ConfigKind::DepthOver64 => 12,
        ConfigKind::OpenBrace => 13,
        ConfigKind::Function => 14,
        ConfigKind::UnknownName => 20,
        ConfigKind::DuplicateName => 21,
        ConfigKind::MissingOption => 22,
        ConfigKind::BadValue => 23,
        ConfigKind::HardMacro => 24,
        ConfigKind::BadPattern => 25,
        ConfigKind::FilterCycle => 26,
        ConfigKind::SourcePlace => 27,
        ConfigKind::Limit => 28,
        ConfigKind::TooManyOffers => 29,
        ConfigKind::PatternTooLarge => 30,
    }
}
