// Patterns that are made to see whether they can be.
ghost use Rattle.std.specs.Prelude.{◌≡◌};
ghost use Rattle.sg_outside.specs.World.{OnlyBuilds};
ghost use Rattle.sg_pattern.specs.Builds.{TriesText, calls_by};

use crate::{BuildFault, BuildRefusal, Builder, Kind, PatternText};
use std::alloc::Global;

fn try_regex<B: Builder>(
    alloc: Global,
    builder: &mut B,
    pattern: &PatternText,
) -> Result<(), BuildRefusal>
    requires { pattern.now.kind ≡ Kind.Regex }
    ensures tries { TriesText (calls_by B.state B.build_step) builder.old builder.new pattern.now
        result }
    ensures only { OnlyBuilds (B.state builder.old) (B.state builder.new) }
{
    let Ok(words) = str::from_utf8(pattern.text.bytes()) else {
        return Err(BuildRefusal::BadPattern(pattern.line));
    };
    match builder.build(alloc, words, pattern.flags.ignore_case) {
        Ok(_regex) => Ok(()),
        Err(BuildFault::Syntax) => Err(BuildRefusal::BadPattern(pattern.line)),
        Err(BuildFault::TooLarge) => Err(BuildRefusal::TooLarge(pattern.line)),
        Err(BuildFault::NoMemory) => Err(BuildRefusal::NoMemory),
    }
}

/// Makes the pattern that a configuration writes. What a builder keeps of it is made no second time.
pub fn try_text<B: Builder>(
    alloc: Global,
    builder: &mut B,
    pattern: &PatternText,
) -> Result<(), BuildRefusal>
    ensures tries { TriesText (calls_by B.state B.build_step) builder.old builder.new pattern.now
        result }
    ensures only { OnlyBuilds (B.state builder.old) (B.state builder.new) }
{
    match pattern.kind {
        Kind::Regex => try_regex(alloc, builder, pattern),
        Kind::Text => Ok(()),
        Kind::Glob => Ok(()),
    }
}
