// Patterns.
ghost use Rattle.std.specs.Prelude.{◌≡◌, IfOk};
ghost use Rattle.std.specs.Option.{option_copied};
ghost use Rattle.sg_lower.specs.Patterns.{says, kind_of, flags_of, line_at, pattern_of};

use crate::value::name_of;
use sg_device::NoMemory;
use sg_lex::Line;
use sg_options::{has_flag, last_argument, last_argument_value};
use sg_parse_base::{Spot, line_of, same_keyword};
use sg_parse_expr::Arg;
use sg_pattern::{Flags, Kind, PatternText};
use std::alloc::Global;

fn says(value: Option<&Spot>, word: &[u8]) -> bool
    ensures { result ≡ says word.now (option_copied value.entry) }
{
    match value {
        Some(spot) => same_keyword(spot.token.text.bytes(), word),
        None => false,
    }
}

fn kind_of(args: &[Arg]) -> Kind
    ensures { result ≡ kind_of args.now }
{
    if says(last_argument_value(&[b"type"], args), b"string") {
        return Kind::Text;
    }
    if says(last_argument_value(&[b"type"], args), b"glob") {
        return Kind::Glob;
    }
    Kind::Regex
}

fn flags_of(args: &[Arg]) -> Flags
    ensures { result ≡ flags_of args.now }
{
    Flags {
        ignore_case: has_flag(b"ignore-case", last_argument(&[b"flags"], args)),
        prefix: has_flag(b"prefix", last_argument(&[b"flags"], args)),
        substring: has_flag(b"substring", last_argument(&[b"flags"], args)),
        global: has_flag(b"global", last_argument(&[b"flags"], args)),
    }
}

fn line_at(value: Option<&Spot>) -> Line
    ensures { result ≡ line_at (option_copied value.entry) }
{
    match value {
        Some(spot) => line_of(&spot.token, spot.at),
        None => Line {
            file: 0,
            line: 0,
            at: 0,
        },
    }
}

/// The pattern of this text, with the type and the flags that the options say.
#[tactic(auto, unfolding(crate::specs::Patterns::pattern_of))]
pub fn pattern_of(alloc: Global, text: Option<&Spot>, args: &[Arg]) -> Result<PatternText, NoMemory>
    ensures { IfOk result (λ pattern. pattern ≡ pattern_of (option_copied text.entry) args.now) }
{
    Ok(PatternText {
        kind: kind_of(args),
        text: name_of(alloc, text)?,
        flags: flags_of(args),
        line: line_at(text),
    })
}
