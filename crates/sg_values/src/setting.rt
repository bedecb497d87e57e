// Options of filters and rewrites.
ghost use Rattle.std.specs.Prelude.{◌≡◌, map};
ghost use Rattle.std.specs.List.{flat_map};
ghost use Rattle.std.specs.Option.{option_copied};
ghost use Rattle.sg_fault.specs.Faults.{least};
ghost use Rattle.sg_options.specs.Settings.{calls_of};
ghost use Rattle.sg_values.specs.Settings.{missing, name_faults_of, name_faults, hard_faults_of, hard_faults, long_faults, glob_faults};

use sg_fault::{Placed, earlier};
use sg_lex::ConfigKind;
use sg_msg::is_hard;
use sg_options::{args_of, bad_value, is_called, item_of, last_argument, nested_of, value_of};
use sg_parse_base::{Spot, line_of};
use sg_parse_expr::{Arg, Call};

/// How long the name of a value may be.
const NAME_LIMIT: usize = 255;

/// How long a pattern may be.
pub const PATTERN_LIMIT: usize = 1_000;

/// The fault where none of the arguments of a call is an option of this word.
pub fn missing(word: &[u8], call: &Call) -> Option<Placed>
    ensures { result ≡ least (missing word.now call.now) }
{
    match last_argument(&[word], args_of(call)) {
        Some(_) => None,
        None => Some(Placed {
            kind: ConfigKind::MissingOption,
            line: line_of(&call.word.token, call.word.at),
        }),
    }
}

fn name_fault_of(name: Option<&Spot>) -> Option<Placed>
    ensures { result ≡ least (name_faults_of (option_copied name.entry)) }
{
    let Some(spot) = name else {
        return None;
    };
    let length = spot.token.text.bytes().len();
    if length == 0 || length > NAME_LIMIT {
        return Some(bad_value(spot));
    }
    None
}

fn name_fault(arg: &Arg) -> Option<Placed>
    ensures { result ≡ least (name_faults arg.now) }
{
    match nested_of(arg) {
        Some(call) if is_called(&[b"value"], call) => name_fault_of(value_of(call)),
        _ => None,
    }
}

/// The first name in `value` that is empty or too long.
pub fn names_fault(args: &[Arg]) -> Option<Placed>
    ensures { result ≡ least (flat_map name_faults args.now) }
{
    let mut first = None;
    for arg in args {
        first = earlier(first, name_fault(arg));
    }
    first
}

fn hard_fault_of(word: &Spot, name: Option<&Spot>) -> Option<Placed>
    ensures { result ≡ least (hard_faults_of word.now (option_copied name.entry)) }
{
    match name {
        Some(spot) if is_hard(spot.token.text.bytes()) => Some(Placed {
            kind: ConfigKind::HardMacro,
            line: line_of(&word.token, word.at),
        }),
        _ => None,
    }
}

fn hard_fault(word: &Spot, arg: &Arg) -> Option<Placed>
    ensures { result ≡ least (hard_faults word.now arg.now) }
{
    match nested_of(arg) {
        Some(call) if is_called(&[b"value"], call) => hard_fault_of(word, value_of(call)),
        _ => None,
    }
}

/// The fault where a name in `value` is a macro's: at the word of the rewrite.
pub fn hards_fault(word: &Spot, args: &[Arg]) -> Option<Placed>
    ensures { result ≡ least (flat_map (hard_faults word.now) args.now) }
{
    let mut first = None;
    for arg in args {
        first = earlier(first, hard_fault(word, arg));
    }
    first
}

fn long_fault(arg: &Arg) -> Option<Placed>
    ensures { result ≡ least (long_faults arg.now) }
{
    match item_of(arg) {
        Some(spot) if spot.token.text.bytes().len() > PATTERN_LIMIT => Some(bad_value(spot)),
        _ => None,
    }
}

fn longs_fault(args: &[Arg]) -> Option<Placed>
    ensures { result ≡ least (flat_map long_faults args.now) }
{
    let mut first = None;
    for arg in args {
        first = earlier(first, long_fault(arg));
    }
    first
}

fn glob_fault(arg: &Arg) -> Option<Placed>
    ensures { result ≡ least (glob_faults arg.now) }
{
    match nested_of(arg) {
        Some(call) if is_called(&[b"values"], call) => longs_fault(args_of(call)),
        _ => None,
    }
}

/// The first glob in `values` that is too long.
pub fn globs_fault(args: &[Arg]) -> Option<Placed>
    ensures { result ≡ least (flat_map glob_faults args.now) }
{
    let mut first = None;
    for arg in args {
        first = earlier(first, glob_fault(arg));
    }
    first
}
