// Patterns.
ghost use Rattle.std.specs.Prelude.{◌≡◌, ◌∷◌, []};
ghost use Rattle.std.specs.Option.{option_copied};
ghost use Rattle.sg_fault.specs.Faults.{least};
ghost use Rattle.sg_options.specs.Settings.{first_item, items_of};
ghost use Rattle.sg_values.specs.Patterns.{says, bad_if, is_kind, text_faults, text_faults_of, find_word, flag_in, case_faults, pattern_faults};

use crate::setting::PATTERN_LIMIT;
use sg_fault::{Placed, earlier};
use sg_options::{args_of, bad_value, item_of, last_argument, last_argument_value};
use sg_parse_base::{Spot, same_keyword};
use sg_parse_expr::{Arg, Call};

fn says(value: Option<&Spot>, word: &[u8]) -> bool
    ensures { result ≡ says word.now (option_copied value.entry) }
{
    match value {
        Some(spot) => same_keyword(spot.token.text.bytes(), word),
        None => false,
    }
}

/// Whether the pattern has that type.
fn is_kind(word: &[u8], args: &[Arg]) -> bool
    ensures { result ≡ is_kind word.now args.now }
{
    says(last_argument_value(&[b"type"], args), word)
}

fn text_fault_of(plain: bool, pattern: Option<&Spot>) -> Option<Placed>
    ensures { result ≡ least (text_faults_of plain (option_copied pattern.entry)) }
{
    let Some(spot) = pattern else {
        return None;
    };
    let length = spot.token.text.bytes().len();
    if length > PATTERN_LIMIT || (plain && length == 0) {
        return Some(bad_value(spot));
    }
    None
}

fn first_item(args: &[Arg]) -> Option<&Spot>
    ensures { option_copied result ≡ first_item args.now }
{
    match args {
        [first, ..] => item_of(first),
        [] => None,
    }
}

fn text_fault(args: &[Arg]) -> Option<Placed>
    ensures { result ≡ least (text_faults args.now) }
{
    text_fault_of(is_kind(b"string", args), first_item(args))
}

/// The first value that is this word.
fn find_word<'a>(word: &[u8], args: &'a [Arg]) -> Option<&'a Spot>
    ensures { option_copied result ≡ find_word word.now (items_of args.now) }
{
    for arg in args {
        if let Some(spot) = item_of(arg) {
            if same_keyword(spot.token.text.bytes(), word) {
                return Some(spot);
            }
        }
    }
    None
}

fn flag_in<'a>(word: &[u8], call: Option<&'a Call>) -> Option<&'a Spot>
    ensures { option_copied result ≡ flag_in word.now (option_copied call.entry) }
{
    match call {
        Some(call) => find_word(word, args_of(call)),
        None => None,
    }
}

fn bad_if(value: Option<&Spot>) -> Option<Placed>
    ensures { result ≡ least (bad_if (option_copied value.entry)) }
{
    match value {
        Some(spot) => Some(bad_value(spot)),
        None => None,
    }
}

/// The fault where a glob is to ignore case: at the flag.
fn case_fault(args: &[Arg]) -> Option<Placed>
    ensures { result ≡ least (case_faults args.now) }
{
    if is_kind(b"glob", args) {
        return bad_if(flag_in(b"ignore-case", last_argument(&[b"flags"], args)));
    }
    None
}

/// The first fault of a pattern and its options.
#[tactic(auto, using(sg_fault::proofs::Least::least_append), unfolding(crate::specs::Patterns::pattern_faults))]
pub fn pattern_fault(args: &[Arg]) -> Option<Placed>
    ensures { result ≡ least (pattern_faults args.now) }
{
    earlier(text_fault(args), case_fault(args))
}
