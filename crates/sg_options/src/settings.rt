// The options of a driver.
ghost use Rattle.std.specs.Prelude.{◌≡◌, map};
ghost use Rattle.std.specs.Option.{option_copied};
ghost use Rattle.sg_parse_expr.specs.Classes.{is_one_of};
ghost use Rattle.sg_options.specs.Settings as spec;

use sg_parse_base::{Spot, same_keyword};
use sg_parse_expr::{Arg, Call};

/// The arguments of a call.
#[tactic(auto, unfolding(crate::specs::Settings::args_of))]
pub fn args_of(call: &Call) -> &[Arg]
    ensures { result.now ≡ spec.args_of call.now }
{
    call.args.as_slice()
}

/// The value that an argument is.
#[tactic(auto, unfolding(crate::specs::Settings::item_of))]
pub fn item_of(arg: &Arg) -> Option<&Spot>
    ensures { option_copied result ≡ spec.item_of arg.now }
{
    match arg {
        Arg::Item(spot) => Some(spot),
        _ => None,
    }
}

/// The option that an argument is.
#[tactic(auto, unfolding(crate::specs::Settings::nested_of))]
pub fn nested_of(arg: &Arg) -> Option<&Call>
    ensures { option_copied result ≡ spec.nested_of arg.now }
{
    match arg {
        Arg::Nested(call) => Some(call),
        _ => None,
    }
}

/// The value of an option: its first argument.
pub fn value_of(call: &Call) -> Option<&Spot>
    ensures { option_copied result ≡ spec.value_of call.now }
{
    match args_of(call) {
        [first, ..] => item_of(first),
        [] => None,
    }
}

/// Whether a text is one of these words, which are written with dashes. `-` and `_` are equal.
pub fn is_one_of(text: &[u8], words: &[&[u8]]) -> bool
    ensures { result ≡ is_one_of text.now (map (λ word. word.now) words.now) }
{
    for word in words {
        if same_keyword(text, *word) {
            return true;
        }
    }
    false
}

/// Whether an option is called by one of these words, which are written with dashes.
#[tactic(auto, unfolding(crate::specs::Settings::word_of))]
pub fn is_called(words: &[&[u8]], call: &Call) -> bool
    ensures { result ≡ spec.is_called (map (λ word. word.now) words.now) call.now }
{
    is_one_of(call.word.token.text.bytes(), words)
}

/// The last option of one of these words among the arguments of a driver.
pub fn last_argument<'a>(words: &[&[u8]], args: &'a [Arg]) -> Option<&'a Call>
    ensures { option_copied result
        ≡ spec.last_option (map (λ word. word.now) words.now) (spec.calls_of args.now) }
{
    let mut last = None;
    for arg in args {
        if let Some(call) = nested_of(arg) {
            if is_called(words, call) {
                last = Some(call);
            }
        }
    }
    last
}

/// The last option of one of these words.
pub fn last_option<'a>(words: &[&[u8]], calls: &'a [Call]) -> Option<&'a Call>
    ensures { option_copied result ≡ spec.last_option (map (λ word. word.now) words.now) calls.now }
{
    let mut last = None;
    for call in calls {
        if is_called(words, call) {
            last = Some(call);
        }
    }
    last
}

/// The value of an option that may be missing.
pub fn value_behind(call: Option<&Call>) -> Option<&Spot>
    ensures { option_copied result ≡ spec.value_behind (option_copied call.entry) }
{
    match call {
        Some(call) => value_of(call),
        None => None,
    }
}

/// The value of the last option of one of these words among the arguments of a driver.
pub fn last_argument_value<'a>(words: &[&[u8]], args: &'a [Arg]) -> Option<&'a Spot>
    ensures { option_copied result
        ≡ spec.last_value (map (λ word. word.now) words.now) (spec.calls_of args.now) }
{
    value_behind(last_argument(words, args))
}

/// The value of the last option of one of these words.
pub fn last_value<'a>(words: &[&[u8]], calls: &'a [Call]) -> Option<&'a Spot>
    ensures { option_copied result ≡ spec.last_value (map (λ word. word.now) words.now) calls.now }
{
    value_behind(last_option(words, calls))
}

fn has_word(word: &[u8], args: &[Arg]) -> bool
    ensures { result ≡ spec.has_word word.now (spec.items_of args.now) }
{
    for arg in args {
        if let Some(spot) = item_of(arg) {
            if same_keyword(spot.token.text.bytes(), word) {
                return true;
            }
        }
    }
    false
}

/// Whether this word, which is written with dashes, is among the values of an option that may be
/// missing.
pub fn has_flag(word: &[u8], call: Option<&Call>) -> bool
    ensures { result ≡ spec.has_flag word.now (option_copied call.entry) }
{
    match call {
        Some(call) => has_word(word, args_of(call)),
        None => false,
    }
}
