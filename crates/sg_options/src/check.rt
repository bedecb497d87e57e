// What may be wrong with the values of options.
ghost use Rattle.std.specs.Prelude.{◌≡◌, map, List, ℕ, [], ◌∷◌};
ghost use Rattle.std.specs.Option.{option_copied};
ghost use Rattle.sg_fault.specs.Faults.{least};
ghost use Rattle.sg_options.specs.Settings.{calls_of};
ghost use Rattle.sg_options.specs.Checks as spec;

use crate::names::{facility_number, level_number};
use crate::numbers::{Range, mode_of, number_in};
use crate::settings::{nested_of, value_of};
use crate::zones::zone_of;
use sg_fault::{Placed, earlier};
use sg_lex::ConfigKind;
use sg_parse_base::{Spot, line_of};
use sg_parse_expr::{Arg, Call, row_of};

/// What the value of an option must be.
#[derive(Clone, Copy, Drop)]
pub enum Check {
    /// A decimal number in the range.
    Within(Range),
    /// An offset from UTC.
    Zone,
    /// The mode of a file.
    Mode,
    Facility,
    /// A severity.
    Level,
}

fn passes(check: Check, text: &[u8]) -> bool
    ensures { result ≡ spec.passes check text.now }
{
    match check {
        Check::Within(range) => number_in(text, range).is_some(),
        Check::Zone => zone_of(text).is_some(),
        Check::Mode => mode_of(text).is_some(),
        Check::Facility => facility_number(text).is_some(),
        Check::Level => level_number(text).is_some(),
    }
}

/// The fault `BadValue` at a value.
pub fn bad_value(spot: &Spot) -> Placed
    ensures { result ≡ spec.bad_value spot.now }
{
    Placed {
        kind: ConfigKind::BadValue,
        line: line_of(&spot.token, spot.at),
    }
}

fn value_fault(check: Check, value: Option<&Spot>) -> Option<Placed>
    ensures { result ≡ least (spec.value_faults check (option_copied value.entry)) }
{
    match value {
        Some(spot) if !passes(check, spot.token.text.bytes()) => Some(bad_value(spot)),
        _ => None,
    }
}

// What is wrong with an option, by the row of its word.
#[tactic(auto, unfolding(crate::specs::Settings::word_of))]
fn option_fault(rows: &[(&[u8], Check)], call: &Call) -> Option<Placed>
    ensures { result
        ≡ least (spec.option_faults (map (λ row. (row.0.now, row.1)) rows.now) call.now) }
{
    match row_of(rows, call.word.token.text.bytes()) {
        Some(check) => value_fault(check, value_of(call)),
        None => None,
    }
}

// What is wrong with an argument that is an option.
#[tactic(auto, using(sg_fault::proofs::Least::least_append, sg_fault::proofs::Least::earlier_none))]
fn argument_fault(rows: &[(&[u8], Check)], arg: &Arg) -> Option<Placed>
    ensures { result ≡ least
        (spec.bad_values (map (λ row. (row.0.now, row.1)) rows.now) (calls_of (arg.now ∷ []))) }
{
    match nested_of(arg) {
        Some(call) => option_fault(rows, call),
        None => None,
    }
}

/// The first fault of the options among the arguments of a driver: `BadValue` at a value that isn't
/// what the row of its option's word asks for.
pub fn first_bad_argument(rows: &[(&[u8], Check)], args: &[Arg]) -> Option<Placed>
    ensures { result
        ≡ least (spec.bad_values (map (λ row. (row.0.now, row.1)) rows.now) (calls_of args.now)) }
{
    let mut found = None;
    for arg in args {
        found = earlier(found, argument_fault(rows, arg));
    }
    found
}

/// The first fault of options: `BadValue` at a value that isn't what the row of its option's word asks
/// for.
pub fn first_bad_option(rows: &[(&[u8], Check)], calls: &[Call]) -> Option<Placed>
    ensures { result
        ≡ least (spec.bad_values (map (λ row. (row.0.now, row.1)) rows.now) calls.now) }
{
    let mut found = None;
    for call in calls {
        found = earlier(found, option_fault(rows, call));
    }
    found
}
