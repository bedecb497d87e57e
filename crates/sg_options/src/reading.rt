// What the value of an option says.
ghost use Rattle.std.specs.Prelude.{◌≡◌, ◌≤◌, ◌<◌, ◌≤ℤ◌, map, pos, negsuc, IfSome};
ghost use Rattle.std.specs.Option.{option_copied};
ghost use Rattle.sg_options.specs.Values as spec;

use crate::names::{facility_number, level_number};
use crate::numbers::{Range, mode_of, number_in};
use crate::settings::is_one_of;
use crate::zones::zone_of;
use sg_parse_base::Spot;
use sg_parse_expr::is_yes;

/// The text of a value, empty where it is missing.
pub fn text_of(value: Option<&Spot>) -> &[u8]
    ensures { result.now ≡ spec.text_of (option_copied value.entry) }
{
    match value {
        Some(spot) => spot.token.text.bytes(),
        None => b"",
    }
}

/// The text of a value, or the default.
pub fn text_or<'a>(value: Option<&'a Spot>, default: &'a [u8]) -> &'a [u8]
    ensures { result.now ≡ spec.text_or (option_copied value.entry) default.now }
{
    match value {
        Some(spot) => spot.token.text.bytes(),
        None => default,
    }
}

/// The number in the range that the value says, or the default.
pub fn number_or(value: Option<&Spot>, range: Range, default: u32) -> u32
    requires { default ≤ range.high }
    ensures value { result ≡ spec.number_or (option_copied value.entry) range default }
    ensures most { result ≤ range.high }
    ensures least { range.low ≤ default → range.low ≤ result }
{
    let Some(spot) = value else {
        return default;
    };
    match number_in(spot.token.text.bytes(), range) {
        Some(number) => number,
        None => default,
    }
}

/// Whether the value says yes, or the default.
pub fn truth_or(value: Option<&Spot>, default: bool) -> bool
    ensures { result ≡ spec.truth_or (option_copied value.entry) default }
{
    match value {
        Some(spot) => is_yes(spot.token.text.bytes()),
        None => default,
    }
}

/// Whether the value is one of these words, which are written with dashes, or the default.
pub fn one_of_or(value: Option<&Spot>, words: &[&[u8]], default: bool) -> bool
    ensures { result
        ≡ spec.one_of_or (option_copied value.entry) (map (λ word. word.now) words.now) default }
{
    match value {
        Some(spot) => is_one_of(spot.token.text.bytes(), words),
        None => default,
    }
}

/// The offset that the value says, in minutes east of UTC, or the default.
pub fn zone_or(value: Option<&Spot>, default: i16) -> i16
    requires { (negsuc 1438 ≤ℤ default) × (default ≤ℤ pos 1439) }
    ensures value { result ≡ spec.zone_or (option_copied value.entry) default }
    ensures bound { (negsuc 1438 ≤ℤ result) × (result ≤ℤ pos 1439) }
{
    let Some(spot) = value else {
        return default;
    };
    match zone_of(spot.token.text.bytes()) {
        Some(zone) => zone,
        None => default,
    }
}

/// The same, where there may be no default.
pub fn zone_or_none(value: Option<&Spot>, default: Option<i16>) -> Option<i16>
    requires { IfSome default (λ zone. (negsuc 1438 ≤ℤ zone) × (zone ≤ℤ pos 1439)) }
    ensures value { result ≡ spec.zone_or_none (option_copied value.entry) default }
    ensures bound { IfSome result (λ zone. (negsuc 1438 ≤ℤ zone) × (zone ≤ℤ pos 1439)) }
{
    let Some(spot) = value else {
        return default;
    };
    match zone_of(spot.token.text.bytes()) {
        Some(zone) => Some(zone),
        None => default,
    }
}

/// The mode of a file that the value says, or the default.
pub fn mode_or(value: Option<&Spot>, default: u16) -> u16
    ensures { result ≡ spec.mode_or (option_copied value.entry) default }
{
    let Some(spot) = value else {
        return default;
    };
    match mode_of(spot.token.text.bytes()) {
        Some(mode) => mode,
        None => default,
    }
}

/// The facility that the value says, 0 to 23, or the default.
pub fn facility_or(value: Option<&Spot>, default: u8) -> u8
    requires { default < 24 }
    ensures value { result ≡ spec.facility_or (option_copied value.entry) default }
    ensures bound { result < 24 }
{
    let Some(spot) = value else {
        return default;
    };
    match facility_number(spot.token.text.bytes()) {
        Some(facility) => facility,
        None => default,
    }
}

/// The severity that the value says, 0 to 7, or the default.
pub fn level_or(value: Option<&Spot>, default: u8) -> u8
    requires { default < 8 }
    ensures value { result ≡ spec.level_or (option_copied value.entry) default }
    ensures bound { result < 8 }
{
    let Some(spot) = value else {
        return default;
    };
    match level_number(spot.token.text.bytes()) {
        Some(level) => level,
        None => default,
    }
}
