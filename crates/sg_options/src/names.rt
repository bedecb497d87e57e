// Facilities and severities.
ghost use Rattle.std.specs.Prelude.{◌≡◌, ◌<◌, ◌≤◌, IfSome};
ghost use Rattle.sg_template.specs.Names.{facility_names, severity_names};
ghost use Rattle.sg_options.specs.Names as spec;
ghost use Rattle.sg_options.specs.Numbers.{number_to};

use crate::numbers::number_to;
use sg_template::{facility_name, severity_name};

fn named_facility(text: &[u8]) -> Option<u8>
    ensures value { result ≡ spec.place_from 0 facility_names text.now }
    ensures bound { IfSome result (λ n. n < 24) }
{
    for facility in 0..24u8 {
        if facility_name(facility) == text {
            return Some(facility);
        }
    }
    None
}

fn named_level(text: &[u8]) -> Option<u8>
    ensures value { result ≡ spec.place_from 0 severity_names text.now }
    ensures bound { IfSome result (λ n. n < 8) }
{
    for severity in 0..8u8 {
        if severity_name(severity) == text {
            return Some(severity);
        }
    }
    None
}

fn older_level(text: &[u8]) -> Option<u8>
    ensures value { result ≡ spec.older_level text.now }
    ensures bound { IfSome result (λ n. n < 8) }
{
    if text == b"panic".as_slice() {
        return Some(0);
    }
    if text == b"error".as_slice() {
        return Some(3);
    }
    if text == b"warn".as_slice() {
        return Some(4);
    }
    None
}

fn small_number(high: u8, text: &[u8]) -> Option<u8>
    ensures value { result ≡ number_to 10 high text.now }
    ensures bound { IfSome result (λ n. n ≤ high) }
{
    match number_to(10, u32::from(high), text) {
        Some(number) => Some(number as u8),
        None => None,
    }
}

fn either(number: Option<u8>, other: Option<u8>) -> Option<u8>
    ensures { result ≡ spec.either number other }
{
    match number {
        Some(number) => Some(number),
        None => other,
    }
}

/// The facility of that name or number, 0 to 23.
pub fn facility_number(text: &[u8]) -> Option<u8>
    ensures value { result ≡ spec.facility_number text.now }
    ensures bound { IfSome result (λ n. n < 24) }
{
    either(named_facility(text), small_number(23, text))
}

/// The severity of that name or number, 0 to 7. The older names are read too.
pub fn level_number(text: &[u8]) -> Option<u8>
    ensures value { result ≡ spec.level_number text.now }
    ensures bound { IfSome result (λ n. n < 8) }
{
    either(
        named_level(text),
        either(older_level(text), small_number(7, text)),
    )
}
