// Time zones.
ghost use Rattle.std.specs.Prelude.{◌≡◌, ◌≤◌, ◌≤ℤ◌, pos, negsuc, IfSome};
ghost use Rattle.sg_options.specs.Zones as spec;

use crate::numbers::number_to;

// So many minutes east of UTC, behind `+`, or west of it, behind `-`.
fn offset_of(sign: u8, minutes: u32) -> Option<i16>
    requires { minutes ≤ 1439 }
    ensures value { result ≡ spec.offset_of sign minutes }
    ensures bound { IfSome result (λ offset. (negsuc 1438 ≤ℤ offset) × (offset ≤ℤ pos 1439)) }
{
    match sign {
        b'+' => Some(minutes as i16),
        b'-' => Some(-(minutes as i16)),
        _ => None,
    }
}

fn clock_offset(sign: u8, hours: Option<u32>, minutes: Option<u32>) -> Option<i16>
    requires hours { IfSome hours (λ n. n ≤ 23) }
    requires minutes { IfSome minutes (λ n. n ≤ 59) }
    ensures value { result ≡ spec.clock_offset sign hours minutes }
    ensures bound { IfSome result (λ offset. (negsuc 1438 ≤ℤ offset) × (offset ≤ℤ pos 1439)) }
{
    let Some(hours) = hours else {
        return None;
    };
    let Some(minutes) = minutes else {
        return None;
    };
    offset_of(sign, hours * 60 + minutes)
}

/// The offset that the text says, in minutes east of UTC: `+hh:mm` or `-hh:mm`, to 23:59.
pub fn zone_of(text: &[u8]) -> Option<i16>
    ensures value { result ≡ spec.zone_of text.now }
    ensures bound { IfSome result (λ offset. (negsuc 1438 ≤ℤ offset) × (offset ≤ℤ pos 1439)) }
{
    if text.len() != 6 || text[3] != b':' {
        return None;
    }
    let hours = number_to(10, 23, &text[1..3]);
    let minutes = number_to(10, 59, &text[4..6]);
    clock_offset(text[0], hours, minutes)
}
