// Writing stamps.
ghost use Rattle.std.specs.Prelude.{◌≡◌, ◌+◌, ◌≤◌, ◌<◌, ◌++◌, ◌^◌, ◌==◌, if◌then◌else◌, ◌≤ℤ◌, pos, negsuc, OnOk, OnErr, length, take, codes};
ghost use Rattle.std.specs.Int.{IsInRange};
ghost use Rattle.sg_time.specs.Local.{IsShown};
ghost use Rattle.sg_time.specs.Stamp.{IsValidStamp};
ghost use Rattle.sg_time.specs.Text.{digits as digits_of, date_text, clock_text, fraction_text, offset_text, month_name, day_text, iso_stamp_text, bsd_stamp_text};

use crate::{LocalTime, Stamp};
use std::alloc::AllocError;

/// Appends the stamp as `YYYY-MM-DDThh:mm:ss`, a dot and so many digits of the second's fraction
/// (neither for 0 digits, the rest cut off), and the offset as `+hh:mm` or `-hh:mm`.
pub fn iso_text(stamp: Stamp, digits: u8, out: &mut Vec<u8>) -> Result<(), AllocError>
    requires valid { IsValidStamp stamp }
    requires at_most_six { digits ≤ 6 }
    ensures ok { OnOk result (out.new.items ≡ out.old.items ++ iso_stamp_text stamp digits) }
    ensures err { OnErr result (out.new.items ≡ out.old.items) }
{
    let whole = iso_whole(stamp.local());
    let shown = shown_len(19, digits);
    append(&whole[..shown], &offset_bytes(stamp.offset), out)
}

/// Appends the stamp's local time as `Mmm dd hh:mm:ss`, with a space before a day of one digit, a
/// dot and so many digits of the second's fraction (neither for 0 digits, the rest cut off).
pub fn bsd_text(stamp: Stamp, digits: u8, out: &mut Vec<u8>) -> Result<(), AllocError>
    requires valid { IsValidStamp stamp }
    requires at_most_six { digits ≤ 6 }
    ensures ok { OnOk result (out.new.items ≡ out.old.items ++ bsd_stamp_text stamp digits) }
    ensures err { OnErr result (out.new.items ≡ out.old.items) }
{
    let whole = bsd_whole(stamp.local());
    let shown = shown_len(15, digits);
    out.extend_from_slice(&whole[..shown])
}

/// The month's name in three letters, `Jan` to `Dec`, as RFC 3164 writes it.
pub fn month_abbrev(month: u8) -> [u8; 3]
    requires { IsInRange 1 12 month }
    ensures { result ≡ month_name month }
{
    match month {
        1 => *b"Jan",
        2 => *b"Feb",
        3 => *b"Mar",
        4 => *b"Apr",
        5 => *b"May",
        6 => *b"Jun",
        7 => *b"Jul",
        8 => *b"Aug",
        9 => *b"Sep",
        10 => *b"Oct",
        11 => *b"Nov",
        _ => *b"Dec",
    }
}

// The length of a text of so many bytes with this many digits of a fraction and their dot.
fn shown_len(seconds: usize, digits: u8) -> usize
    requires { seconds < 20 }
    ensures { result ≡ seconds + (if digits == 0 then 0 else 1 + digits) }
{
    if digits == 0 {
        seconds
    } else {
        seconds + 1 + digits as usize
    }
}

// Appends both, or neither.
fn append(front: &[u8], back: &[u8], out: &mut Vec<u8>) -> Result<(), AllocError>
    requires { length front.now + length back.now < 2 ^ 63 }
    ensures ok { OnOk result (out.new.items ≡ out.old.items ++ (front.now ++ back.now)) }
    ensures err { OnErr result (out.new.items ≡ out.old.items) }
{
    out.reserve(front.len() + back.len())?;
    out.extend_from_slice(front)?;
    out.extend_from_slice(back)
}

// YYYY-MM-DDThh:mm:ss.ffffff
fn iso_whole(local: LocalTime) -> [u8; 26]
    ensures { result ≡ date_text local.year local.month local.day ++ codes "T"
        ++ clock_text local.hour local.minute local.second
        ++ (codes "." ++ digits_of 6 local.microsecond) }
{
    let [y0, y1, y2, y3] = four_digits(local.year);
    let [mo0, mo1] = two_digits(local.month);
    let [d0, d1] = two_digits(local.day);
    let [h0, h1] = two_digits(local.hour);
    let [mi0, mi1] = two_digits(local.minute);
    let [s0, s1] = two_digits(local.second);
    let [f0, f1, f2, f3, f4, f5] = six_digits(local.microsecond);
    [
        y0, y1, y2, y3, b'-', mo0, mo1, b'-', d0, d1, b'T', h0, h1, b':', mi0, mi1, b':', s0, s1,
        b'.', f0, f1, f2, f3, f4, f5,
    ]
}

// Mmm dd hh:mm:ss.ffffff
fn bsd_whole(local: LocalTime) -> [u8; 22]
    requires { IsShown local }
    ensures { result ≡ month_name local.month ++ codes " " ++ day_text local.day ++ codes " "
        ++ clock_text local.hour local.minute local.second
        ++ (codes "." ++ digits_of 6 local.microsecond) }
{
    let [n0, n1, n2] = month_abbrev(local.month);
    let [d0, d1] = padded_day(local.day);
    let [h0, h1] = two_digits(local.hour);
    let [mi0, mi1] = two_digits(local.minute);
    let [s0, s1] = two_digits(local.second);
    let [f0, f1, f2, f3, f4, f5] = six_digits(local.microsecond);
    [
        n0, n1, n2, b' ', d0, d1, b' ', h0, h1, b':', mi0, mi1, b':', s0, s1, b'.', f0, f1, f2, f3,
        f4, f5,
    ]
}

/// The offset as `+hh:mm` or `-hh:mm`, and `+00:00` for 0.
pub fn offset_bytes(offset: i16) -> [u8; 6]
    requires east { negsuc 1438 ≤ℤ offset }
    requires west { offset ≤ℤ pos 1439 }
    ensures { result ≡ offset_text offset }
{
    let minutes = offset.unsigned_abs();
    let sign = if offset < 0 { b'-' } else { b'+' };
    let [h0, h1] = two_digits((minutes / 60) as u8);
    let [m0, m1] = two_digits((minutes % 60) as u8);
    [sign, h0, h1, b':', m0, m1]
}

// A day of the month in two places.
fn padded_day(day: u8) -> [u8; 2]
    ensures { result ≡ day_text day }
{
    let [tens, ones] = two_digits(day);
    if day < 10 { [b' ', ones] } else { [tens, ones] }
}

/// The last two decimal digits.
pub fn two_digits(number: u8) -> [u8; 2]
    ensures { result ≡ digits_of 2 number }
{
    [b'0' + number / 10 % 10, b'0' + number % 10]
}

/// The last four decimal digits.
pub fn four_digits(number: u16) -> [u8; 4]
    ensures { result ≡ digits_of 4 number }
{
    let [a, b] = two_digits((number / 100 % 100) as u8);
    let [c, d] = two_digits((number % 100) as u8);
    [a, b, c, d]
}

/// The last six decimal digits.
pub fn six_digits(number: u32) -> [u8; 6]
    ensures { result ≡ digits_of 6 number }
{
    let [a, b, c, d] = four_digits((number / 100 % 10000) as u16);
    let [e, f] = two_digits((number % 100) as u8);
    [a, b, c, d, e, f]
}
