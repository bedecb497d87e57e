// Reading stamps.
ghost use Rattle.std.specs.Prelude.{◌≡◌, ℕ, ℤ, ◌<◌, ◌≤◌, ◌≤ℤ◌, ◌++◌, List, pos, negsuc, length, MatchOption, IfSome};
ghost use Rattle.std.specs.Int.{IsInRange};
ghost use Rattle.jiff_core.specs.declared.civil.date.Date.{Date as ADate};
ghost use Rattle.sg_time.specs.Stamp.{IsValidStamp};
ghost use Rattle.sg_time.specs.Local.{local_time, IsShown};
ghost use Rattle.sg_time.specs.Text.{month_name};
ghost use Rattle.sg_time.specs.Reading.{IsIso, IsBsd, IsMoment, IsDay, year_by_receipt as receipt_year};
ghost use Rattle.sg_time.specs.declared.stamp.Stamp.{Stamp as AStamp};

use crate::fraction::{fraction, zone};
use crate::number::{after, clock, date, one_digit, two_digits};
use crate::text::month_abbrev;
use crate::{LocalTime, Stamp};
use jiff_core::civil::{Date, Time};

/// The ISO 8601 stamp at the front of the text, as RFC 3339 profiles it, and its length in bytes:
/// `YYYY-MM-DDThh:mm:ss`, maybe a dot and 1 to 6 digits, then `Z`, `+hh:mm` or `-hh:mm`, with a date
/// of the years 0001 to 9998, seconds to 59 and offsets to 23:59, `T` and `Z` in upper case.
pub fn read_iso(text: &[u8]) -> Option<(Stamp, usize)>
    ensures reading { MatchOption result
        ((stamp : AStamp) (len : ℕ) → ¬ IsIso text.now stamp len)
        (λ read. IsIso text.now read.0 read.1) }
    ensures valid { IfSome result (λ read. IsValidStamp read.0) }
    ensures within { IfSome result (λ read. read.1 ≤ length text.now) }
{
    let Some((date, rest)) = date(text) else {
        return None;
    };
    let Some(rest) = after(rest, b'T') else {
        return None;
    };
    let Some((time, rest)) = clock(rest) else {
        return None;
    };
    let Some((micros, rest)) = fraction(rest) else {
        return None;
    };
    let Some((offset, rest)) = zone(rest) else {
        return None;
    };
    let stamp = stamp_at(date, time, micros, offset);
    Some((stamp, text.len() - rest.len()))
}

/// The stamp at the front of the text as RFC 3164 writes it, `Mmm dd hh:mm:ss`, and its length in
/// bytes.
///
/// Its offset is that of the received stamp, and its year is the received one there: less one where
/// the text says December and it was received in January, plus one where the text says January and
/// it was received in December. There is no reading where that year, 0000 to 9999, lacks the date.
pub fn read_bsd(text: &[u8], received: Stamp) -> Option<(Stamp, usize)>
    requires { IsValidStamp received }
    ensures reading { MatchOption result
        ((stamp : AStamp) (len : ℕ)
        → ¬ IsBsd text.now (local_time received) received.offset stamp len)
        (λ read. IsBsd text.now (local_time received) received.offset read.0 read.1) }
    ensures valid { IfSome result (λ read. IsValidStamp read.0) }
    ensures within { IfSome result (λ read. read.1 ≤ length text.now) }
{
    let Some((month, rest)) = month(text) else {
        return None;
    };
    let Some(rest) = after(rest, b' ') else {
        return None;
    };
    let Some((day, rest)) = day_of_month(rest) else {
        return None;
    };
    let Some(rest) = after(rest, b' ') else {
        return None;
    };
    let Some((time, rest)) = clock(rest) else {
        return None;
    };
    let Some(date) = date_by_receipt(received.local(), month, day) else {
        return None;
    };
    let stamp = stamp_at(date, time, 0, received.offset);
    Some((stamp, text.len() - rest.len()))
}

// The month whose name in three letters stands at the front, and what follows.
fn month(text: &[u8]) -> Option<(u8, &[u8])>
    ensures { MatchOption result
        ((month : ℕ) (rest : List ℕ) → IsInRange 1 12 month
        → ¬ (text.now ≡ month_name month ++ rest))
        (λ read. IsInRange 1 12 read.0 × (text.now ≡ month_name read.0 ++ read.1.now)) }
{
    let Some((name, rest)) = text.split_first_chunk::<3>() else {
        return None;
    };
    for month in 1..13 {
        if *name == month_abbrev(month) {
            return Some((month, rest));
        }
    }
    None
}

// A day of the month in two places, and what follows.
fn day_of_month(text: &[u8]) -> Option<(u8, &[u8])>
    ensures { MatchOption result
        ((n : ℕ) (day rest : List ℕ) → n < 100 → IsDay day n → ¬ (text.now ≡ day ++ rest))
        (λ read. (read.0 < 100) × ((day : List ℕ) × IsDay day read.0
        × (text.now ≡ day ++ read.1.now))) }
{
    if let Some(text) = after(text, b' ') {
        let Some((day, rest)) = one_digit(text) else {
            return None;
        };
        return Some((day, rest));
    }
    let Some((day, rest)) = two_digits(text) else {
        return None;
    };
    Some((day, rest))
}

// The date with this month and day, in the year that the receipt tells.
fn date_by_receipt(received: LocalTime, month: u8, day: u8) -> Option<Date>
    requires shown { IsShown received }
    requires month { IsInRange 1 12 month }
    requires day { day < 100 }
    ensures { MatchOption result
        ((date : ADate) → pos 0 ≤ℤ date.year → date.year ≡ receipt_year received month
        → date.month ≡ month → ¬ (date.day ≡ day))
        (λ date. (pos 0 ≤ℤ date.year) × (date.year ≡ receipt_year received month)
        × (date.month ≡ month) × (date.day ≡ day)) }
{
    let year = year_by_receipt(received, month);
    if year < 0 {
        return None;
    }
    match Date::new(year, month as i8, day as i8) {
        Ok(date) => Some(date),
        Err(_) => None,
    }
}

// The year of receipt, but around New Year the one before or after it.
fn year_by_receipt(received: LocalTime, month: u8) -> i16
    requires { IsShown received }
    ensures { result ≡ receipt_year received month }
{
    let year = received.year as i16;
    if month == 12 && received.month == 1 {
        return year - 1;
    }
    if month == 1 && received.month == 12 {
        return year + 1;
    }
    year
}

// The stamp of a local date and time.
fn stamp_at(date: Date, time: Time, micros: u32, offset: i16) -> Stamp
    requires year { pos 0 ≤ℤ date.year }
    requires micros { micros < 1000000 }
    requires east { negsuc 1438 ≤ℤ offset }
    requires west { offset ≤ℤ pos 1439 }
    ensures moment { IsMoment result date time micros }
    ensures offset { result.offset ≡ offset }
    ensures valid { IsValidStamp result }
{
    let seconds = date.to_unix_epoch_day() as i64 * 86_400 + time.to_second() as i64;
    let local = seconds * 1_000_000 + micros as i64;
    Stamp {
        at: local - offset as i64 * 60_000_000,
        offset,
    }
}
