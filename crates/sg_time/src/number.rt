// Reading the parts of a stamp: numbers of a fixed width, separators, dates and times of day.
ghost use Rattle.std.specs.Prelude.{◌≡◌, ◌<◌, ℕ, ◌++◌, ◌∷◌, List, ◌≤ℤ◌, pos, MatchOption};
ghost use Rattle.jiff_core.specs.Calendar.{IsBetween};
ghost use Rattle.jiff_core.specs.declared.civil.date.Date.{Date as ADate};
ghost use Rattle.jiff_core.specs.declared.civil.time.Time.{Time as ATime};
ghost use Rattle.sg_time.specs.Text.{digits};
ghost use Rattle.sg_time.specs.Reading.{date_form, clock_form};

use jiff_core::civil::{Date, Time};

// What follows this byte at the front.
pub(crate) fn after(text: &[u8], byte: u8) -> Option<&[u8]>
    ensures { MatchOption result
        ((rest : List ℕ) → ¬ (text.now ≡ byte ∷ rest))
        (λ rest. text.now ≡ byte ∷ rest.now) }
{
    match text {
        [first, rest @ ..] if *first == byte => Some(rest),
        _ => None,
    }
}

// A number of one digit, and what follows.
pub(crate) fn one_digit(text: &[u8]) -> Option<(u8, &[u8])>
    ensures { MatchOption result
        ((n : ℕ) (rest : List ℕ) → n < 10 → ¬ (text.now ≡ digits 1 n ++ rest))
        (λ read. (read.0 < 10) × (text.now ≡ digits 1 read.0 ++ read.1.now)) }
{
    match text {
        [digit @ b'0'..=b'9', rest @ ..] => Some((digit - b'0', rest)),
        _ => None,
    }
}

// A number of two digits, and what follows.
pub(crate) fn two_digits(text: &[u8]) -> Option<(u8, &[u8])>
    ensures { MatchOption result
        ((n : ℕ) (rest : List ℕ) → n < 100 → ¬ (text.now ≡ digits 2 n ++ rest))
        (λ read. (read.0 < 100) × (text.now ≡ digits 2 read.0 ++ read.1.now)) }
{
    match text {
        [tens @ b'0'..=b'9', ones @ b'0'..=b'9', rest @ ..] => {
            Some(((tens - b'0') * 10 + (ones - b'0'), rest))
        }
        _ => None,
    }
}

// A number of four digits, and what follows.
fn four_digits(text: &[u8]) -> Option<(u16, &[u8])>
    ensures { MatchOption result
        ((n : ℕ) (rest : List ℕ) → n < 10000 → ¬ (text.now ≡ digits 4 n ++ rest))
        (λ read. (read.0 < 10000) × (text.now ≡ digits 4 read.0 ++ read.1.now)) }
{
    let Some((hundreds, text)) = two_digits(text) else {
        return None;
    };
    let Some((ones, rest)) = two_digits(text) else {
        return None;
    };
    Some((hundreds as u16 * 100 + ones as u16, rest))
}

// A date of the years 1 to 9998 as YYYY-MM-DD, and what follows.
pub(crate) fn date(text: &[u8]) -> Option<(Date, &[u8])>
    ensures { MatchOption result
        ((date : ADate) (rest : List ℕ) → IsBetween (pos 1) (pos 9998) date.year
        → ¬ (text.now ≡ date_form date ++ rest))
        (λ read. IsBetween (pos 1) (pos 9998) read.0.year
        × (text.now ≡ date_form read.0 ++ read.1.now)) }
{
    let Some((year, text)) = four_digits(text) else {
        return None;
    };
    let Some(text) = after(text, b'-') else {
        return None;
    };
    let Some((month, text)) = two_digits(text) else {
        return None;
    };
    let Some(text) = after(text, b'-') else {
        return None;
    };
    let Some((day, rest)) = two_digits(text) else {
        return None;
    };
    if year < 1 || year > 9998 {
        return None;
    }
    match Date::new(year as i16, month as i8, day as i8) {
        Ok(date) => Some((date, rest)),
        Err(_) => None,
    }
}

// A time of day as hh:mm:ss, and what follows.
pub(crate) fn clock(text: &[u8]) -> Option<(Time, &[u8])>
    ensures { MatchOption result
        ((time : ATime) (rest : List ℕ) → ¬ (text.now ≡ clock_form time ++ rest))
        (λ read. text.now ≡ clock_form read.0 ++ read.1.now) }
{
    let Some((hour, text)) = two_digits(text) else {
        return None;
    };
    let Some(text) = after(text, b':') else {
        return None;
    };
    let Some((minute, text)) = two_digits(text) else {
        return None;
    };
    let Some(text) = after(text, b':') else {
        return None;
    };
    let Some((second, rest)) = two_digits(text) else {
        return None;
    };
    match Time::new(hour as i8, minute as i8, second as i8, 0) {
        Ok(time) => Some((time, rest)),
        Err(_) => None,
    }
}
