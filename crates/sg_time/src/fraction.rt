// Reading what stands behind the seconds of an ISO stamp: a fraction and an offset.
ghost use Rattle.std.specs.Prelude.{◌≡◌, ◌<◌, ◌≤◌, ◌^◌, ℕ, ℤ, ◌++◌, List, pos, MatchOption, IfSome, All, length, slice_index};
ghost use Rattle.sg_time.specs.Text.{minutes_text};
ghost use Rattle.sg_time.specs.Reading.{IsDigit, IsFraction, IsZone, micros_from};

use crate::number::{after, two_digits};

// The microseconds of a fraction, 0 where there is none, and what follows.
pub(crate) fn fraction(text: &[u8]) -> Option<(u32, &[u8])>
    ensures reading { MatchOption result
        ((micros : ℕ) (fraction zone rest : List ℕ) (offset : ℤ) → IsFraction fraction micros
        → IsZone zone offset → ¬ (text.now ≡ fraction ++ (zone ++ rest)))
        (λ read. (fraction : List ℕ) × IsFraction fraction read.0 × (read.0 < 1000000)
        × (text.now ≡ fraction ++ read.1.now)) }
    ensures only { IfSome result (λ read. (micros : ℕ) (fraction zone rest : List ℕ) (offset : ℤ)
        → IsFraction fraction micros → IsZone zone offset → text.now ≡ fraction ++ (zone ++ rest)
        → read.1.now ≡ zone ++ rest) }
{
    let Some(digits) = after(text, b'.') else {
        return Some((0, text));
    };
    let len = digits_len(digits);
    if len == 0 || len > 6 {
        return None;
    }
    Some((micros_of(&digits[..len]), &digits[len..]))
}

// How many digits stand at the front.
fn digits_len(text: &[u8]) -> usize
    ensures within { result ≤ length text.now }
    ensures before { (k : ℕ) → k < result → IsDigit (slice_index text.now k) }
    ensures behind { result < length text.now → ¬ IsDigit (slice_index text.now result) }
{
    for (index, byte) in text.iter().enumerate() {
        if *byte < b'0' || *byte > b'9' {
            return index;
        }
    }
    text.len()
}

// The microseconds that at most six digits of a fraction come to.
fn micros_of(digits: &[u8]) -> u32
    requires digits { All IsDigit digits.now }
    ensures value { result ≡ micros_from 100000 digits.now }
    ensures bound { result < 1000000 }
{
    let mut micros = 0;
    let mut unit = 100_000;
    for digit in digits {
        micros += (*digit - b'0') as u32 * unit;
        unit /= 10;
    }
    micros
}

// The minutes east of UTC of `Z`, `+hh:mm` or `-hh:mm`, and what follows.
pub(crate) fn zone(text: &[u8]) -> Option<(i16, &[u8])>
    ensures { MatchOption result
        ((zone rest : List ℕ) (offset : ℤ) → IsZone zone offset → ¬ (text.now ≡ zone ++ rest))
        (λ read. (zone : List ℕ) × IsZone zone read.0 × (text.now ≡ zone ++ read.1.now)) }
{
    if let Some(rest) = after(text, b'Z') {
        return Some((0, rest));
    }
    if let Some(text) = after(text, b'+') {
        let Some((minutes, rest)) = minutes(text) else {
            return None;
        };
        return Some((minutes as i16, rest));
    }
    let Some(text) = after(text, b'-') else {
        return None;
    };
    let Some((minutes, rest)) = minutes(text) else {
        return None;
    };
    Some((-(minutes as i16), rest))
}

// The minutes of hh:mm, with hours to 23 and minutes to 59, and what follows.
fn minutes(text: &[u8]) -> Option<(u16, &[u8])>
    ensures { MatchOption result
        ((n : ℕ) (rest : List ℕ) → n < 1440 → ¬ (text.now ≡ minutes_text n ++ rest))
        (λ read. (read.0 < 1440) × (text.now ≡ minutes_text read.0 ++ read.1.now)) }
{
    let Some((hours, text)) = two_digits(text) else {
        return None;
    };
    let Some(text) = after(text, b':') else {
        return None;
    };
    let Some((minutes, rest)) = two_digits(text) else {
        return None;
    };
    if hours > 23 || minutes > 59 {
        return None;
    }
    Some((hours as u16 * 60 + minutes as u16, rest))
}
