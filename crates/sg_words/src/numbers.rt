// The numbers that words say.
ghost use Rattle.std.specs.Prelude.{◌≡◌, ◌≢◌, ◌≤◌, ◌<◌, ◌^◌, IfSome, Some};
ghost use Rattle.sg_words.specs.Numbers as spec;

/// The most rounds that a run may have, which it has where no number is given.
pub const MOST_ROUNDS: u64 = 68_719_476_736;

/// The most records of a drill.
pub const MOST_RECORDS: u64 = 100_000;

// The number with a digit more, unless it passes the highest one.
fn with_digit(most: u64, number: u64, byte: u8) -> Option<u64>
    requires most { most ≤ 2 ^ 36 }
    requires number { number ≤ most }
    ensures value { result ≡ spec.with_digit most number byte }
    ensures bound { IfSome result (λ n. n ≤ most) }
    ensures grows { IfSome result (λ n. number ≤ n) }
    ensures some { byte ≢ 48 → IfSome result (λ n. 0 < n) }
{
    if !byte.is_ascii_digit() {
        return None;
    }
    let next = number * 10 + u64::from(byte - b'0');
    if next > most {
        return None;
    }
    Some(next)
}

// The number with these digits behind it, unless it passes the highest one.
fn with_digits(most: u64, first: u64, text: &[u8]) -> Option<u64>
    requires most { most ≤ 2 ^ 36 }
    requires first { first ≤ most }
    requires some { 0 < first }
    ensures value { result ≡ spec.digits_behind most (Some first) text.now }
    ensures bound { IfSome result (λ n. n ≤ most) }
    ensures some { IfSome result (λ n. 0 < n) }
{
    let mut number = first;
    for byte in text {
        match with_digit(most, number, *byte) {
            Some(next) => number = next,
            None => return None,
        }
    }
    Some(number)
}

/// The number that a word says: decimal digits without a leading zero, from 1 to the highest number.
pub(crate) fn number_of(most: u64, text: &[u8]) -> Option<u64>
    requires { most ≤ 2 ^ 36 }
    ensures value { result ≡ spec.number_of most text.now }
    ensures bound { IfSome result (λ n. n ≤ most) }
    ensures some { IfSome result (λ n. 0 < n) }
{
    match text {
        [] => None,
        [b'0', ..] => None,
        [byte, rest @ ..] => match with_digit(most, 0, *byte) {
            Some(first) => with_digits(most, first, rest),
            None => None,
        },
    }
}
