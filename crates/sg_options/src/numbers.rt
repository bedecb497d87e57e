// Numbers as options write them.
ghost use Rattle.std.specs.Prelude.{◌≡◌, ◌≤◌, IfSome};
ghost use Rattle.sg_options.specs.Numbers as spec;

/// The numbers from the one to the other, both included.
#[derive(Clone, Copy, Drop)]
pub struct Range {
    pub low: u32,
    pub high: u32,
}

// The number behind a digit more of that base, unless it passes the highest one.
fn number_behind(base: u8, high: u32, number: u32, byte: u8) -> Option<u32>
    requires { base ≤ 10 }
    ensures value { result ≡ spec.number_behind base high number byte }
    ensures bound { IfSome result (λ n. n ≤ high) }
{
    if byte < b'0' || byte >= b'0' + base {
        return None;
    }
    let next = u64::from(number) * u64::from(base) + u64::from(byte - b'0');
    if next > u64::from(high) {
        return None;
    }
    Some(next as u32)
}

// The number that these digits spell, unless it passes the highest one.
pub(crate) fn number_to(base: u8, high: u32, text: &[u8]) -> Option<u32>
    requires { base ≤ 10 }
    ensures value { result ≡ spec.number_to base high text.now }
    ensures bound { IfSome result (λ n. n ≤ high) }
{
    if text.is_empty() {
        return None;
    }
    let mut number = 0;
    for byte in text {
        match number_behind(base, high, number, *byte) {
            Some(next) => number = next,
            None => return None,
        }
    }
    Some(number)
}

/// The number that these decimal digits spell, where it is in the range.
pub fn number_in(text: &[u8], range: Range) -> Option<u32>
    ensures value { result ≡ spec.number_in range text.now }
    ensures bound { IfSome result (λ n. (range.low ≤ n) × (n ≤ range.high)) }
{
    match number_to(10, range.high, text) {
        Some(number) if number >= range.low => Some(number),
        _ => None,
    }
}

/// The mode of a file: three or four octal digits.
pub fn mode_of(text: &[u8]) -> Option<u16>
    ensures { result ≡ spec.mode_of text.now }
{
    if text.len() != 3 && text.len() != 4 {
        return None;
    }
    match number_to(8, 0o7777, text) {
        Some(mode) => Some(mode as u16),
        None => None,
    }
}
