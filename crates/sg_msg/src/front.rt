// The PRI at the front of a record.
ghost use Rattle.std.specs.Prelude.{◌≡◌, ◌+◌, ◌-◌, ◌≤◌, ◌<◌, true, length, IfSome};
ghost use Rattle.std.specs.List.{prefix_len};
ghost use Rattle.sg_msg.specs.Priority.{is_digit, has_at, at_most, priority_value, priority};

/// Whether the byte is an ASCII digit.
pub fn is_digit(byte: u8) -> bool
    ensures { result ≡ is_digit byte }
{
    byte >= b'0' && byte <= b'9'
}

fn digits_len(text: &[u8]) -> usize
    ensures value { result ≡ prefix_len is_digit text.now }
    ensures within { result ≤ length text.now }
{
    text.iter().take_while(|byte| is_digit(**byte)).count()
}

/// Whether the byte stands at this place of the text.
pub fn has_at(text: &[u8], place: usize, byte: u8) -> bool
    ensures value { result ≡ has_at text.now place byte }
    ensures within { result ≡ true → place < length text.now }
{
    match text.get(place) {
        Some(found) => *found == byte,
        None => false,
    }
}

fn at_most_191(value: u16) -> Option<u8>
    ensures value { result ≡ at_most 191 value }
    ensures range { IfSome result (λ value. value ≤ 191) }
{
    if value > 191 {
        return None;
    }
    Some(value as u8)
}

// What a digit counts.
fn digit(byte: u8) -> u16
    ensures value { result ≡ byte - 48 }
    ensures range { result < 256 }
{
    byte.saturating_sub(b'0') as u16
}

fn priority_value(digits: &[u8]) -> Option<u8>
    ensures value { result ≡ priority_value digits.now }
    ensures range { IfSome result (λ value. value ≤ 191) }
{
    match digits {
        [a] => at_most_191(digit(*a)),
        [a, b] => at_most_191(digit(*a) * 10 + digit(*b)),
        [a, b, c] => at_most_191(digit(*a) * 100 + digit(*b) * 10 + digit(*c)),
        _ => None,
    }
}

/// The PRI at the front of the text, 0 to 191, and how many bytes it takes: `<`, one to three digits
/// that come to at most 191, and `>` (RFC 3164, section 4.1.1; RFC 5424, section 6.2.1).
pub fn priority(text: &[u8]) -> Option<(u8, usize)>
    ensures value { result ≡ priority text.now }
    ensures range { IfSome result (λ read. (read.0 ≤ 191) × (read.1 ≤ length text.now)) }
{
    if !has_at(text, 0, b'<') {
        return None;
    }
    let digits = digits_len(&text[1..]);
    if !has_at(text, digits + 1, b'>') {
        return None;
    }
    let value = priority_value(&text[1..digits + 1])?;
    Some((value, digits + 2))
}
