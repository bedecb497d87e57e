// Whether two texts are the same.
ghost use Rattle.std.specs.Prelude.{◌≡◌, ◌↔◌, true, bytes_eq};

// From so many bytes on they are compared eight at a time; fewer one after another, since most that
// differ do in their first byte.
const LONG: usize = 16;

/// Whether both are the same bytes.
pub fn is_same(a: &[u8], b: &[u8]) -> bool
    ensures value { result ≡ bytes_eq a.now b.now }
    ensures same { result ≡ true → a.now ≡ b.now }
{
    if a.len() != b.len() {
        return false;
    }
    if a.len() >= LONG {
        return is_same_long(a, b);
    }
    is_same_short(a, b)
}

/// Whether both are the same eight bytes.
pub(crate) fn are_same_eight(a: &[u8; 8], b: &[u8; 8]) -> bool
    ensures { (result ≡ true) ↔ (a.now ≡ b.now) }
{
    u64::from_le_bytes(*a) == u64::from_le_bytes(*b)
}

fn is_same_long(a: &[u8], b: &[u8]) -> bool
    ensures { result ≡ bytes_eq a.now b.now }
{
    match (a.split_first_chunk::<8>(), b.split_first_chunk::<8>()) {
        (Some((first, rest)), Some((other, others))) => {
            are_same_eight(first, other) && is_same_long(rest, others)
        }
        _ => is_same_short(a, b),
    }
}

fn is_same_short(a: &[u8], b: &[u8]) -> bool
    ensures { result ≡ bytes_eq a.now b.now }
{
    match a {
        [] => b.is_empty(),
        [first, rest @ ..] => match b {
            [] => false,
            [other, others @ ..] => *first == *other && is_same_short(rest, others),
        },
    }
}
