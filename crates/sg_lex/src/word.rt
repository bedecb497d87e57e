// The bytes of words and names.
ghost use Rattle.std.specs.Prelude.{◌≡◌, ◌≤◌, length};
ghost use Rattle.std.specs.List.{prefix_len};
ghost use Rattle.sg_lex.specs.Tokens.{is_blank, is_name_byte, is_word_byte, begins_with, is_word_at, word_length, length_before};

use memchr::memchr;

pub fn is_blank(byte: u8) -> bool
    ensures { result ≡ is_blank byte }
{
    byte == b' ' || byte == b'\t' || byte == b'\r' || byte == b'\n'
}

fn is_name_byte(byte: u8) -> bool
    ensures { result ≡ is_name_byte byte }
{
    byte.is_ascii_alphanumeric() || byte == b'_' || byte == b'-'
}

fn is_word_byte(byte: u8) -> bool
    ensures { result ≡ is_word_byte byte }
{
    is_name_byte(byte) || byte == b'+' || byte == b'/'
}

pub fn begins_with(first: u8, text: &[u8]) -> bool
    ensures { result ≡ begins_with first text.now }
{
    match text {
        [] => false,
        [byte, ..] => *byte == first,
    }
}

fn is_word_at(before: u8, byte: u8, behind: &[u8]) -> bool
    ensures { result ≡ is_word_at before byte behind.now }
{
    if is_word_byte(byte) {
        return true;
    }
    byte == b'.' && before != b'.' && !begins_with(b'.', behind)
}

/// The bytes of the word at the front, 0 where none begins there.
pub fn word_length(before: u8, text: &[u8]) -> usize
    ensures value { result ≡ word_length before text.now }
    ensures bound { result ≤ length text.now }
{
    let mut last = before;
    let mut rest = text;
    let mut count = 0;
    while let [byte, behind @ ..] = rest {
        if !is_word_at(last, *byte, behind) {
            return count;
        }
        count += 1;
        last = *byte;
        rest = behind;
    }
    count
}

/// The bytes of the name at the front, 0 where none begins there.
pub fn name_length(text: &[u8]) -> usize
    ensures value { result ≡ prefix_len is_name_byte text.now }
    ensures bound { result ≤ length text.now }
{
    for (count, byte) in text.iter().enumerate() {
        if !is_name_byte(*byte) {
            return count;
        }
    }
    text.len()
}

/// The bytes before the first of this value, all where there is none.
pub fn length_before(byte: u8, text: &[u8]) -> usize
    ensures value { result ≡ length_before byte text.now }
    ensures bound { result ≤ length text.now }
{
    match memchr(byte, text) {
        Some(place) => place,
        None => text.len(),
    }
}
