// The content of strings.
ghost use Rattle.std.specs.Prelude.{◌≡◌, ◌+◌, ◌<◌, ◌≤◌, length, IfOk};
ghost use Rattle.std.specs.Option.{SomeIff, ForSome};
ghost use Rattle.std.specs.Char.{digit_value};
ghost use Rattle.sg_lex.specs.Tokens.{two_digits, hexadecimal, escaped_letter, escape, double_quoted, single_quoted};

use crate::word::length_before;
use sg_device::{Name, NoMemory};
use std::alloc::Global;

/// What a backslash stands for with some bytes behind it, and how many these are.
#[derive(Clone, Copy)]
pub struct Escape {
    pub byte: u8,
    pub count: usize,
}

/// A string's content, and how many bytes spell it behind its first quote, the one that closes it
/// included.
#[derive(Drop)]
pub struct Quoted {
    pub text: Name,
    pub count: usize,
}

fn digit_of(byte: u8) -> Option<u8>
    ensures { SomeIff result (digit_value byte < 16) (digit_value byte) }
{
    match char::from(byte).to_digit(16) {
        Some(digit) => Some(digit as u8),
        None => None,
    }
}

fn two_digits(first: u8, behind: &[u8]) -> Escape
    requires { first < 16 }
    ensures { result ≡ two_digits first behind.now }
{
    let one = Escape {
        byte: first,
        count: 2,
    };
    let [next, ..] = behind else {
        return one;
    };
    match digit_of(*next) {
        Some(digit) => Escape {
            byte: first * 16 + digit,
            count: 3,
        },
        None => one,
    }
}

fn hexadecimal(behind: &[u8]) -> Escape
    ensures { result ≡ hexadecimal behind.now }
{
    let letter = Escape {
        byte: b'x',
        count: 1,
    };
    let [first, after @ ..] = behind else {
        return letter;
    };
    match digit_of(*first) {
        Some(digit) => two_digits(digit, after),
        None => letter,
    }
}

fn escaped_letter(byte: u8) -> u8
    ensures { result ≡ escaped_letter byte }
{
    match byte {
        b'n' => b'\n',
        b'r' => b'\r',
        b't' => b'\t',
        b'a' => 7,
        b'v' => 11,
        _ => byte,
    }
}

fn read_escape(behind: &[u8]) -> Escape
    ensures value { result ≡ escape behind.now }
    ensures bound { result.count ≤ 3 }
{
    match behind {
        [] => Escape {
            byte: b'\\',
            count: 0,
        },
        [b'x', after @ ..] => hexadecimal(after),
        [byte, ..] => Escape {
            byte: escaped_letter(*byte),
            count: 1,
        },
    }
}

/// The string in double quotes whose first quote stands before the text, if it is closed.
pub fn double_quoted(alloc: Global, text: &[u8]) -> Result<Option<Quoted>, NoMemory>
    ensures value { IfOk result (λ quoted. quoted ≡ double_quoted 0 text.now) }
    ensures bound { IfOk result
        (λ quoted. ForSome quoted (λ found. found.count ≤ length text.now)) }
{
    let mut content = Vec::new(alloc);
    let mut place = 0;
    while place < text.len() {
        let byte = text[place];
        place += 1;
        if byte == b'"' {
            return Ok(Some(Quoted {
                text: Name::from_vec(content),
                count: place,
            }));
        }
        if byte == b'\\' {
            let escape = read_escape(&text[place..]);
            content.push(escape.byte)?;
            place += escape.count;
        } else {
            content.push(byte)?;
        }
    }
    Ok(None)
}

/// The string in single quotes whose first quote stands before the text, if it is closed.
pub fn single_quoted(alloc: Global, text: &[u8]) -> Result<Option<Quoted>, NoMemory>
    ensures value { IfOk result (λ quoted. quoted ≡ single_quoted text.now) }
    ensures bound { IfOk result
        (λ quoted. ForSome quoted (λ found. found.count ≤ length text.now)) }
{
    let length = length_before(b'\'', text);
    if length == text.len() {
        return Ok(None);
    }
    Ok(Some(Quoted {
        text: Name::new(alloc, &text[..length])?,
        count: length + 1,
    }))
}
