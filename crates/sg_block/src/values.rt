// The values of variables and arguments, and strings that name them.
ghost use Rattle.std.specs.Prelude.{◌≡◌, ◌+◌, ◌<◌, ◌≤◌, List, ℕ, ◌++◌, length, drop, Some, IfOk, OnOk, option_copied};
ghost use Rattle.std.specs.FinMap as map;
ghost use Rattle.std.specs.List.{prefix_len};
ghost use Rattle.sg_lex.specs.Tokens.{is_name_byte};
ghost use Rattle.sg_block.specs.Values.{reached, tick_length, joined, spaced, variable_length, replaced, IsCapped, IsReplaced};

use crate::table::NameMap;
use sg_device::{Name, NoMemory};
use sg_lex::Token;
use sg_list::Seq;
use std::alloc::Global;

/// Values by name: tokens that are expanded already.
pub type Values = NameMap<Seq<Token>>;

/// What is reached by name: the arguments in reach, then the variables.
pub fn find<'a>(scope: &'a Values, variables: &'a Values, name: &[u8]) -> Option<&'a Seq<Token>>
    ensures { option_copied result ≡ reached scope.now variables.now name.now }
{
    match scope.get(name) {
        Some(value) => Some(value),
        None => variables.get(name),
    }
}

fn is_name_byte(byte: u8) -> bool
    ensures { result ≡ is_name_byte byte }
{
    byte.is_ascii_alphanumeric() || byte == b'_' || byte == b'-'
}

/// The bytes of the name at the front.
fn name_length(text: &[u8]) -> usize
    ensures value { result ≡ prefix_len is_name_byte text.now }
    ensures bound { result ≤ length text.now }
{
    for (count, byte) in text.iter().enumerate() {
        if !is_name_byte(*byte) {
            return count;
        }
    }
    text.len()
}

/// The bytes of the name at the front that a backtick closes: 0 where none stands there.
fn tick_length(text: &[u8]) -> usize
    ensures value { result ≡ tick_length text.now }
    ensures bound { result ≤ length text.now }
{
    let count = name_length(text);
    if count < text.len() && text[count] == b'`' {
        count
    } else {
        0
    }
}

/// A text in which variables are replaced.
#[derive(Drop)]
pub enum Replaced {
    /// It names a variable that has no value.
    Unknown,
    /// It has more bytes than there is room for.
    TooLong,
    Text(Name),
}

/// Puts bytes behind the others, where these aren't more than there is room for already.
fn push_capped(whole: &mut Vec<u8>, bytes: &[u8], room: u64) -> Result<(), NoMemory>
    ensures { OnOk result
        ((made : List ℕ) → IsCapped room made whole.old.items
        → IsCapped room (made ++ bytes.now) whole.new.items) }
{
    if whole.len() as u64 <= room {
        whole.extend_from_slice(bytes)?;
    }
    Ok(())
}

/// The texts of the tokens, each behind a space.
fn push_spaced(whole: &mut Vec<u8>, tokens: &[Token], room: u64) -> Result<(), NoMemory>
    ensures { OnOk result
        ((made : List ℕ) → IsCapped room made whole.old.items
        → IsCapped room (made ++ spaced tokens.now) whole.new.items) }
{
    for token in tokens {
        push_capped(whole, b" ", room)?;
        push_capped(whole, token.text.bytes(), room)?;
    }
    Ok(())
}

/// The texts of a value's tokens, with one space between them.
fn push_joined(whole: &mut Vec<u8>, value: &[Token], room: u64) -> Result<(), NoMemory>
    ensures { OnOk result
        ((made : List ℕ) → IsCapped room made whole.old.items
        → IsCapped room (made ++ joined value.now) whole.new.items) }
{
    if whole.len() as u64 > room {
        return Ok(());
    }
    let [first, others @ ..] = value else {
        return Ok(());
    };
    push_capped(whole, first.text.bytes(), room)?;
    push_spaced(whole, others, room)?;
    Ok(())
}

/// The bytes of a variable's name at a place of a text: 0 where a byte stands there for itself.
fn variable_at(text: &[u8], place: usize) -> usize
    requires { place < length text.now }
    ensures value { result ≡ variable_length (drop place text.now) }
    ensures bound { place + result < length text.now }
{
    if text[place] == b'`' {
        tick_length(&text[place + 1..])
    } else {
        0
    }
}

fn whole_text(whole: Vec<u8>, room: u64) -> Replaced
    ensures { (made : List ℕ) → IsCapped room made whole.items
        → IsReplaced room (Some made) result }
{
    if whole.len() as u64 > room {
        return Replaced::TooLong;
    }
    Replaced::Text(Name::from_vec(whole))
}

/// A string with each name between backticks replaced by its value.
pub fn replace(
    alloc: Global,
    scope: &Values,
    variables: &Values,
    text: &[u8],
    room: u64,
) -> Result<Replaced, NoMemory>
    ensures { IfOk result
        (λ found. IsReplaced room (replaced scope.now variables.now 0 text.now) found) }
{
    let mut whole = Vec::new(alloc);
    let mut place = 0;
    while place < text.len() {
        let count = variable_at(text, place);
        if count == 0 {
            push_capped(&mut whole, &text[place..place + 1], room)?;
            place += 1;
        } else {
            let name = &text[place + 1..place + 1 + count];
            match find(scope, variables, name) {
                Some(value) => push_joined(&mut whole, value.as_slice(), room)?,
                None => return Ok(Replaced::Unknown),
            }
            place += count + 2;
        }
    }
    Ok(whole_text(whole, room))
}
