// The forms of definitions and uses of blocks, as they are written.
ghost use Rattle.std.specs.Prelude.{◌≡◌, ◌<◌, ◌≤◌, length, IfOk, IfSome, IsTrue};
ghost use Rattle.std.specs.List.{prefix_len};
ghost use Rattle.sg_list.specs.Lists.{passes_at};
ghost use Rattle.sg_block.specs.Tokens.{is_symbol, is_block_word, is_block_type};
ghost use Rattle.sg_block.specs.Forms.{separated, next_argument, TakesArgument, arguments, begins_definition, with_body, definition, use_form};
ghost use Rattle.sg_block.specs.Brackets.{bracketed};

use crate::argument::{Argument, Arguments};
use crate::part::TokenSpan;
use crate::token::{is_block_type, is_block_word};
use sg_device::{Name, NoMemory};
use std::alloc::Global;

/// A block's definition, and the tokens behind it.
#[derive(Drop)]
pub struct Definition {
    pub name: Name,
    /// Of the arguments of one name the last.
    pub parameters: Arguments,
    /// The tokens between the parentheses, as they are written.
    pub written: TokenSpan,
    pub body: TokenSpan,
    pub behind: TokenSpan,
}

/// The commas at the front.
fn commas(tokens: &TokenSpan) -> usize
    ensures value { result ≡ prefix_len (is_symbol 44) tokens.now }
    ensures bound { result ≤ length tokens.now }
{
    for count in 0..tokens.len() {
        if !tokens.is_symbol_at(count, b',') {
            return count;
        }
    }
    tokens.len()
}

/// The tokens behind any commas: none where commas end the tokens.
fn separated(tokens: TokenSpan) -> Option<TokenSpan>
    ensures value { result ≡ separated tokens }
    ensures shorter { IfSome result (λ rest. length rest ≤ length tokens) }
{
    let count = commas(&tokens);
    if count > 0 && count == tokens.len() {
        return None;
    }
    Some(tokens.behind(count))
}

/// The argument at the front, and what stands behind it and its commas.
fn next_argument(
    alloc: Global,
    tokens: &TokenSpan,
) -> Result<Option<(Argument, TokenSpan)>, NoMemory>
    ensures value { IfOk result (λ found. found ≡ next_argument tokens.now) }
    ensures shorter { IfOk result
        (λ found. IfSome found (λ next. length next.1 < length tokens.now)) }
{
    if !tokens.is_word_at(0) {
        return Ok(None);
    }
    let Some((inner, behind)) = tokens.bracketed(b'(', b')', 1)? else {
        return Ok(None);
    };
    let Some(rest) = separated(behind) else {
        return Ok(None);
    };
    let argument = Argument {
        name: Name::new(alloc, tokens.text(0))?,
        tokens: inner,
    };
    Ok(Some((argument, rest)))
}

/// Takes the argument at the front off, and puts it behind the others: false where none stands there.
fn take_argument(
    alloc: Global,
    found: &mut Arguments,
    rest: &mut TokenSpan,
) -> Result<bool, NoMemory>
    ensures { IfOk result (TakesArgument found.old rest.old found.new rest.new) }
{
    match next_argument(alloc, rest)? {
        Some((argument, behind)) => {
            found.push(argument)?;
            *rest = behind;
            Ok(true)
        }
        None => Ok(false),
    }
}

/// The arguments that the tokens are: none where something else stands there.
pub fn arguments(alloc: Global, tokens: TokenSpan) -> Result<Option<Arguments>, NoMemory>
    ensures { IfOk result (λ found. found ≡ arguments tokens) }
{
    let mut found = Arguments::new(alloc);
    let mut rest = tokens;
    'items: while !rest.is_empty() {
        if !take_argument(alloc, &mut found, &mut rest)? {
            return Ok(None);
        }
    }
    Ok(Some(found))
}

fn is_block_word_at(tokens: &TokenSpan, place: usize) -> bool
    ensures { result ≡ passes_at tokens.now place is_block_word }
{
    match tokens.get(place) {
        Some(token) => is_block_word(token),
        None => false,
    }
}

fn is_block_type_at(tokens: &TokenSpan, place: usize) -> bool
    ensures { result ≡ passes_at tokens.now place is_block_type }
{
    match tokens.get(place) {
        Some(token) => is_block_type(token),
        None => false,
    }
}

fn begins_definition(tokens: &TokenSpan) -> bool
    ensures value { result ≡ begins_definition tokens.now }
    ensures within { IsTrue result → 2 < length tokens.now }
{
    is_block_word_at(tokens, 0) && is_block_type_at(tokens, 1) && tokens.is_name_at(2)
}

/// The definition with these arguments, and with the body that stands at the front of the rest.
fn with_body(
    alloc: Global,
    name: &[u8],
    given: TokenSpan,
    rest: &TokenSpan,
) -> Result<Option<Definition>, NoMemory>
    ensures { IfOk result (λ found. found
        ≡ with_body name.now given (arguments given) (bracketed 123 125 rest.now 0)) }
{
    let Some((body, behind)) = rest.bracketed(b'{', b'}', 0)? else {
        return Ok(None);
    };
    if !behind.is_symbol_at(0, b';') {
        return Ok(None);
    }
    let Some(parameters) = arguments(alloc, given.share()?)? else {
        return Ok(None);
    };
    Ok(Some(Definition {
        name: Name::new(alloc, name)?,
        parameters: parameters.last_named(alloc)?,
        written: given,
        body,
        behind: behind.behind(1),
    }))
}

/// The definition at the front, if one stands there.
pub fn read_definition(alloc: Global, tokens: &TokenSpan) -> Result<Option<Definition>, NoMemory>
    ensures { IfOk result (λ found. found ≡ definition tokens.now) }
{
    if !begins_definition(tokens) {
        return Ok(None);
    }
    let Some((given, rest)) = tokens.bracketed(b'(', b')', 3)? else {
        return Ok(None);
    };
    with_body(alloc, tokens.text(2), given, &rest)
}

/// The arguments that are given behind the word at the front, and the tokens behind them.
pub fn use_form(
    alloc: Global,
    tokens: &TokenSpan,
) -> Result<Option<(Arguments, TokenSpan)>, NoMemory>
    ensures { IfOk result (λ found. found ≡ use_form tokens.now) }
{
    let Some((inner, behind)) = tokens.bracketed(b'(', b')', 1)? else {
        return Ok(None);
    };
    let Some(given) = arguments(alloc, inner)? else {
        return Ok(None);
    };
    Ok(Some((given, behind)))
}
