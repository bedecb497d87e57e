// What stands in parentheses and has no effect.
ghost use Rattle.std.specs.Prelude.{◌≡◌, [], ◌∷◌, reverse, MatchOption, ◌++◌, List, ℕ, IfOk, Result};
ghost use Rattle.sg_parse_base.specs.Input.{ReadsTokens};
ghost use Rattle.sg_parse_base.specs.Skipping.{bracket, next_bracket, open_behind, skipped, AreBracketsBehind};

use crate::cursor::{Cursor, symbol};
use crate::fault::ParseStop;
use crate::token::is_symbol;
use sg_lex::{ConfigKind, Token};
use sqlite_items::Items;
use std::alloc::{AllocError, Global};

/// What a token does to the brackets that are open.
#[derive(Clone, Copy, Drop)]
pub enum BracketEffect {
    /// It opens one, which this byte closes.
    Opens(u8),
    /// It closes the one that this byte closes.
    Closes(u8),
    Neither,
}

fn read_bracket(token: &Token) -> BracketEffect
    ensures { result ≡ bracket token.now }
{
    if is_symbol(token, b')') {
        return BracketEffect::Closes(b')');
    }
    if is_symbol(token, b'}') {
        return BracketEffect::Closes(b'}');
    }
    if is_symbol(token, b'(') {
        return BracketEffect::Opens(b')');
    }
    if is_symbol(token, b'{') {
        return BracketEffect::Opens(b'}');
    }
    BracketEffect::Neither
}

fn next_bracket(cursor: &Cursor<'_>) -> BracketEffect
    ensures { result ≡ next_bracket cursor.now }
{
    match cursor.peek() {
        Some(token) => read_bracket(token),
        None => BracketEffect::Neither,
    }
}

/// Changes the open brackets, the innermost last, by a token, and says whether it may stand there.
fn pass(open_ones: &mut Items<u8>, bracket: BracketEffect) -> Result<bool, AllocError>
    ensures { IfOk result
        (λ b. AreBracketsBehind (open_behind bracket (reverse open_ones.old))
        (reverse open_ones.new) b) }
{
    match bracket {
        BracketEffect::Opens(byte) => {
            open_ones.push(byte)?;
            Ok(true)
        }
        BracketEffect::Closes(byte) => match open_ones.pop() {
            Some(last) => Ok(last == byte),
            None => Ok(false),
        },
        BracketEffect::Neither => Ok(true),
    }
}

/// Passes over parentheses and whatever tokens stand in them, of which the brackets `(` `)` and `{` `}`
/// must be balanced: one that closes no open bracket of its kind is `Unexpected`.
pub fn skipped(alloc: Global, cursor: &mut Cursor<'_>) -> Result<(), ParseStop>
    ensures { ReadsTokens (skipped cursor.old) result cursor.new }
{
    symbol(cursor, b'(')?;
    let mut open_ones = Items::new(alloc);
    open_ones.push(b')')?;
    for _turn in 0..cursor.left() {
        if !pass(&mut open_ones, next_bracket(cursor))? {
            return Err(cursor.fault(ConfigKind::Unexpected));
        }
        cursor.skip();
        if open_ones.is_empty() {
            return Ok(());
        }
    }
    Err(cursor.fault(ConfigKind::Unexpected))
}
