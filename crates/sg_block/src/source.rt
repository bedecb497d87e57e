// The tokens of a file, with the places at which its brackets close.
ghost use Rattle.std.specs.Prelude.{◌≡◌, ◌+◌, ◌<◌, length, IfOk};
ghost use Rattle.sg_block.specs.Brackets.{EndsAt, EndsBehind, HasEnds, HasEndsFrom};

use crate::token::{Bracket, is_symbol, read_bracket};
use sg_device::NoMemory;
use sg_lex::Token;
use std::alloc::Global;

/// A file's tokens, and for each place the place of the first bracket from there on that closes one
/// opened before it: the number of tokens where what stands between isn't balanced, or none closes.
#[derive(Drop)]
pub struct FileTokens {
    pub tokens: Vec<Token>,
    pub ends: Vec<usize>,
}

/// The entry of a place, from those behind it.
fn end_at(tokens: &[Token], ends: &[usize], place: usize) -> usize
    requires place { place < length tokens.now }
    requires behind { HasEndsFrom tokens.now ends.now (place + 1) }
    ensures { EndsAt tokens.now result place }
{
    match read_bracket(&tokens[place]) {
        Bracket::Neither => ends[place + 1],
        Bracket::Closes(_) => place,
        Bracket::Opens(closing) => end_behind(tokens, ends, place, closing),
    }
}

/// The entry of the place of a bracket that this byte closes.
fn end_behind(tokens: &[Token], ends: &[usize], place: usize, closing: u8) -> usize
    requires place { place < length tokens.now }
    requires behind { HasEndsFrom tokens.now ends.now (place + 1) }
    ensures { EndsBehind tokens.now ends.now closing place result }
{
    let end = ends[place + 1];
    if end < tokens.len() && is_symbol(&tokens[end], closing) {
        ends[end + 1]
    } else {
        tokens.len()
    }
}

fn find_ends(alloc: Global, tokens: &[Token]) -> Result<Vec<usize>, NoMemory>
    ensures { IfOk result (λ ends. HasEnds tokens.now ends.items) }
{
    let count = tokens.len();
    let mut ends = vec![in alloc; count; count + 1]?;
    let mut place = count;
    while place > 0 {
        place -= 1;
        ends[place] = end_at(tokens, &ends, place);
    }
    Ok(ends)
}

impl FileTokens {
    pub fn new(alloc: Global, tokens: Vec<Token>) -> Result<FileTokens, NoMemory>
        ensures tokens { IfOk result (λ source. source.tokens.items ≡ tokens.items) }
        ensures ends { IfOk result (λ source. HasEnds tokens.items source.ends.items) }
    {
        let ends = find_ends(alloc, &tokens)?;
        Ok(FileTokens { tokens, ends })
    }
}
