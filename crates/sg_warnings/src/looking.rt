// All tokens of a configuration, looked at one after the other.

use crate::effects::{look_at_filter, look_at_option};
use crate::paths::look_at_paths;
use crate::set_names::{SetNames, set_names};
use crate::texts::look_at_text;
use crate::unused::look_at_names;
use crate::warning::Warning;
use sg_device::NoMemory;
use sg_lex::Token;
use sg_listing::{OpenBrackets, spans};
use sg_parse_base::is_word;
use std::alloc::Global;

fn look_at_token(
    alloc: Global,
    tokens: &[Token],
    at: usize,
    around: &OpenBrackets,
    names: &SetNames,
    found: &mut Vec<Warning>,
) -> Result<(), NoMemory> {
    let Some(token) = tokens.get(at) else {
        return Ok(());
    };
    if is_word(token) {
        look_at_option(alloc, tokens, at, around, found)?;
        look_at_filter(alloc, tokens, at, found)?;
    }
    look_at_text(alloc, tokens, at, around, names, found)
}

fn look_at_tokens(
    alloc: Global,
    tokens: &[Token],
    found: &mut Vec<Warning>,
) -> Result<(), NoMemory> {
    let names = set_names(alloc, tokens)?;
    let mut around = OpenBrackets::new(alloc);
    for at in 0..tokens.len() {
        look_at_token(alloc, tokens, at, &around, &names, found)?;
        around.pass(&tokens[at], at)?;
    }
    Ok(())
}

/// What is warned of in a configuration's tokens.
pub fn look(alloc: Global, tokens: &[Token]) -> Result<Vec<Warning>, NoMemory> {
    let mut found = Vec::new(alloc);
    let spans = spans(alloc, tokens)?;
    look_at_tokens(alloc, tokens, &mut found)?;
    look_at_names(alloc, tokens, &spans, &mut found)?;
    look_at_paths(alloc, tokens, &spans, &mut found)?;
    Ok(found)
}
