// How often counts are told while a run goes on.
ghost use Rattle.sg_outside.specs.World.{OnlyReads};

use sg_lex::Token;
use sg_listing::{OpenBrackets, has_word, read_listing};
use sg_outside::Files;
use std::alloc::{AllocError, Global};

/// The greatest number of seconds: a day.
const MOST: u32 = 86_400;

// The number that these digits are, the greatest one where it is beyond that; none where they aren't digits.
fn seconds_of(text: &[u8]) -> Option<u32> {
    let mut seconds = 0u32;
    for byte in text {
        if !byte.is_ascii_digit() {
            return None;
        }
        let digit = u32::from(*byte).saturating_sub(48);
        seconds = seconds.saturating_mul(10).saturating_add(digit).min(MOST);
    }
    Some(seconds)
}

// Whether the next token is the number of `stats-freq(N)` or of `freq(N)` in `stats(..)`, of `options`.
fn is_freq(tokens: &[Token], around: &OpenBrackets) -> bool {
    let Some(object) = around.object(tokens) else {
        return false;
    };
    if !has_word(b"options", object) {
        return false;
    }
    around.is_in(tokens, 0, b"stats-freq")
        || (around.is_in(tokens, 0, b"freq") && around.is_in(tokens, 1, b"stats"))
}

fn last_freq(alloc: Global, tokens: &[Token]) -> Result<u32, AllocError> {
    let mut around = OpenBrackets::new(alloc);
    let mut found = 0u32;
    for at in 0..tokens.len() {
        if is_freq(tokens, &around) {
            if let Some(seconds) = seconds_of(tokens[at].text.bytes()) {
                found = seconds;
            }
        }
        around.pass(&tokens[at], at)?;
    }
    Ok(found)
}

fn freq_of<F: Files>(alloc: Global, files: &mut F, main: &[u8]) -> Result<u32, AllocError>
    ensures { OnlyReads (F.state files.old) (F.state files.new) }
{
    let listing = read_listing(alloc, files, main)?;
    last_freq(alloc, listing.tokens())
}

/// How many seconds pass between two reports of a run, as `stats-freq(N)` or `stats(freq(N))` of `options` asks last; 0 where none is asked for.
pub fn stats_freq<F: Files>(alloc: Global, files: &mut F, main: &[u8]) -> u32
    ensures { OnlyReads (F.state files.old) (F.state files.new) }
{
    match freq_of(alloc, files, main) {
        Ok(freq) => freq,
        Err(_) => 0,
    }
}
