// How much a configuration may have of what it has too much of.

use sg_lex::Token;
use sg_listing::{has_word, object_at, opening_before};

/// The limits, in the words of CONFIGURATION.
const INLETS: &[u8] =
    b"at most 128 inlets are taken: source files, and max-connections() of each listener";

const DRIVERS: &[u8] = b"at most 64 drivers of destinations are taken";

const EXPRESSIONS: &[u8] =
    b"at most 4,096 filters and comparisons in an expression are taken and 65,536 in all, those that it names among them";

const OFFERS: &[u8] =
    b"a record may come to 1,024 deliveries, whatever filters let through, and as many messages to a place of a path";

const PATTERNS: &[u8] =
    b"all regular expressions together may count 256 MiB, each 67 KiB at least, and one may take 10 MiB";

fn is_of(kind: Option<&[u8]>, words: &[u8]) -> bool {
    match kind {
        Some(kind) => has_word(words, kind),
        None => false,
    }
}

// The kind of the body that is open before this place.
fn kind_before(tokens: &[Token], at: usize) -> Option<&[u8]> {
    object_at(tokens, opening_before(tokens, at)?)
}

/// What there is too much of, where the token of this place is one too many.
pub fn limit_at(tokens: &[Token], at: usize) -> &'static [u8] {
    let kind = kind_before(tokens, at);
    if is_of(kind, b"source") {
        return INLETS;
    }
    if is_of(kind, b"destination") {
        return DRIVERS;
    }
    EXPRESSIONS
}

pub fn offers_limit() -> &'static [u8] {
    OFFERS
}

pub fn patterns_limit() -> &'static [u8] {
    PATTERNS
}
