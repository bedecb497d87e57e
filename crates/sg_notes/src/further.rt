// What is wrong with statements other than the first faulty one.

use crate::plain::append_plain;
use sg_device::NoMemory;
use sg_hint::{Numbered, fault_again};
use sg_lex::{ConfigFault, Token};
use sg_listing::{Location, Span, is_same_name, name_of, spans};
use sg_parse_base::is_symbol;
use sg_pattern::Patterns;
use std::alloc::Global;

/// How many faults are told at most, the first one among them.
const MOST: usize = 11;
/// How many names of statements that are left out are looked for at most.
const NAMES: usize = 16;
/// How often the statements are looked at for such names.
const TURNS: usize = 16;

/// The fault, where its token was written, and the notes on it that show no other place.
#[derive(Drop)]
pub struct Further {
    pub fault: ConfigFault,
    pub at: Location,
    pub notes: Vec<u8>,
}

/// What is wrong with the tokens first, where there are so few that a fault's line can be the number of each.
pub fn fault_of(
    alloc: Global,
    patterns: &mut Patterns,
    tokens: &[Token],
) -> Result<Option<ConfigFault>, NoMemory> {
    if tokens.len() > u32::MAX as usize {
        return Ok(None);
    }
    fault_again(alloc, patterns, tokens)
}

// The place of the token with this number.
fn place_of(tokens: &[Token], number: u32) -> Option<usize> {
    tokens.iter().position(|token| token.line == number)
}

fn located(tokens: &[Token], lines: &[u32], fault: ConfigFault, notes: Vec<u8>) -> Option<Further> {
    let token = tokens.get(place_of(tokens, fault.line)?)?;
    let line = *lines.get((fault.line as usize).saturating_sub(1))?;
    Some(Further {
        fault: ConfigFault {
            kind: fault.kind,
            file: fault.file,
            line,
        },
        at: Location {
            file: token.file,
            line,
            column: token.column,
        },
        notes,
    })
}

fn is_left_out(out: &[bool], at: usize) -> bool {
    match out.get(at) {
        Some(out) => *out,
        None => false,
    }
}

fn is_named(other: Option<(&[u8], &[u8])>, name: (&[u8], &[u8])) -> bool {
    match other {
        Some(other) => is_same_name(other, name),
        None => false,
    }
}

// Whether a statement that isn't left out has this kind and name.
fn is_defined(tokens: &[Token], all: &[Span], out: &[bool], name: (&[u8], &[u8])) -> bool {
    for (at, span) in all.iter().enumerate() {
        if !is_left_out(out, at) && is_named(name_of(tokens, span.first), name) {
            return true;
        }
    }
    false
}

// Whether the statement that begins at this place is left out, and no other one has its kind and name.
fn is_lacking(tokens: &[Token], all: &[Span], out: &[bool], first: usize) -> bool {
    match name_of(tokens, first) {
        Some(name) => !is_defined(tokens, all, out, name),
        None => false,
    }
}

// The first tokens of statements that are left out, whose names no other statement has.
fn lacking(
    alloc: Global,
    tokens: &[Token],
    all: &[Span],
    out: &[bool],
) -> Result<Vec<usize>, NoMemory> {
    let mut found = Vec::new(alloc);
    for (at, span) in all.iter().enumerate() {
        if found.len() <= NAMES
            && is_left_out(out, at)
            && is_lacking(tokens, all, out, span.first)
        {
            found.push(span.first)?;
        }
    }
    Ok(found)
}

// What the token in front of an opening parenthesis and the one behind it name.
fn named_at(tokens: &[Token], at: usize) -> Option<(&[u8], &[u8])> {
    let opening = tokens.get(at.saturating_add(1))?;
    if !is_symbol(opening, b'(') {
        return None;
    }
    let kind = tokens.get(at)?;
    let name = tokens.get(at.saturating_add(2))?;
    Some((kind.text.bytes(), name.text.bytes()))
}

// Whether this place names one of these statements.
fn names_at(tokens: &[Token], at: usize, lacking: &[usize]) -> bool {
    let Some(name) = named_at(tokens, at) else {
        return false;
    };
    for first in lacking {
        if is_named(name_of(tokens, *first), name) {
            return true;
        }
    }
    false
}

// Whether the statement names one of these.
fn names_any(tokens: &[Token], span: Span, lacking: &[usize]) -> bool {
    for at in span.first..span.end {
        if names_at(tokens, at, lacking) {
            return true;
        }
    }
    false
}

// The statements that are left out, and those that name one of them.
fn with_naming(
    alloc: Global,
    tokens: &[Token],
    all: &[Span],
    out: &[bool],
    lacking: &[usize],
) -> Result<Vec<bool>, NoMemory> {
    let mut next = Vec::new(alloc);
    for (at, span) in all.iter().enumerate() {
        next.push(is_left_out(out, at) || names_any(tokens, *span, lacking))?;
    }
    Ok(next)
}

// The statement with the token of this place.
fn with_token(alloc: Global, all: &[Span], at: usize) -> Result<Vec<bool>, NoMemory> {
    let mut out = Vec::new(alloc);
    for span in all {
        out.push(span.first <= at && at < span.end)?;
    }
    Ok(out)
}

fn count(out: &[bool]) -> usize {
    out.iter().filter(|out| **out).count()
}

// The statements that are left out with the one that has the token of this place; all of them where there would be many.
fn left_out(
    alloc: Global,
    tokens: &[Token],
    all: &[Span],
    at: usize,
) -> Result<Option<Vec<bool>>, NoMemory> {
    let mut out = with_token(alloc, all, at)?;
    for _turn in 0..TURNS {
        let lacking = lacking(alloc, tokens, all, &out)?;
        if lacking.len() > NAMES {
            return Ok(None);
        }
        let next = with_naming(alloc, tokens, all, &out, &lacking)?;
        if count(&next) == count(&out) {
            return Ok(Some(out));
        }
        out = next;
    }
    Ok(None)
}

// The number of the statement in which the token of this place stands, where the one before it stands in that of this number.
fn span_from(all: &[Span], number: usize, place: usize) -> usize {
    match all.get(number) {
        Some(span) if place >= span.end => number.saturating_add(1),
        _ => number,
    }
}

// The tokens without the statement in which the one of this place stands, and without those that name it; none where these would be
// many.
fn without(alloc: Global, tokens: Vec<Token>, at: usize) -> Result<Vec<Token>, NoMemory> {
    let all = spans(alloc, &tokens)?;
    let Some(out) = left_out(alloc, &tokens, &all, at)? else {
        return Ok(Vec::new(alloc));
    };
    let mut kept = Vec::new(alloc);
    let mut place = 0usize;
    let mut number = 0usize;
    for token in tokens {
        number = span_from(&all, number, place);
        if !is_left_out(&out, number) {
            kept.push(token)?;
        }
        place = place.saturating_add(1);
    }
    Ok(kept)
}

/// What is wrong first, and what is wrong with other statements, up to ten faults: each time the statement with the last fault is
/// left out, and those that name it.
pub fn further_faults(alloc: Global, list: Numbered) -> Result<Vec<Further>, NoMemory> {
    let Numbered {
        tokens,
        lines,
        count: _,
    } = list;
    let mut tokens = tokens;
    let mut patterns = Patterns::new(alloc);
    let mut found = Vec::new(alloc);
    for _turn in 0..MOST {
        let Some(fault) = fault_of(alloc, &mut patterns, &tokens)? else {
            break;
        };
        let Some(at) = place_of(&tokens, fault.line) else {
            break;
        };
        let mut notes = Vec::new(alloc);
        append_plain(&tokens, fault.kind, at, &mut notes)?;
        let Some(further) = located(&tokens, &lines, fault, notes) else {
            break;
        };
        found.push(further)?;
        tokens = without(alloc, tokens, at)?;
    }
    Ok(found)
}
