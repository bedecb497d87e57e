// What an element refers to.
ghost use Rattle.std.specs.Prelude.{◌≡◌, IfOk};
ghost use Rattle.sg_parse_base.specs.Input.{ReadsTokens, any, behind};
ghost use Rattle.sg_parse_path.specs.References as spec;

use crate::tree::{RawElement, RawRef};
use sg_lex::{ConfigKind, Token};
use sg_parse_base::{Cursor, ParseStop, Spot, name, sees, sees_word, symbol};
use sg_parse_obj::{Object, Side, drivers, filter_body, parser_calls, rewrites};
use std::alloc::{AllocError, Global};

/// What an element refers to by a name.
#[derive(Clone, Copy, Drop)]
pub enum ReferenceKind {
    Source,
    Destination,
    Filter,
    Rewrite,
    Parser,
}

fn copied(token: &Token) -> Result<Token, AllocError>
    ensures { IfOk result (λ copy. copy ≡ token.now) }
{
    Ok(Token {
        kind: token.kind,
        file: token.file,
        line: token.line,
        column: token.column,
        text: token.text.copy()?,
    })
}

/// The next token, which isn't passed over.
#[tactic(auto, using(crate::proofs::Fronts::front_is, crate::proofs::Fronts::no_front, crate::proofs::Fronts::no_line))]
fn front(cursor: &Cursor<'_>) -> Result<Spot, ParseStop>
    ensures { ReadsTokens (any cursor.now) result (behind cursor.now) }
{
    let Some(token) = cursor.peek() else {
        return Err(cursor.fault(ConfigKind::Unexpected));
    };
    let Some(line) = cursor.line() else {
        return Err(cursor.fault(ConfigKind::Unexpected));
    };
    Ok(Spot {
        token: copied(token)?,
        at: line.at,
    })
}

#[tactic(auto, unfolding(crate::specs::References::body_of))]
fn body_of(
    alloc: Global,
    cursor: &mut Cursor<'_>,
    depth: usize,
    kind: ReferenceKind,
    name: Spot,
) -> Result<Object, ParseStop>
    ensures { ReadsTokens (spec.body_of depth kind name cursor.old) result cursor.new }
{
    match kind {
        ReferenceKind::Source => {
            let drivers = drivers(alloc, cursor, Side::Source)?;
            Ok(Object::Source { name, drivers })
        }
        ReferenceKind::Destination => {
            let drivers = drivers(alloc, cursor, Side::Destination)?;
            Ok(Object::Destination { name, drivers })
        }
        ReferenceKind::Filter => {
            let expr = filter_body(alloc, cursor, depth)?;
            Ok(Object::Filter { name, expr })
        }
        ReferenceKind::Rewrite => {
            let calls = rewrites(alloc, cursor, depth)?;
            Ok(Object::Rewrite { name, calls })
        }
        ReferenceKind::Parser => {
            let calls = parser_calls(alloc, cursor)?;
            Ok(Object::Parser { name, calls })
        }
    }
}

#[tactic(auto, unfolding(crate::specs::References::inline))]
fn inline(
    alloc: Global,
    cursor: &mut Cursor<'_>,
    depth: usize,
    kind: ReferenceKind,
) -> Result<RawRef, ParseStop>
    ensures { ReadsTokens (spec.inline depth kind cursor.old) result cursor.new }
{
    let brace = front(cursor)?;
    let object = body_of(alloc, cursor, depth, kind, brace)?;
    Ok(RawRef::Inline(object))
}

#[tactic(auto, unfolding(crate::specs::References::named))]
fn named(cursor: &mut Cursor<'_>) -> Result<RawRef, ParseStop>
    ensures { ReadsTokens (spec.named cursor.old) result cursor.new }
{
    symbol(cursor, b'(')?;
    let spot = name(cursor)?;
    symbol(cursor, b')')?;
    Ok(RawRef::Named(spot))
}

#[tactic(auto, unfolding(crate::specs::References::reference))]
fn reference(
    alloc: Global,
    cursor: &mut Cursor<'_>,
    depth: usize,
    kind: ReferenceKind,
) -> Result<RawRef, ParseStop>
    ensures { ReadsTokens (spec.reference depth kind cursor.old) result cursor.new }
{
    if sees(cursor, b'(') {
        return named(cursor);
    }
    if sees(cursor, b'{') {
        return inline(alloc, cursor, depth, kind);
    }
    Err(cursor.fault(ConfigKind::Unexpected))
}

#[tactic(auto, unfolding(crate::specs::References::element_of))]
fn element_of(kind: ReferenceKind, word: Spot, found: RawRef) -> RawElement
    ensures { result ≡ spec.element_of kind word found }
{
    match kind {
        ReferenceKind::Source => RawElement::Source(word, found),
        ReferenceKind::Destination => RawElement::Destination(found),
        ReferenceKind::Filter => RawElement::Filter(found),
        ReferenceKind::Rewrite => RawElement::Rewrite(found),
        ReferenceKind::Parser => RawElement::Parser(found),
    }
}

/// An element of this kind, whose word stands next.
#[tactic(auto, unfolding(crate::specs::References::referring))]
pub fn referring(
    alloc: Global,
    cursor: &mut Cursor<'_>,
    depth: usize,
    kind: ReferenceKind,
) -> Result<RawElement, ParseStop>
    ensures { ReadsTokens (spec.referring depth kind cursor.old) result cursor.new }
{
    let word = cursor.take()?;
    let found = reference(alloc, cursor, depth, kind)?;
    Ok(element_of(kind, word, found))
}

/// The kind whose word stands next.
#[tactic(auto, unfolding(crate::specs::References::kind_of))]
pub fn kind_of(cursor: &Cursor<'_>) -> Option<ReferenceKind>
    ensures { result ≡ spec.kind_of cursor.now }
{
    if sees_word(cursor, b"source") {
        Some(ReferenceKind::Source)
    } else if sees_word(cursor, b"destination") {
        Some(ReferenceKind::Destination)
    } else if sees_word(cursor, b"filter") {
        Some(ReferenceKind::Filter)
    } else if sees_word(cursor, b"rewrite") {
        Some(ReferenceKind::Rewrite)
    } else if sees_word(cursor, b"parser") {
        Some(ReferenceKind::Parser)
    } else {
        None
    }
}
