// Paths, by recursive descent.
ghost use Rattle.std.specs.Prelude.{◌≡◌, IfOk};
ghost use Rattle.sg_parse_base.specs.Input.{ReadsTokens};
ghost use Rattle.sg_parse_base.specs.Lists.{body};
ghost use Rattle.sg_parse_path.specs.Paths as spec;

use crate::flag::PathFlag;
use crate::reference::{kind_of, referring};
use crate::tree::{RawBranch, RawElement, RawLog};
use sg_lex::ConfigKind;
use sg_parse_base::{Cursor, ParseStop, Spot, ending, many, sees, sees_word, symbol};
use sg_parse_expr::{RawExpr, expression};
use sqlite_items::Items;
use std::alloc::{AllocError, Global};

/// What may stand in braces from a place on.
#[derive(Clone, Copy, Drop)]
pub enum Stage {
    /// Elements, then embedded statements, then flags.
    All,
    /// Elements alone: in a branch.
    Branch,
    /// Embedded statements, then flags.
    Embedded,
    Nothing,
}

/// One of the things that stand in braces.
#[derive(Drop)]
pub enum PathItem {
    Element(RawElement),
    Embedded(RawLog),
    Flags(Items<Spot>),
}

/// What stands in braces.
#[derive(Drop)]
pub struct RawPath {
    pub elements: Items<RawElement>,
    pub embedded: Items<RawLog>,
    pub flags: Items<Spot>,
}

fn empty_path(alloc: Global) -> RawPath
    ensures { result ≡ spec.empty_path }
{
    RawPath {
        elements: Items::new(alloc),
        embedded: Items::new(alloc),
        flags: Items::new(alloc),
    }
}

fn with_piece(mut path: RawPath, piece: PathItem) -> Result<RawPath, AllocError>
    ensures { IfOk result (λ new. new ≡ spec.with_piece path piece) }
{
    match piece {
        PathItem::Element(element) => path.elements.push(element)?,
        PathItem::Embedded(embedded) => path.embedded.push(embedded)?,
        PathItem::Flags(flags) => path.flags = flags,
    }
    Ok(path)
}

fn stage_behind(stage: Stage, piece: &PathItem) -> Stage
    ensures { result ≡ spec.stage_behind stage piece.now }
{
    match piece {
        PathItem::Element(_) => stage,
        PathItem::Embedded(_) => Stage::Embedded,
        PathItem::Flags(_) => Stage::Nothing,
    }
}

fn takes_elements(stage: Stage) -> bool
    ensures { result ≡ spec.takes_elements stage }
{
    match stage {
        Stage::All => true,
        Stage::Branch => true,
        Stage::Embedded => false,
        Stage::Nothing => false,
    }
}

fn takes_ends(stage: Stage) -> bool
    ensures { result ≡ spec.takes_ends stage }
{
    match stage {
        Stage::All => true,
        Stage::Branch => false,
        Stage::Embedded => true,
        Stage::Nothing => false,
    }
}

#[tactic(auto, unfolding(crate::specs::Paths::log_of))]
fn log_of(word: Spot, path: RawPath) -> RawLog
    ensures { result ≡ spec.log_of word path }
{
    RawLog {
        word,
        elements: path.elements,
        embedded: path.embedded,
        flags: path.flags,
    }
}

#[tactic(auto, unfolding(crate::specs::Paths::branch_of))]
fn branch_of(test: RawExpr, path: RawPath) -> RawBranch
    ensures { result ≡ spec.branch_of test path }
{
    RawBranch {
        test,
        elements: path.elements,
    }
}

/// A word, and a path in braces.
#[tactic(auto, unfolding(crate::specs::Paths::worded))]
#[cycle(path)]
fn worded(
    alloc: Global,
    cursor: &mut Cursor<'_>,
    depth: usize,
    word: &[u8],
) -> Result<RawLog, ParseStop>
    ensures { ReadsTokens (spec.worded (spec.block depth) word.now cursor.old) result cursor.new }
{
    if !sees_word(cursor, word) {
        return Err(cursor.fault(ConfigKind::Unexpected));
    }
    let spot = cursor.take()?;
    let path = block(alloc, cursor, depth, Stage::All)?;
    Ok(log_of(spot, path))
}

/// The channels of a junction, in braces.
#[cycle(path)]
fn channels(
    alloc: Global,
    cursor: &mut Cursor<'_>,
    depth: usize,
) -> Result<Items<RawLog>, ParseStop>
    ensures { ReadsTokens (body (spec.channel (spec.block depth)) cursor.old) result cursor.new }
{
    let mut found = Items::new(alloc);
    symbol(cursor, b'{')?;
    for _turn in 0..cursor.left() {
        if sees(cursor, b'}') {
            cursor.skip();
            return Ok(found);
        }
        if sees(cursor, b';') {
            cursor.skip();
            continue;
        }
        found.push(worded(alloc, cursor, depth, b"channel")?)?;
        ending(cursor)?;
    }
    Err(cursor.fault(ConfigKind::Unexpected))
}

/// `if` or `elif`, which stands next, its condition and its branch.
#[tactic(auto, unfolding(crate::specs::Paths::arm))]
#[cycle(path)]
fn arm(alloc: Global, cursor: &mut Cursor<'_>, depth: usize) -> Result<RawBranch, ParseStop>
    ensures { ReadsTokens (spec.arm depth (spec.block depth) cursor.old) result cursor.new }
{
    let refused = cursor.fault(ConfigKind::Unsupported);
    cursor.skip();
    if sees(cursor, b'{') {
        return Err(refused);
    }
    symbol(cursor, b'(')?;
    let test = expression(alloc, cursor, depth)?;
    symbol(cursor, b')')?;
    let path = block(alloc, cursor, depth, Stage::Branch)?;
    Ok(branch_of(test, path))
}

#[cycle(path)]
fn arms(alloc: Global, cursor: &mut Cursor<'_>, depth: usize) -> Result<Items<RawBranch>, ParseStop>
    ensures { ReadsTokens (spec.arms depth (spec.block depth) cursor.old) result cursor.new }
{
    let mut found = Items::new(alloc);
    found.push(arm(alloc, cursor, depth)?)?;
    for _turn in 0..cursor.left() {
        if !sees_word(cursor, b"elif") {
            return Ok(found);
        }
        found.push(arm(alloc, cursor, depth)?)?;
    }
    Ok(found)
}

#[tactic(auto, unfolding(crate::specs::Paths::other))]
#[cycle(path)]
fn other(
    alloc: Global,
    cursor: &mut Cursor<'_>,
    depth: usize,
) -> Result<Option<Items<RawElement>>, ParseStop>
    ensures { ReadsTokens (spec.other (spec.block depth) cursor.old) result cursor.new }
{
    if !sees_word(cursor, b"else") {
        return Ok(None);
    }
    cursor.skip();
    let path = block(alloc, cursor, depth, Stage::Branch)?;
    Ok(Some(path.elements))
}

#[tactic(auto, unfolding(crate::specs::Paths::conditional))]
#[cycle(path)]
fn conditional(
    alloc: Global,
    cursor: &mut Cursor<'_>,
    depth: usize,
) -> Result<RawElement, ParseStop>
    ensures { ReadsTokens (spec.conditional depth (spec.block depth) cursor.old) result cursor.new }
{
    let branches = arms(alloc, cursor, depth)?;
    let other = other(alloc, cursor, depth)?;
    Ok(RawElement::If { branches, other })
}

#[tactic(auto, unfolding(crate::specs::Paths::junction))]
#[cycle(path)]
fn junction(alloc: Global, cursor: &mut Cursor<'_>, depth: usize) -> Result<RawElement, ParseStop>
    ensures { ReadsTokens (spec.junction (spec.block depth) cursor.old) result cursor.new }
{
    cursor.skip();
    Ok(RawElement::Junction(channels(alloc, cursor, depth)?))
}

#[tactic(auto, unfolding(crate::specs::Paths::element))]
#[cycle(path)]
fn element(alloc: Global, cursor: &mut Cursor<'_>, depth: usize) -> Result<RawElement, ParseStop>
    ensures { ReadsTokens (spec.element depth (spec.block depth) cursor.old) result cursor.new }
{
    if let Some(kind) = kind_of(cursor) {
        return referring(alloc, cursor, depth, kind);
    }
    if sees_word(cursor, b"junction") {
        return junction(alloc, cursor, depth);
    }
    if sees_word(cursor, b"if") {
        return conditional(alloc, cursor, depth);
    }
    Err(cursor.fault(ConfigKind::Unexpected))
}

#[tactic(auto, unfolding(crate::specs::Paths::flags))]
fn flags(alloc: Global, cursor: &mut Cursor<'_>) -> Result<PathItem, ParseStop>
    ensures { ReadsTokens (spec.flags cursor.old) result cursor.new }
{
    cursor.skip();
    Ok(PathItem::Flags(many(alloc, cursor, &PathFlag)?))
}

#[tactic(auto, unfolding(crate::specs::Paths::embedded))]
#[cycle(path)]
fn embedded(alloc: Global, cursor: &mut Cursor<'_>, depth: usize) -> Result<PathItem, ParseStop>
    ensures { ReadsTokens (spec.embedded (spec.block depth) cursor.old) result cursor.new }
{
    Ok(PathItem::Embedded(worded(alloc, cursor, depth, b"log")?))
}

#[tactic(auto, unfolding(crate::specs::Paths::one_piece))]
#[cycle(path)]
fn read_piece(
    alloc: Global,
    cursor: &mut Cursor<'_>,
    depth: usize,
    stage: Stage,
) -> Result<PathItem, ParseStop>
    ensures { ReadsTokens (spec.one_piece depth (spec.block depth) stage cursor.old) result
        cursor.new }
{
    if takes_ends(stage) && sees_word(cursor, b"log") {
        return embedded(alloc, cursor, depth);
    }
    if takes_ends(stage) && sees_word(cursor, b"flags") {
        return flags(alloc, cursor);
    }
    if takes_elements(stage) {
        return Ok(PathItem::Element(element(alloc, cursor, depth)?));
    }
    Err(cursor.fault(ConfigKind::Unexpected))
}

/// What stands in braces, behind the one that opens them.
#[cycle(path)]
fn pieces(
    alloc: Global,
    cursor: &mut Cursor<'_>,
    depth: usize,
    first: Stage,
) -> Result<RawPath, ParseStop>
    ensures { ReadsTokens (spec.pieces depth (spec.block depth) first cursor.old) result
        cursor.new }
{
    let mut found = empty_path(alloc);
    let mut stage = first;
    for _turn in 0..cursor.left() {
        if sees(cursor, b'}') {
            cursor.skip();
            return Ok(found);
        }
        if sees(cursor, b';') {
            cursor.skip();
            continue;
        }
        let piece = read_piece(alloc, cursor, depth, stage)?;
        stage = stage_behind(stage, &piece);
        found = with_piece(found, piece)?;
        ending(cursor)?;
    }
    Err(cursor.fault(ConfigKind::Unexpected))
}

#[tactic(auto, unfolding(crate::specs::Paths::braced))]
#[cycle(path)]
fn braced(
    alloc: Global,
    cursor: &mut Cursor<'_>,
    depth: usize,
    stage: Stage,
) -> Result<RawPath, ParseStop>
    ensures { ReadsTokens (spec.braced depth (spec.block depth) stage cursor.old) result
        cursor.new }
{
    symbol(cursor, b'{')?;
    pieces(alloc, cursor, depth, stage)
}

#[tactic(auto, unfolding(crate::specs::Paths::too_deep))]
fn too_deep(cursor: &Cursor<'_>) -> ParseStop
    ensures { result ≡ ParseStop.Bad (spec.too_deep cursor.now) }
{
    if sees(cursor, b'{') {
        return cursor.fault(ConfigKind::DepthOver64);
    }
    cursor.fault(ConfigKind::Unexpected)
}

/// The same, in which braces and groups may be nested less deep than so: one that is deeper is
/// `DepthOver64`.
#[cycle(path)]
fn block(
    alloc: Global,
    cursor: &mut Cursor<'_>,
    depth: usize,
    stage: Stage,
) -> Result<RawPath, ParseStop>
    ensures { ReadsTokens (spec.block depth stage cursor.old) result cursor.new }
{
    if depth == 0 {
        return Err(too_deep(cursor));
    }
    braced(alloc, cursor, depth - 1, stage)
}

/// A log statement in which braces and groups may be nested so deep.
#[tactic(auto, unfolding(crate::specs::Paths::log_in))]
pub fn log(alloc: Global, cursor: &mut Cursor<'_>, depth: usize) -> Result<RawLog, ParseStop>
    ensures { ReadsTokens (spec.log_in depth cursor.old) result cursor.new }
{
    worded(alloc, cursor, depth, b"log")
}
