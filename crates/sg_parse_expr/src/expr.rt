// Expressions, by recursive descent.
ghost use Rattle.std.specs.Prelude.{◌≡◌, IfOk, codes};
ghost use Rattle.sg_parse_base.specs.Input.{ReadsTokens};
ghost use Rattle.sg_parse_base.specs.Lists.{chain};
ghost use Rattle.sg_parse_expr.specs.Expr as spec;

use crate::class::Class;
use crate::filters::filter_call;
use crate::tree::RawExpr;
use crate::values::value;
use sg_lex::{Cmp, ConfigKind};
use sg_parse_base::{Cursor, ParseStop, next_is_operator, next_is_string, sees, sees_word, symbol};
use sqlite_items::{Boxed, Items};
use std::alloc::{AllocError, Global};

#[tactic(auto, unfolding(crate::specs::Expr::cmp_of))]
fn cmp_of(cursor: &Cursor<'_>) -> Option<Cmp>
    ensures { result ≡ spec.cmp_of cursor.now }
{
    if sees_word(cursor, b"eq") {
        Some(Cmp::Eq)
    } else if sees_word(cursor, b"ne") {
        Some(Cmp::Ne)
    } else if sees_word(cursor, b"lt") {
        Some(Cmp::Lt)
    } else if sees_word(cursor, b"gt") {
        Some(Cmp::Gt)
    } else if sees_word(cursor, b"le") {
        Some(Cmp::Le)
    } else if sees_word(cursor, b"ge") {
        Some(Cmp::Ge)
    } else {
        None
    }
}

#[tactic(auto, unfolding(crate::specs::Expr::comparison))]
fn comparison(cursor: &mut Cursor<'_>) -> Result<Cmp, ParseStop>
    ensures { ReadsTokens (spec.comparison cursor.old) result cursor.new }
{
    let Some(cmp) = cmp_of(cursor) else {
        let kind = if next_is_operator(cursor) {
            ConfigKind::Unsupported
        } else {
            ConfigKind::Unexpected
        };
        return Err(cursor.fault(kind));
    };
    cursor.skip();
    Ok(cmp)
}

#[tactic(auto, unfolding(crate::specs::Expr::compare))]
fn compare(alloc: Global, cursor: &mut Cursor<'_>) -> Result<RawExpr, ParseStop>
    ensures { ReadsTokens (spec.compare cursor.old) result cursor.new }
{
    let left = value(alloc, cursor, Class::Text)?;
    let cmp = comparison(cursor)?;
    let right = value(alloc, cursor, Class::Text)?;
    Ok(RawExpr::Compare { left, cmp, right })
}

#[tactic(auto, unfolding(crate::specs::Expr::is_reserved))]
fn is_reserved(cursor: &Cursor<'_>) -> bool
    ensures { result ≡ spec.is_reserved cursor.now }
{
    sees_word(cursor, b"and") || sees_word(cursor, b"or") || sees_word(cursor, b"not")
}

#[tactic(auto, unfolding(crate::specs::Expr::filtered))]
fn filtered(alloc: Global, cursor: &mut Cursor<'_>) -> Result<RawExpr, ParseStop>
    ensures { ReadsTokens (spec.filtered cursor.old) result cursor.new }
{
    Ok(RawExpr::Call(filter_call(alloc, cursor)?))
}

fn or_of(mut terms: Items<RawExpr>) -> RawExpr
    ensures { result ≡ spec.or_of terms }
{
    if terms.len() == 1 {
        terms.remove(0)
    } else {
        RawExpr::Or(terms)
    }
}

fn and_of(mut terms: Items<RawExpr>) -> RawExpr
    ensures { result ≡ spec.and_of terms }
{
    if terms.len() == 1 {
        terms.remove(0)
    } else {
        RawExpr::And(terms)
    }
}

fn not_of(alloc: Global, term: RawExpr) -> Result<RawExpr, AllocError>
    ensures { IfOk result (λ e. e ≡ RawExpr.Not term) }
{
    Ok(RawExpr::Not(Boxed::new(alloc, term)?))
}

#[tactic(auto, unfolding(crate::specs::Expr::primary))]
#[cycle(expr)]
fn primary(alloc: Global, cursor: &mut Cursor<'_>, depth: usize) -> Result<RawExpr, ParseStop>
    ensures { ReadsTokens (spec.primary (spec.group depth) cursor.old) result cursor.new }
{
    if sees(cursor, b'(') {
        return group(alloc, cursor, depth);
    }
    if next_is_string(cursor) {
        return compare(alloc, cursor);
    }
    if is_reserved(cursor) {
        return Err(cursor.fault(ConfigKind::Unexpected));
    }
    filtered(alloc, cursor)
}

#[tactic(auto, unfolding(crate::specs::Expr::negation))]
#[cycle(expr)]
fn negation(alloc: Global, cursor: &mut Cursor<'_>, depth: usize) -> Result<RawExpr, ParseStop>
    ensures { ReadsTokens (spec.negation (spec.group depth) cursor.old) result cursor.new }
{
    if !sees_word(cursor, b"not") {
        return primary(alloc, cursor, depth);
    }
    cursor.skip();
    let term = primary(alloc, cursor, depth)?;
    Ok(not_of(alloc, term)?)
}

#[cycle(expr)]
fn conjuncts(
    alloc: Global,
    cursor: &mut Cursor<'_>,
    depth: usize,
) -> Result<Items<RawExpr>, ParseStop>
    ensures { ReadsTokens (chain (spec.negation (spec.group depth)) (codes "and") cursor.old) result
        cursor.new }
{
    let mut found = Items::new(alloc);
    found.push(negation(alloc, cursor, depth)?)?;
    for _turn in 0..cursor.left() {
        if !sees_word(cursor, b"and") {
            return Ok(found);
        }
        cursor.skip();
        found.push(negation(alloc, cursor, depth)?)?;
    }
    Ok(found)
}

#[tactic(auto, unfolding(crate::specs::Expr::conjunction))]
#[cycle(expr)]
fn conjunction(alloc: Global, cursor: &mut Cursor<'_>, depth: usize) -> Result<RawExpr, ParseStop>
    ensures { ReadsTokens (spec.conjunction (spec.group depth) cursor.old) result cursor.new }
{
    Ok(and_of(conjuncts(alloc, cursor, depth)?))
}

#[cycle(expr)]
fn disjuncts(
    alloc: Global,
    cursor: &mut Cursor<'_>,
    depth: usize,
) -> Result<Items<RawExpr>, ParseStop>
    ensures { ReadsTokens (chain (spec.conjunction (spec.group depth)) (codes "or") cursor.old)
        result
        cursor.new }
{
    let mut found = Items::new(alloc);
    found.push(conjunction(alloc, cursor, depth)?)?;
    for _turn in 0..cursor.left() {
        if !sees_word(cursor, b"or") {
            return Ok(found);
        }
        cursor.skip();
        found.push(conjunction(alloc, cursor, depth)?)?;
    }
    Ok(found)
}

#[tactic(auto, unfolding(crate::specs::Expr::disjunction))]
#[cycle(expr)]
fn disjunction(alloc: Global, cursor: &mut Cursor<'_>, depth: usize) -> Result<RawExpr, ParseStop>
    ensures { ReadsTokens (spec.disjunction (spec.group depth) cursor.old) result cursor.new }
{
    Ok(or_of(disjuncts(alloc, cursor, depth)?))
}

/// An expression in parentheses.
#[tactic(auto, unfolding(crate::specs::Expr::grouped))]
#[cycle(expr)]
fn grouped(alloc: Global, cursor: &mut Cursor<'_>, depth: usize) -> Result<RawExpr, ParseStop>
    ensures { ReadsTokens (spec.grouped (spec.group depth) cursor.old) result cursor.new }
{
    symbol(cursor, b'(')?;
    let inner = disjunction(alloc, cursor, depth)?;
    symbol(cursor, b')')?;
    Ok(inner)
}

/// The same, where groups may be nested so deep: the one that is deeper is `DepthOver64`.
#[cycle(expr)]
fn group(alloc: Global, cursor: &mut Cursor<'_>, depth: usize) -> Result<RawExpr, ParseStop>
    ensures { ReadsTokens (spec.group depth cursor.old) result cursor.new }
{
    if depth == 0 {
        return Err(cursor.fault(ConfigKind::DepthOver64));
    }
    grouped(alloc, cursor, depth - 1)
}

/// An expression in which groups may be nested so deep: `or` between terms with `and` between them, of
/// which each is a filter, a comparison or a group, perhaps behind `not`.
#[tactic(auto, unfolding(crate::specs::Expr::expr))]
pub fn expression(
    alloc: Global,
    cursor: &mut Cursor<'_>,
    depth: usize,
) -> Result<RawExpr, ParseStop>
    ensures { ReadsTokens (spec.expr depth cursor.old) result cursor.new }
{
    disjunction(alloc, cursor, depth)
}
