// What names, and what stands in their place, mean.
ghost use Rattle.std.specs.Prelude.{◌≡◌, [], map, IfOk};
ghost use Rattle.sg_lower.specs.Filters.{named_if};
ghost use Rattle.sg_forest.specs.References.{inline_filter, filter_meant, rewrite_calls, calls_at, calls_meant, parser_calls, parsers_at, parsers_meant};

use sg_device::NoMemory;
use sg_filter::Expr;
use sg_lower::lower_expression;
use sg_names::{NameKind, Names};
use sg_parse_expr::Call;
use sg_parse_obj::Object;
use sg_parse_path::RawRef;
use sqlite_items::Items;
use std::alloc::Global;

fn nothing_passes(alloc: Global) -> Expr
    ensures { result ≡ Expr.Or [] }
{
    Expr::Or(Items::new(alloc))
}

fn named_filter(alloc: Global, place: Option<u32>) -> Expr
    ensures { result ≡ named_if place }
{
    match place {
        Some(place) => Expr::Named(place),
        None => nothing_passes(alloc),
    }
}

fn inline_filter(alloc: Global, names: &Names, object: &Object) -> Result<Expr, NoMemory>
    ensures { IfOk result (λ expr. expr ≡ inline_filter names.now object.now) }
{
    match object {
        Object::Filter { expr, .. } => lower_expression(alloc, names, expr),
        _ => Ok(nothing_passes(alloc)),
    }
}

/// The expression that a filter element means.
pub fn filter_meant(alloc: Global, names: &Names, reference: &RawRef) -> Result<Expr, NoMemory>
    ensures { IfOk result (λ expr. expr ≡ filter_meant names.now reference.now) }
{
    match reference {
        RawRef::Named(spot) => Ok(named_filter(
            alloc,
            names.place(NameKind::Filter, spot.token.text.bytes()),
        )),
        RawRef::Inline(object) => inline_filter(alloc, names, object),
    }
}

/// The calls of a rewrite statement.
pub fn rewrite_calls(object: &Object) -> &[Call]
    ensures { result.now ≡ rewrite_calls object.now }
{
    match object {
        Object::Rewrite { calls, .. } => calls.as_slice(),
        _ => &[],
    }
}

/// The calls of a parser statement.
fn parser_calls(object: &Object) -> &[Call]
    ensures { result.now ≡ parser_calls object.now }
{
    match object {
        Object::Parser { calls, .. } => calls.as_slice(),
        _ => &[],
    }
}

fn parsers_at<'a>(names: &Names, calls: &[&'a [Call]], place: Option<u32>) -> &'a [Call]
    ensures { result.now
        ≡ parsers_at names.now (map (λ calls. calls.now) calls.now) place }
{
    match place {
        Some(place) => match calls.get(names.rewrites.count as usize + place as usize) {
            Some(calls) => *calls,
            None => &[],
        },
        None => &[],
    }
}

/// The calls that a parser element means. Those of the parser statements stand at their numbers behind those
/// of the rewrite statements.
pub fn parsers_meant<'a>(names: &Names, calls: &[&'a [Call]], reference: &'a RawRef) -> &'a [Call]
    ensures { result.now
        ≡ parsers_meant names.now (map (λ calls. calls.now) calls.now) reference.now }
{
    match reference {
        RawRef::Named(spot) => parsers_at(
            names,
            calls,
            names.place(NameKind::Parser, spot.token.text.bytes()),
        ),
        RawRef::Inline(object) => parser_calls(object),
    }
}

fn calls_at<'a>(rewrites: &[&'a [Call]], place: Option<u32>) -> &'a [Call]
    ensures { result.now ≡ calls_at (map (λ calls. calls.now) rewrites.now) place }
{
    match place {
        Some(place) => match rewrites.get(place as usize) {
            Some(calls) => *calls,
            None => &[],
        },
        None => &[],
    }
}

/// The calls that a rewrite element means. Those of the rewrite statements stand at their numbers.
pub fn calls_meant<'a>(names: &Names, rewrites: &[&'a [Call]], reference: &'a RawRef) -> &'a [Call]
    ensures { result.now
        ≡ calls_meant names.now (map (λ calls. calls.now) rewrites.now) reference.now }
{
    match reference {
        RawRef::Named(spot) => calls_at(
            rewrites,
            names.place(NameKind::Rewrite, spot.token.text.bytes()),
        ),
        RawRef::Inline(object) => rewrite_calls(object),
    }
}
