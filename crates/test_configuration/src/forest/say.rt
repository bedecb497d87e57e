// Log paths as texts.

use crate::text::{put_flag, put_named, put_names, put_number, put_numbers};
use sg_filter::Expr;
use sg_rewrite::Op;
use sg_tree::{Element, Forest, Path, RewriteRule};
use std::alloc::{AllocError, Global};

// An expression: the number of a filter statement, the text of a pattern, tags, or a dot for another one.
#[cycle(expr)]
fn expr(alloc: Global, out: &mut Vec<u8>, said: &Expr) -> Result<(), AllocError> {
    match said {
        Expr::Named(place) => put_number(alloc, out, b"#", u64::from(*place)),
        Expr::Field { pattern, .. } => {
            out.push(b'~')?;
            out.extend_from_slice(pattern.text.bytes())
        }
        Expr::Tags(tags) => put_names(out, b"tags", tags.as_slice()),
        Expr::Or(terms) => any(alloc, out, terms.as_slice()),
        Expr::Not(term) => {
            out.push(b'!')?;
            expr(alloc, out, term.get())
        }
        _ => out.extend_from_slice(b"."),
    }
}

#[cycle(expr)]
fn any(alloc: Global, out: &mut Vec<u8>, terms: &[Expr]) -> Result<(), AllocError> {
    out.extend_from_slice(b"any")?;
    for term in terms {
        out.push(b' ')?;
        expr(alloc, out, term)?;
    }
    Ok(())
}

fn op(out: &mut Vec<u8>, said: &Op) -> Result<(), AllocError> {
    match said {
        Op::Set { name, .. } => put_named(out, b"set", name),
        Op::Unset { name } => put_named(out, b"unset", name),
        Op::Subst { name, .. } => put_named(out, b"subst", name),
        Op::GroupSet { .. } => out.extend_from_slice(b"groupset"),
        Op::GroupUnset { .. } => out.extend_from_slice(b"groupunset"),
        Op::SetTag { tag } => put_named(out, b"set-tag", tag),
        Op::ClearTag { tag } => put_named(out, b"clear-tag", tag),
    }
}

fn rule(alloc: Global, out: &mut Vec<u8>, said: &RewriteRule) -> Result<(), AllocError> {
    op(out, &said.op)?;
    match &said.condition {
        Some(condition) => {
            out.extend_from_slice(b" if ")?;
            expr(alloc, out, condition)
        }
        None => Ok(()),
    }
}

// How deep what is said stands.
const MOST: u32 = 1000;

#[cycle(path)]
fn branches(
    alloc: Global,
    out: &mut Vec<u8>,
    all: &[(Expr, Vec<Element>)],
    depth: u32,
) -> Result<(), AllocError> {
    if depth == 0 {
        return out.extend_from_slice(b"..");
    }
    for branch in all {
        out.extend_from_slice(b"? ")?;
        expr(alloc, out, &branch.0)?;
        out.push(b' ')?;
        elements(alloc, out, &branch.1, depth - 1)?;
    }
    Ok(())
}

#[cycle(path)]
fn element(alloc: Global, out: &mut Vec<u8>, said: &Element, depth: u32) -> Result<(), AllocError> {
    if depth == 0 {
        return out.extend_from_slice(b"..");
    }
    match said {
        Element::Filter(test) => expr(alloc, out, test),
        Element::Rewrite(one) => rule(alloc, out, one),
        Element::Parse(_) => out.extend_from_slice(b"parse"),
        Element::Deliver(drivers) => {
            out.extend_from_slice(b"->")?;
            put_numbers(alloc, out, b" ", drivers)
        }
        Element::Junction(channels) => {
            out.extend_from_slice(b"junction ")?;
            paths(alloc, out, channels, depth - 1)
        }
        Element::If {
            branches: tests,
            other,
        } => {
            branches(alloc, out, tests, depth - 1)?;
            match other {
                Some(rest) => {
                    out.extend_from_slice(b"else ")?;
                    elements(alloc, out, rest, depth - 1)
                }
                None => Ok(()),
            }
        }
    }
}

#[cycle(path)]
fn elements(
    alloc: Global,
    out: &mut Vec<u8>,
    all: &[Element],
    depth: u32,
) -> Result<(), AllocError> {
    if depth == 0 {
        return out.extend_from_slice(b"..");
    }
    out.push(b'{')?;
    for one in all {
        out.push(b' ')?;
        element(alloc, out, one, depth - 1)?;
        out.push(b';')?;
    }
    out.extend_from_slice(b" } ")
}

fn head(alloc: Global, out: &mut Vec<u8>, path: &Path) -> Result<(), AllocError> {
    put_number(alloc, out, b"[", u64::from(path.line.at))?;
    out.push(b':')?;
    put_numbers(alloc, out, b" ", &path.sources)?;
    out.extend_from_slice(b"] ")?;
    put_flag(out, path.is_final, b"final ")?;
    put_flag(out, path.fallback, b"fallback ")?;
    put_flag(out, path.catchall, b"catchall ")?;
    put_flag(out, path.flow, b"flow ")?;
    put_flag(out, path.drop_unmatched, b"drop ")
}

#[cycle(path)]
fn paths(alloc: Global, out: &mut Vec<u8>, all: &[Path], depth: u32) -> Result<(), AllocError> {
    if depth == 0 {
        return out.extend_from_slice(b"..");
    }
    for path in all {
        head(alloc, out, path)?;
        elements(alloc, out, &path.elements, depth - 1)?;
        if !path.embedded.is_empty() {
            out.extend_from_slice(b"within ")?;
            paths(alloc, out, &path.embedded, depth - 1)?;
        }
    }
    Ok(())
}

fn rules(alloc: Global, out: &mut Vec<u8>, all: &[RewriteRule]) -> Result<(), AllocError> {
    for one in all {
        out.extend_from_slice(b"rewrite ")?;
        rule(alloc, out, one)?;
        out.extend_from_slice(b"; ")?;
    }
    Ok(())
}

fn filters(alloc: Global, out: &mut Vec<u8>, all: &[Expr]) -> Result<(), AllocError> {
    for one in all {
        out.extend_from_slice(b"filter ")?;
        expr(alloc, out, one)?;
        out.extend_from_slice(b"; ")?;
    }
    Ok(())
}

pub(crate) fn forest(alloc: Global, out: &mut Vec<u8>, forest: &Forest) -> Result<(), AllocError> {
    filters(alloc, out, &forest.filters)?;
    rules(alloc, out, &forest.rewrites)?;
    paths(alloc, out, &forest.paths, MOST)?;
    put_number(alloc, out, b"", forest.dests.len() as u64)
}
