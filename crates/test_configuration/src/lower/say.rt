// Expressions and operations as texts.

use crate::text::{cmp_text, put_flag, put_named, put_names, put_number};
use sg_device::Name;
use sg_filter::Expr;
use sg_pattern::{Kind, PatternText};
use sg_rewrite::Op;
use std::alloc::{AllocError, Global};

fn ranges(
    alloc: Global,
    out: &mut Vec<u8>,
    word: &[u8],
    ranges: &[(u8, u8)],
) -> Result<(), AllocError> {
    out.extend_from_slice(word)?;
    for range in ranges {
        put_number(alloc, out, b" ", u64::from(range.0))?;
        put_number(alloc, out, b"-", u64::from(range.1))?;
    }
    Ok(())
}

fn kind_text(kind: Kind) -> &'static [u8] {
    match kind {
        Kind::Regex => b"pcre",
        Kind::Text => b"string",
        Kind::Glob => b"glob",
    }
}

fn pattern(out: &mut Vec<u8>, name: &Name, pattern: &PatternText) -> Result<(), AllocError> {
    out.extend_from_slice(name.bytes())?;
    out.push(b'~')?;
    out.extend_from_slice(kind_text(pattern.kind))?;
    out.push(b':')?;
    out.extend_from_slice(pattern.text.bytes())?;
    put_flag(out, pattern.flags.ignore_case, b"+ignore-case")?;
    put_flag(out, pattern.flags.prefix, b"+prefix")?;
    put_flag(out, pattern.flags.substring, b"+substring")?;
    put_flag(out, pattern.flags.global, b"+global")
}

#[cycle(say)]
fn terms(alloc: Global, out: &mut Vec<u8>, word: &[u8], terms: &[Expr]) -> Result<(), AllocError> {
    out.push(b'(')?;
    out.extend_from_slice(word)?;
    for term in terms {
        out.push(b' ')?;
        expr(alloc, out, term)?;
    }
    out.push(b')')?;
    Ok(())
}

#[cycle(say)]
pub(crate) fn expr(alloc: Global, out: &mut Vec<u8>, said: &Expr) -> Result<(), AllocError> {
    match said {
        Expr::Facility(all) => ranges(alloc, out, b"facility", all.as_slice()),
        Expr::Level(all) => ranges(alloc, out, b"level", all.as_slice()),
        Expr::Field {
            name,
            pattern: text,
        } => pattern(out, name, text),
        Expr::Tags(all) => put_names(out, b"tags", all.as_slice()),
        Expr::Compare { cmp, .. } => out.extend_from_slice(cmp_text(*cmp)),
        Expr::Named(place) => put_number(alloc, out, b"#", u64::from(*place)),
        Expr::And(all) => terms(alloc, out, b"and", all.as_slice()),
        Expr::Or(all) => terms(alloc, out, b"or", all.as_slice()),
        Expr::Not(term) => {
            out.push(b'!')?;
            expr(alloc, out, term.get())
        }
    }
}

fn op(out: &mut Vec<u8>, said: &Op) -> Result<(), AllocError> {
    match said {
        Op::Set { name, .. } => put_named(out, b"set", name),
        Op::Unset { name } => put_named(out, b"unset", name),
        Op::Subst {
            name,
            pattern: text,
            ..
        } => pattern(out, name, text),
        Op::GroupSet { globs, .. } => put_names(out, b"groupset", globs),
        Op::GroupUnset { globs } => put_names(out, b"groupunset", globs),
        Op::SetTag { tag } => put_named(out, b"set-tag", tag),
        Op::ClearTag { tag } => put_named(out, b"clear-tag", tag),
    }
}

pub(crate) fn rewrite(
    alloc: Global,
    out: &mut Vec<u8>,
    said: &(Op, Option<Expr>),
) -> Result<(), AllocError> {
    op(out, &said.0)?;
    match &said.1 {
        Some(condition) => {
            out.extend_from_slice(b" if ")?;
            expr(alloc, out, condition)
        }
        None => Ok(()),
    }
}
