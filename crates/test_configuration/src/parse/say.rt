// Trees and faults as texts.

use crate::text::{cmp_text, put_number};
use sg_lex::{Cmp, ConfigFault, ConfigKind, TokenKind};
use sg_parse_base::Spot;
use sg_parse_expr::{Arg, Call, RawExpr};
use sg_parse_obj::Object;
use std::alloc::{AllocError, Global};

fn kind_text(kind: ConfigKind) -> &'static [u8] {
    match kind {
        ConfigKind::Unexpected => b"Unexpected",
        ConfigKind::Unsupported => b"Unsupported",
        ConfigKind::BadNumber => b"BadNumber",
        ConfigKind::DepthOver64 => b"DepthOver64",
        ConfigKind::OpenBrace => b"OpenBrace",
        ConfigKind::Function => b"Function",
        _ => b"another",
    }
}

pub(crate) fn fault(
    alloc: Global,
    out: &mut Vec<u8>,
    fault: &ConfigFault,
) -> Result<(), AllocError> {
    out.extend_from_slice(kind_text(fault.kind))?;
    put_number(alloc, out, b" ", u64::from(fault.line))
}

pub(crate) fn spot(out: &mut Vec<u8>, spot: &Spot) -> Result<(), AllocError> {
    let quoted = match spot.token.kind {
        TokenKind::Str => true,
        _ => false,
    };
    if quoted {
        out.push(b'`')?;
    }
    out.extend_from_slice(spot.token.text.bytes())?;
    if quoted {
        out.push(b'`')?;
    }
    Ok(())
}

fn compare(out: &mut Vec<u8>, left: &Spot, cmp: Cmp, right: &Spot) -> Result<(), AllocError> {
    spot(out, left)?;
    out.push(b' ')?;
    out.extend_from_slice(cmp_text(cmp))?;
    out.push(b' ')?;
    spot(out, right)
}

fn range(out: &mut Vec<u8>, low: &Spot, high: &Spot) -> Result<(), AllocError> {
    spot(out, low)?;
    out.extend_from_slice(b"..")?;
    spot(out, high)
}

#[cycle(say)]
pub(crate) fn expr(out: &mut Vec<u8>, x: &RawExpr) -> Result<(), AllocError> {
    match x {
        RawExpr::Call(inner) => call(out, inner),
        RawExpr::Compare { left, cmp, right } => compare(out, left, *cmp, right),
        RawExpr::And(terms) => chain(out, b"and[", terms.as_slice()),
        RawExpr::Or(terms) => chain(out, b"or[", terms.as_slice()),
        RawExpr::Not(term) => {
            out.extend_from_slice(b"not ")?;
            expr(out, term.get())
        }
    }
}

#[cycle(say)]
fn chain(out: &mut Vec<u8>, word: &[u8], terms: &[RawExpr]) -> Result<(), AllocError> {
    out.extend_from_slice(word)?;
    for term in terms {
        expr(out, term)?;
        out.push(b' ')?;
    }
    out.push(b']')?;
    Ok(())
}

#[cycle(say)]
fn call(out: &mut Vec<u8>, call: &Call) -> Result<(), AllocError> {
    spot(out, &call.word)?;
    out.push(b'(')?;
    for arg in call.args.as_slice() {
        argument(out, arg)?;
        out.push(b' ')?;
    }
    out.push(b')')?;
    Ok(())
}

#[cycle(say)]
fn argument(out: &mut Vec<u8>, arg: &Arg) -> Result<(), AllocError> {
    match arg {
        Arg::Item(item) => spot(out, item),
        Arg::Range(low, high) => range(out, low, high),
        Arg::Nested(inner) => call(out, inner),
        Arg::Test(x) => expr(out, x),
    }
}

fn calls(out: &mut Vec<u8>, all: &[Call]) -> Result<(), AllocError> {
    for one in all {
        out.push(b' ')?;
        call(out, one)?;
    }
    Ok(())
}

fn named(out: &mut Vec<u8>, word: &[u8], name: &Spot) -> Result<(), AllocError> {
    out.extend_from_slice(word)?;
    spot(out, name)
}

pub(crate) fn object(out: &mut Vec<u8>, object: &Object) -> Result<(), AllocError> {
    match object {
        Object::Options(all) => {
            out.extend_from_slice(b"options")?;
            calls(out, all.as_slice())
        }
        Object::Source { name, drivers } => {
            named(out, b"source ", name)?;
            calls(out, drivers.as_slice())
        }
        Object::Destination { name, drivers } => {
            named(out, b"destination ", name)?;
            calls(out, drivers.as_slice())
        }
        Object::Filter { name, expr: x } => {
            named(out, b"filter ", name)?;
            out.push(b' ')?;
            expr(out, x)
        }
        Object::Rewrite { name, calls: all } => {
            named(out, b"rewrite ", name)?;
            calls(out, all.as_slice())
        }
        Object::Parser { name, calls: all } => {
            named(out, b"parser ", name)?;
            calls(out, all.as_slice())
        }
        Object::Template { name, text } => {
            named(out, b"template ", name)?;
            match text {
                Some(text) => {
                    out.push(b' ')?;
                    spot(out, text)
                }
                None => Ok(()),
            }
        }
    }
}
