// Log statements as texts.

use crate::parse::say::{expr, object, spot};
use sg_parse_base::Spot;
use sg_parse_path::{RawBranch, RawElement, RawLog, RawRef};
use std::alloc::AllocError;

fn reference(out: &mut Vec<u8>, found: &RawRef) -> Result<(), AllocError> {
    match found {
        RawRef::Named(name) => {
            out.push(b'(')?;
            spot(out, name)?;
            out.push(b')')?;
        }
        RawRef::Inline(body) => {
            out.push(b'<')?;
            object(out, body)?;
            out.push(b'>')?;
        }
    }
    Ok(())
}

fn referring(out: &mut Vec<u8>, word: &[u8], found: &RawRef) -> Result<(), AllocError> {
    out.extend_from_slice(word)?;
    reference(out, found)
}

fn sourced(out: &mut Vec<u8>, word: &Spot, found: &RawRef) -> Result<(), AllocError> {
    spot(out, word)?;
    reference(out, found)
}

fn flags(out: &mut Vec<u8>, all: &[Spot]) -> Result<(), AllocError> {
    for flag in all {
        out.extend_from_slice(b" flag ")?;
        spot(out, flag)?;
    }
    Ok(())
}

#[cycle(paths)]
fn elements(out: &mut Vec<u8>, all: &[RawElement]) -> Result<(), AllocError> {
    for one in all {
        out.push(b' ')?;
        element(out, one)?;
    }
    Ok(())
}

#[cycle(paths)]
fn logs(out: &mut Vec<u8>, all: &[RawLog]) -> Result<(), AllocError> {
    for one in all {
        out.push(b' ')?;
        log(out, one)?;
    }
    Ok(())
}

#[cycle(paths)]
fn branches(out: &mut Vec<u8>, all: &[RawBranch]) -> Result<(), AllocError> {
    for one in all {
        out.extend_from_slice(b" if ")?;
        expr(out, &one.test)?;
        out.extend_from_slice(b" {")?;
        elements(out, one.elements.as_slice())?;
        out.extend_from_slice(b" }")?;
    }
    Ok(())
}

#[cycle(paths)]
fn element(out: &mut Vec<u8>, one: &RawElement) -> Result<(), AllocError> {
    match one {
        RawElement::Source(word, found) => sourced(out, word, found),
        RawElement::Destination(found) => referring(out, b"destination", found),
        RawElement::Filter(found) => referring(out, b"filter", found),
        RawElement::Rewrite(found) => referring(out, b"rewrite", found),
        RawElement::Parser(found) => referring(out, b"parser", found),
        RawElement::Junction(channels) => {
            out.extend_from_slice(b"junction [")?;
            logs(out, channels.as_slice())?;
            out.extend_from_slice(b" ]")?;
            Ok(())
        }
        RawElement::If {
            branches: all,
            other,
        } => {
            out.extend_from_slice(b"choice [")?;
            branches(out, all.as_slice())?;
            match other {
                Some(rest) => {
                    out.extend_from_slice(b" else {")?;
                    elements(out, rest.as_slice())?;
                    out.extend_from_slice(b" }")?;
                }
                None => {}
            }
            out.extend_from_slice(b" ]")?;
            Ok(())
        }
    }
}

#[cycle(paths)]
pub(crate) fn log(out: &mut Vec<u8>, one: &RawLog) -> Result<(), AllocError> {
    spot(out, &one.word)?;
    out.extend_from_slice(b" {")?;
    elements(out, one.elements.as_slice())?;
    logs(out, one.embedded.as_slice())?;
    flags(out, one.flags.as_slice())?;
    out.extend_from_slice(b" }")?;
    Ok(())
}
