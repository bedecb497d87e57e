// A log path with three filters, a rewrite and a destination. A refusal counts as want of memory.
ghost use Rattle.std.specs.Prelude.{◌≡◌, true, OnSome};
ghost use Rattle.sg_tree.specs.Sound.{op_sound};

use crate::record::{LINE, OPTS, pattern};
use sg_device::Name;
use sg_filter::Expr;
use sg_pattern::Kind;
use sg_rewrite::Op;
use sg_template::Template;
use sg_tree::{DestRule, Element, Forest, InletRule, Path, RewriteRule, is_sound};
use sqlite_items::Items;
use std::alloc::{AllocError, Global};

pub(crate) fn inlet(alloc: Global) -> InletRule {
    InletRule {
        opts: OPTS,
        rfc5424: false,
        empty_lines: false,
        one_line: false,
        tags: Vec::new(alloc),
    }
}

// The value of the name has the text in it.
fn has(alloc: Global, name: &[u8], text: &[u8]) -> Result<Element, AllocError> {
    let pattern = pattern(alloc, Kind::Text, text)?;
    let name = Name::new(alloc, name)?;
    Ok(Element::Filter(Expr::Field { name, pattern }))
}

// Levels err to notice.
fn level(alloc: Global) -> Result<Element, AllocError> {
    let mut ranges = Items::new(alloc);
    ranges.push((3, 5))?;
    Ok(Element::Filter(Expr::Level(ranges)))
}

fn checked(op: &Op) -> Option<()>
    ensures { OnSome result (op_sound op.now ≡ true) }
{
    if is_sound(op) {
        return Some(());
    }
    None
}

fn rewrite(alloc: Global) -> Result<Element, AllocError> {
    let name = Name::new(alloc, b"STATE")?;
    let Ok(text) = Template::read(alloc, b"late") else {
        return Err(AllocError);
    };
    let op = Op::Set { name, text };
    let Some(()) = checked(&op) else {
        return Err(AllocError);
    };
    let condition = None;
    Ok(Element::Rewrite(RewriteRule { condition, op }))
}

fn push(elements: &mut Vec<Element>, element: Element) -> Result<(), AllocError> {
    elements.push(element)?;
    Ok(())
}

fn elements(alloc: Global) -> Result<Vec<Element>, AllocError> {
    let mut elements = Vec::new(alloc);
    push(&mut elements, level(alloc)?)?;
    push(&mut elements, has(alloc, b"PROGRAM", b"app")?)?;
    push(&mut elements, has(alloc, b"MESSAGE", b"timed out")?)?;
    push(&mut elements, rewrite(alloc)?)?;
    push(&mut elements, Element::Deliver(vec![in alloc; 0]?))?;
    Ok(elements)
}

fn path(alloc: Global) -> Result<Path, AllocError> {
    Ok(Path {
        sources: vec![in alloc; 0]?,
        elements: elements(alloc)?,
        embedded: Vec::new(alloc),
        is_final: false,
        fallback: false,
        catchall: false,
        flow: true,
        drop_unmatched: false,
        line: LINE,
    })
}

fn paths(alloc: Global) -> Result<Vec<Path>, AllocError> {
    let mut paths = Vec::new(alloc);
    paths.push(path(alloc)?)?;
    Ok(paths)
}

pub(crate) fn forest(alloc: Global) -> Result<Forest, AllocError> {
    let mut inlets = Vec::new(alloc);
    inlets.push(inlet(alloc))?;
    let mut dests = Vec::new(alloc);
    dests.push(DestRule {})?;
    Ok(Forest {
        inlets,
        dests,
        filters: Vec::new(alloc),
        rewrites: Vec::new(alloc),
        paths: paths(alloc)?,
    })
}
