// Filters, rewrites and parsers.
ghost use Rattle.std.specs.Prelude.{◌≡◌, true, OnSome};
ghost use Rattle.sg_tree.specs.Sound.{op_sound};

use sg_device::Name;
use sg_filter::Expr;
use sg_lex::Line;
use sg_parsers::{Csv, Kv, MessageParser, ParserRule};
use sg_pattern::{Flags, Kind, PatternText};
use sg_rewrite::Op;
use sg_template::Template;
use sg_tree::{Element, RewriteRule, is_sound};
use sqlite_items::Items;
use std::alloc::{AllocError, Global};

pub(crate) const LINE: Line = Line {
    file: 0,
    line: 1,
    at: 0,
};

pub(crate) fn name_of(alloc: Global, text: &str) -> Result<Name, AllocError> {
    Name::new(alloc, text.as_bytes())
}

/// The message contains the text.
pub(crate) fn contains(alloc: Global, text: &str) -> Result<Expr, AllocError> {
    let flags = Flags {
        ignore_case: false,
        prefix: false,
        substring: true,
        global: false,
    };
    Ok(Expr::Field {
        name: name_of(alloc, "MESSAGE")?,
        pattern: PatternText {
            kind: Kind::Text,
            text: name_of(alloc, text)?,
            flags,
            line: LINE,
        },
    })
}

pub(crate) fn tagged(alloc: Global, tag: &str) -> Result<Expr, AllocError> {
    let mut tags = Items::new(alloc);
    tags.push(name_of(alloc, tag)?)?;
    Ok(Expr::Tags(tags))
}

fn checked(op: &Op) -> Option<()>
    ensures { OnSome result (op_sound op.now ≡ true) }
{
    if is_sound(op) {
        return Some(());
    }
    None
}

fn op_of(alloc: Global, text: &str) -> Option<Op> {
    let Ok(name) = name_of(alloc, "MESSAGE") else {
        return None;
    };
    match Template::read(alloc, text.as_bytes()) {
        Ok(text) => Some(Op::Set { name, text }),
        Err(_) => None,
    }
}

/// MESSAGE becomes the text, where the condition holds.
pub(crate) fn rule(alloc: Global, condition: Option<Expr>, text: &str) -> Option<Element> {
    let Some(op) = op_of(alloc, text) else {
        return None;
    };
    match checked(&op) {
        Some(()) => Some(Element::Rewrite(RewriteRule { condition, op })),
        None => None,
    }
}

fn parse_of(alloc: Global, parser: MessageParser) -> Option<Element> {
    match Template::read(alloc, b"$MESSAGE") {
        Ok(text) => Some(Element::Parse(ParserRule { text, parser })),
        Err(_) => None,
    }
}

fn names_of(alloc: Global, text: &str) -> Result<Vec<Name>, AllocError> {
    let mut names = Vec::new(alloc);
    for name in text.split(',') {
        names.push(name_of(alloc, name)?)?;
    }
    Ok(names)
}

fn csv_of(alloc: Global, names: &[Name]) -> Option<Csv> {
    match Csv::new(alloc, b"", names, b",", false, true) {
        Ok(csv) => csv,
        Err(_) => None,
    }
}

/// The columns of MESSAGE, which must be as many.
pub(crate) fn columns(alloc: Global, text: &str) -> Option<Element> {
    let Ok(names) = names_of(alloc, text) else {
        return None;
    };
    match csv_of(alloc, &names) {
        Some(csv) => parse_of(alloc, MessageParser::Csv(csv)),
        None => None,
    }
}

fn kv_of(alloc: Global, prefix: &str) -> Result<Kv, AllocError> {
    Ok(Kv {
        prefix: name_of(alloc, prefix)?,
        pair_separator: name_of(alloc, ", ")?,
        value_separator: b'=',
    })
}

/// The pairs of MESSAGE.
pub(crate) fn keys(alloc: Global, word: &str) -> Option<Element> {
    let prefix = if word == "-" { "" } else { word };
    match kv_of(alloc, prefix) {
        Ok(kv) => parse_of(alloc, MessageParser::Kv(kv)),
        Err(_) => None,
    }
}
