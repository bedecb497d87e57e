// Rewrites as the tables write them.
ghost use Rattle.std.specs.Prelude.{OnSome};
ghost use Rattle.sg_msg.specs.Message.{IsPairName};
ghost use Rattle.sg_rewrite.specs.Ops.{IsOp};

use crate::text::{bytes_of, name_of, names_of};
use sg_lex::Line;
use sg_msg::is_hard;
use sg_pattern::{Flags, Kind, PatternText, Patterns};
use sg_rewrite::{Op, Rewrite};
use sg_template::Template;
use std::alloc::Global;

pub(crate) const LINE: Line = Line {
    file: 0,
    line: 7,
    at: 40,
};

fn kind_of(word: &str) -> Option<Kind> {
    match word {
        "regex" => Some(Kind::Regex),
        "text" => Some(Kind::Text),
        "glob" => Some(Kind::Glob),
        _ => None,
    }
}

// Whether each letter is that of a flag; `-` is none.
fn are_flags(word: &str) -> bool {
    if word == "-" {
        return true;
    }
    for letter in word.chars() {
        if !(letter == 'i' || letter == 'p' || letter == 's' || letter == 'g') {
            return false;
        }
    }
    !word.is_empty()
}

fn flags_of(word: &str) -> Flags {
    Flags {
        ignore_case: word.contains('i'),
        prefix: word.contains('p'),
        substring: word.contains('s'),
        global: word.contains('g'),
    }
}

fn pattern_by(alloc: Global, kind: Kind, letters: &str, text: &str) -> Option<PatternText> {
    let Ok(text) = name_of(alloc, text) else {
        return None;
    };
    Some(PatternText {
        kind,
        text,
        flags: flags_of(letters),
        line: LINE,
    })
}

// The pattern of a row, if its words are understood.
fn pattern_of(alloc: Global, words: &str, text: &str) -> Option<PatternText> {
    let Some((kind, letters)) = words.split_once(' ') else {
        return None;
    };
    if !are_flags(letters) {
        return None;
    }
    match kind_of(kind) {
        Some(kind) => pattern_by(alloc, kind, letters, text),
        None => None,
    }
}

fn template_of(alloc: Global, text: &str) -> Option<Template> {
    match bytes_of(alloc, text) {
        Ok(text) => Template::read(alloc, &text).ok(),
        Err(_) => None,
    }
}

fn subst_of(alloc: Global, words: &str, name: &str, pattern: &str, text: &str) -> Option<Op> {
    let Some(pattern) = pattern_of(alloc, words, pattern) else {
        return None;
    };
    let Some(text) = template_of(alloc, text) else {
        return None;
    };
    match name_of(alloc, name) {
        Ok(name) => Some(Op::Subst {
            name,
            pattern,
            text,
        }),
        Err(_) => None,
    }
}

fn set_of(alloc: Global, name: &str, text: &str) -> Option<Op> {
    let Some(text) = template_of(alloc, text) else {
        return None;
    };
    match name_of(alloc, name) {
        Ok(name) => Some(Op::Set { name, text }),
        Err(_) => None,
    }
}

fn group_set_of(alloc: Global, globs: &str, text: &str) -> Option<Op> {
    let Some(text) = template_of(alloc, text) else {
        return None;
    };
    match names_of(alloc, globs) {
        Ok(globs) => Some(Op::GroupSet { globs, text }),
        Err(_) => None,
    }
}

fn group_unset_of(alloc: Global, globs: &str) -> Option<Op> {
    match names_of(alloc, globs) {
        Ok(globs) => Some(Op::GroupUnset { globs }),
        Err(_) => None,
    }
}

// A rewrite by one name alone.
fn named_of(alloc: Global, word: &str, name: &str) -> Option<Op> {
    let Ok(name) = name_of(alloc, name) else {
        return None;
    };
    match word {
        "unset" => Some(Op::Unset { name }),
        "set-tag" => Some(Op::SetTag { tag: name }),
        "clear-tag" => Some(Op::ClearTag { tag: name }),
        _ => None,
    }
}

// The rewrite of these words, if they are understood.
pub(crate) fn op_of(
    alloc: Global,
    words: &str,
    name: &str,
    pattern: &str,
    text: &str,
) -> Option<Op> {
    match words {
        "set" => set_of(alloc, name, text),
        "groupset" => group_set_of(alloc, name, text),
        "groupunset" => group_unset_of(alloc, name),
        "unset" | "set-tag" | "clear-tag" => named_of(alloc, words, name),
        _ => subst_of(alloc, words, name, pattern, text),
    }
}

// Whether a rewrite by these words has the pattern and the template that stand there.
pub(crate) fn has_these(words: &str, pattern: &str, text: &str) -> bool {
    match words {
        "set" | "groupset" => pattern.is_empty(),
        "unset" | "groupunset" | "set-tag" | "clear-tag" => {
            pattern.is_empty() && text.is_empty()
        }
        _ => true,
    }
}

// Whether a pair may have this name.
fn checked_name(name: &[u8]) -> Option<()>
    ensures { OnSome result (IsPairName name.now) }
{
    if name.is_empty() {
        return None;
    }
    if name.len() > 255 {
        return None;
    }
    if is_hard(name) {
        return None;
    }
    Some(())
}

// Whether a rewrite can be made of it.
pub(crate) fn checked_op(op: &Op) -> Option<()>
    ensures { OnSome result (IsOp op.now) }
{
    match op {
        Op::Set { name, .. } => checked_name(name.bytes()),
        Op::Unset { name } => checked_name(name.bytes()),
        Op::Subst { name, .. } => checked_name(name.bytes()),
        Op::GroupSet { .. } => Some(()),
        Op::GroupUnset { .. } => Some(()),
        Op::SetTag { .. } => Some(()),
        Op::ClearTag { .. } => Some(()),
    }
}

fn made(alloc: Global, op: &Op) -> Option<Rewrite> {
    let Some(()) = checked_op(op) else {
        return None;
    };
    let mut patterns = Patterns::new(alloc);
    Rewrite::new(alloc, &mut patterns, op).ok()
}

// What is made of these words, if they are understood.
pub(crate) fn rewrite_of(
    alloc: Global,
    words: &str,
    name: &str,
    pattern: &str,
    text: &str,
) -> Option<Rewrite> {
    match op_of(alloc, words, name, pattern, text) {
        Some(op) => made(alloc, &op),
        None => None,
    }
}
