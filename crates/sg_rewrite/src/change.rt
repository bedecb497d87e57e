// A rewrite with what searches for its pattern.
ghost use Rattle.std.specs.Prelude.{◌≡◌, IfOk, IfErr, OnOk};
ghost use Rattle.sg_outside.specs.World.{OnlyBuilds};
ghost use Rattle.sg_pattern.specs.Builds.{RefusesNone};
ghost use Rattle.sg_rewrite.specs.Ops.{change_of, RefusesOp, IsOp};
ghost use Rattle.sg_rewrite.specs.Changes.{IsChange, HasPattern};

use crate::Op;
use crate::text::{RewriteText, kept};
use bytes::Bytes;
use sg_device::{Name, NoMemory};
use sg_list::Seq;
use sg_pattern::{BuildRefusal, Builder, Matcher};
use std::alloc::Global;

/// A name, what searches in its value, and the template whose text replaces what is found.
#[derive(Drop)]
pub(crate) struct Substitution {
    pub(crate) name: Bytes,
    pub(crate) matcher: Matcher,
    pub(crate) text: RewriteText,
}

/// A rewrite with what searches for its pattern.
pub(crate) enum Change {
    Set { name: Bytes, text: RewriteText },
    Unset { name: Name },
    Subst(Substitution),
    GroupSet { globs: Seq<Name>, text: RewriteText },
    GroupUnset { globs: Seq<Name> },
    SetTag { tag: Name },
    ClearTag { tag: Name },
}

impl Drop for Change {
    fn drop(self) {
        match self {
            Change::Set {
                name: _name,
                text: _text,
            } => {}
            Change::Unset { name: _name } => {}
            Change::Subst(_0) => {}
            Change::GroupSet {
                globs: _globs,
                text: _text,
            } => {}
            Change::GroupUnset { globs: _globs } => {}
            Change::SetTag { tag: _tag } => {}
            Change::ClearTag { tag: _tag } => {}
        }
    }
}

fn copied_names(alloc: Global, names: &[Name]) -> Result<Seq<Name>, NoMemory>
    ensures { IfOk result (λ copies. copies ≡ names.now) }
{
    let mut copies = Seq::empty(alloc);
    for name in names {
        copies.push(name.copy()?)?;
    }
    Ok(copies)
}

pub(crate) fn change_of<B: Builder>(
    alloc: Global,
    builder: &mut B,
    op: &Op,
) -> Result<Change, BuildRefusal>
    ensures ok { IfOk result (λ change. change ≡ change_of op.now) }
    ensures valid { IfOk result HasPattern }
    ensures stays { OnOk result (RefusesNone (B.state builder.old) (B.state builder.new)) }
    ensures refused { IfErr result (RefusesOp (B.state builder.old) (B.state builder.new) op.now) }
    ensures only { OnlyBuilds (B.state builder.old) (B.state builder.new) }
{
    match op {
        Op::Set { name, text } => Ok(Change::Set {
            name: kept(alloc, name.bytes())?,
            text: RewriteText::new(alloc, text)?,
        }),
        Op::Unset { name } => Ok(Change::Unset { name: name.copy()? }),
        Op::Subst {
            name,
            pattern,
            text,
        } => Ok(Change::Subst(Substitution {
            name: kept(alloc, name.bytes())?,
            text: RewriteText::new(alloc, text)?,
            matcher: Matcher::of_text(alloc, builder, pattern)?,
        })),
        Op::GroupSet { globs, text } => Ok(Change::GroupSet {
            globs: copied_names(alloc, globs)?,
            text: RewriteText::new(alloc, text)?,
        }),
        Op::GroupUnset { globs } => Ok(Change::GroupUnset {
            globs: copied_names(alloc, globs)?,
        }),
        Op::SetTag { tag } => Ok(Change::SetTag { tag: tag.copy()? }),
        Op::ClearTag { tag } => Ok(Change::ClearTag { tag: tag.copy()? }),
    }
}

/// An equal one, with caches of its own.
pub(crate) fn shared(alloc: Global, change: &Change) -> Result<Change, NoMemory>
    ensures { IfOk result (λ copy. copy ≡ change.now) }
{
    match change {
        Change::Set { name, text } => Ok(Change::Set {
            name: name.clone()?,
            text: text.share(alloc)?,
        }),
        Change::Unset { name } => Ok(Change::Unset { name: name.copy()? }),
        Change::Subst(search) => Ok(Change::Subst(Substitution {
            name: search.name.clone()?,
            matcher: search.matcher.share(alloc)?,
            text: search.text.share(alloc)?,
        })),
        Change::GroupSet { globs, text } => Ok(Change::GroupSet {
            globs: copied_names(alloc, globs.as_slice())?,
            text: text.share(alloc)?,
        }),
        Change::GroupUnset { globs } => Ok(Change::GroupUnset {
            globs: copied_names(alloc, globs.as_slice())?,
        }),
        Change::SetTag { tag } => Ok(Change::SetTag { tag: tag.copy()? }),
        Change::ClearTag { tag } => Ok(Change::ClearTag { tag: tag.copy()? }),
    }
}
