// A rewrite of messages.
ghost use Rattle.std.specs.Prelude.{◌≡◌, IfOk, IfErr, OnOk, OnErr};
ghost use Rattle.sg_outside.specs.World.{OnlyBuilds};
ghost use Rattle.sg_pattern.specs.Builds.{RefusesNone};
ghost use Rattle.sg_rewrite.specs.Changes.{HasPattern};
ghost use Rattle.sg_rewrite.specs.Ops.{IsOp, change_of, RefusesOp};
ghost use Rattle.sg_rewrite.specs.Rewritten.{rewritten};

use crate::Op;
use crate::change::{Change, change_of, shared};
use crate::groups::{set_group, unset_group};
use crate::render::unset;
use crate::single::{set_text, substitute};
use sg_device::NoMemory;
use sg_msg::Message;
use sg_pattern::{BuildRefusal, Builder};
use std::alloc::Global;
use std::marker::Model;

/// Room for texts, which is used again for each message.
#[derive(Drop)]
pub(crate) struct Buffers {
    /// A template's text.
    pub(crate) text: Vec<u8>,
    /// A value in which texts were replaced.
    pub(crate) value: Vec<u8>,
    /// The value that a name had.
    pub(crate) old: Vec<u8>,
}

/// A rewrite, with what searches for its pattern and room for texts.
pub struct Rewrite {
    change: Change,
    buffers: Buffers,
}

impl Drop for Rewrite {
    fn drop(self) {
        let Rewrite {
            change: _change,
            buffers: _buffers,
        } = self;
    }
}

impl Model for Rewrite {
    ghost use Rattle.sg_rewrite.specs.declared.change.Change.{Change as AChange};

    ghost Value = { AChange };

    ghost use Rattle.sg_rewrite.specs.Changes.{IsChange};

    ghost view = { λ r. r.change };

    ghost invariant = { λ r. IsChange r.change };
}

fn empty_buffers(alloc: Global) -> Buffers {
    Buffers {
        text: Vec::new(alloc),
        value: Vec::new(alloc),
        old: Vec::new(alloc),
    }
}

impl Rewrite {
    /// The rewrite that this asks for. The names that it sets, unsets or searches have 1 to 255 bytes and
    /// are no macros' (`sg_msg::is_hard`).
    ///
    /// BadPattern and TooLarge name the line of its pattern, as `Matcher::of_text` answers them.
    pub fn new<B: Builder>(alloc: Global, builder: &mut B, op: &Op) -> Result<Rewrite, BuildRefusal>
        requires { IsOp op.now }
        ensures ok { IfOk result (λ rewrite. rewrite ≡ change_of op.now) }
        ensures valid { IfOk result HasPattern }
        ensures stays { OnOk result (RefusesNone (B.state builder.old) (B.state builder.new)) }
        ensures refused { IfErr result
            (RefusesOp (B.state builder.old) (B.state builder.new) op.now) }
        ensures only { OnlyBuilds (B.state builder.old) (B.state builder.new) }
    {
        Ok(Rewrite {
            change: change_of(alloc, builder, op)?,
            buffers: empty_buffers(alloc),
        })
    }

    /// Changes the message. Its templates are rendered with each stamp at its own offset and without a
    /// fraction, and STAMP as DATE; `$_` is empty but in a `GroupSet`. A value has at most 1,048,576
    /// bytes: what is longer is cut there. Other handles of the message say what they said before, and
    /// without memory this one does too.
    #[tactic(auto, unfolding(crate::specs::Rewritten::rewritten))]
    pub fn apply(&mut self, alloc: Global, message: &mut Message) -> Result<(), NoMemory>
        ensures ok { OnOk result (message.new ≡ rewritten self.old message.old) }
        ensures err { OnErr result (message.new ≡ message.old) }
        ensures same { self.new ≡ self.old }
    {
        let buffers = &mut self.buffers;
        match &mut self.change {
            Change::Set { name, text } => set_text(alloc, name, text, message, buffers),
            Change::Unset { name } => unset(message, name.bytes()),
            Change::Subst(search) => substitute(alloc, search, message, buffers),
            Change::GroupSet { globs, text } => {
                let globs = globs.as_slice();
                set_group(alloc, globs, text, message, buffers)
            }
            Change::GroupUnset { globs } => unset_group(alloc, globs.as_slice(), message),
            Change::SetTag { tag } => message.set_tag(tag.bytes()),
            Change::ClearTag { tag } => message.clear_tag(tag.bytes()),
        }
    }

    /// An equal one, with caches of its own.
    pub fn share(&self, alloc: Global) -> Result<Rewrite, NoMemory>
        ensures { IfOk result (λ rewrite. rewrite ≡ self.now) }
    {
        Ok(Rewrite {
            change: shared(alloc, &self.change)?,
            buffers: empty_buffers(alloc),
        })
    }
}
