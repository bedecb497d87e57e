// The texts that rewrites set.
ghost use Rattle.std.specs.Prelude.{◌≡◌, None, IfOk, OnOk};
ghost use Rattle.sg_template.specs.Render.{render_of};
ghost use Rattle.sg_rewrite.specs.Texts.{IsConstantText};
ghost use Rattle.sg_rewrite.specs.Values.{cut, text_over};

use crate::render::{VALUE_LIMIT, at_most};
use bytes::Bytes;
use sg_device::NoMemory;
use sg_msg::Message;
use sg_template::{Env, Template, own_env};
use std::alloc::Global;
use std::marker::Model;

/// A template, and its text where that is the same over every message and short enough for a value.
#[derive(Drop)]
pub(crate) struct RewriteText {
    template: Template,
    constant: Option<Bytes>,
}

impl Model for RewriteText {
    ghost use Rattle.std.specs.Prelude.{List};
    ghost use Rattle.sg_macro.specs.declared.part.TemplatePart.{TemplatePart};

    ghost Value = { List TemplatePart };

    ghost use Rattle.sg_rewrite.specs.Texts.{IsConstantText};

    ghost view = { λ t. t.template };

    ghost invariant = { λ t. IsConstantText t.template t.constant };
}

/// The bytes in memory that isn't freed, so that what has them keeps no count of owners: a program makes
/// each of its rewrites once, and `Rewrite::share` makes no second copy of them.
pub(crate) fn kept(alloc: Global, bytes: &[u8]) -> Result<Bytes, NoMemory>
    ensures { IfOk result (λ kept. kept ≡ bytes.now) }
{
    let kept = bytes.to_vec(alloc)?;
    Ok(Bytes::from_static(kept.leak()))
}

// The text, where it is the same over every message and short enough for a value.
fn constant(alloc: Global, template: &Template) -> Result<Option<Bytes>, NoMemory>
    ensures { IfOk result (IsConstantText template.now) }
{
    let Some(text) = template.constant() else {
        return Ok(None);
    };
    if text.len() > VALUE_LIMIT {
        return Ok(None);
    }
    let bytes = kept(alloc, text)?;
    Ok(Some(bytes))
}

// The same text, if it is kept.
fn shared(constant: &Option<Bytes>) -> Result<Option<Bytes>, NoMemory>
    ensures { IfOk result (λ copy. copy ≡ constant.now) }
{
    match constant {
        Some(text) => {
            let copy = text.clone()?;
            Ok(Some(copy))
        }
        None => Ok(None),
    }
}

impl RewriteText {
    /// The texts of the template.
    pub(crate) fn new(alloc: Global, template: &Template) -> Result<RewriteText, NoMemory>
        ensures { IfOk result (λ text. text ≡ template.now) }
    {
        let copy = template.copy(alloc)?;
        let constant = constant(alloc, &copy)?;
        Ok(RewriteText {
            template: copy,
            constant,
        })
    }

    /// An equal one.
    pub(crate) fn share(&self, alloc: Global) -> Result<RewriteText, NoMemory>
        ensures { IfOk result (λ text. text ≡ self.now) }
    {
        let copy = self.template.copy(alloc)?;
        let constant = shared(&self.constant)?;
        Ok(RewriteText {
            template: copy,
            constant,
        })
    }

    /// Puts the text over the message in the place of what was there.
    pub(crate) fn render(
        &self,
        message: &Message,
        env: &Env,
        out: &mut Vec<u8>,
    ) -> Result<(), NoMemory>
        ensures { OnOk result (out.new.items ≡ render_of self.now message.now env.now) }
    {
        out.clear();
        self.template.render(message, env, out)?;
        Ok(())
    }

    /// As much of the text over the message as a rewrite sets. Where it is the same over every message its
    /// memory is shared, else it is made in the room.
    pub(crate) fn value(
        &self,
        alloc: Global,
        message: &Message,
        room: &mut Vec<u8>,
    ) -> Result<Bytes, NoMemory>
        ensures { IfOk result (λ value. value ≡ cut (text_over self.now None message.now)) }
    {
        if let Some(constant) = &self.constant {
            let value = constant.clone()?;
            return Ok(value);
        }
        self.render(message, &own_env(None), room)?;
        let value = Bytes::copy_from_slice(alloc, at_most(room))?;
        Ok(value)
    }
}
