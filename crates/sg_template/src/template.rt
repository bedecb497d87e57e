// Templates as a whole.
ghost use Rattle.std.specs.Prelude.{◌≡◌, [], ◌∷◌, ◌++◌, IfSome, IfOk, IfErr, OnOk, OnErr, Ok, option_copied};
ghost use Rattle.sg_macro.specs.Reading.{parts_of, RefusesTemplate};
ghost use Rattle.sg_msg.specs.Message.{Content};
ghost use Rattle.sg_template.specs.declared.env.Env.{Env as AnEnv};
ghost use Rattle.sg_template.specs.Render.{constant_of, render_of};
ghost use Rattle.sg_template.specs.Path.{path_of};

use crate::Env;
use crate::append::append_parts;
use crate::copy::copied_parts;
use crate::path::append_path;
use sg_list::Seq;
use sg_macro::{TemplateFault, TemplatePart, read_parts};
use sg_msg::Message;
use std::alloc::{AllocError, Global};
use std::marker::Model;

/// A text with macros and fields of a message in it, seen as its parts.
#[derive(Drop)]
pub struct Template {
    parts: Seq<TemplatePart>,
}

impl Model for Template {
    ghost use Rattle.std.specs.Prelude.{List};
    ghost use Rattle.sg_macro.specs.declared.part.TemplatePart.{TemplatePart as APart};

    ghost Value = { List APart };

    ghost view = { λ t. t.parts };
}

// The text of a part that stands for itself.
fn literal(part: &TemplatePart) -> Option<&[u8]>
    ensures { option_copied result ≡ constant_of (part.now ∷ []) }
{
    match part {
        TemplatePart::Literal(text) => Some(text.bytes()),
        _ => None,
    }
}

impl Template {
    /// Reads a template.
    ///
    /// `$$` is a dollar. `$NAME`, with the longest run of letters, digits and `_`, and `${NAME}` are
    /// a macro's text or a pair's value; `${NAME:-default}` is the default, taken literally, where
    /// that is empty. A dollar before any other byte is itself. Of several faults the first in the
    /// text is answered.
    pub fn read(alloc: Global, text: &[u8]) -> Result<Template, TemplateFault>
        ensures ok { IfOk result (λ template. parts_of text.now ≡ Ok template) }
        ensures err { IfErr result (RefusesTemplate (parts_of text.now)) }
    {
        Ok(Template {
            parts: read_parts(alloc, text)?,
        })
    }

    /// Another template of the same parts.
    pub fn copy(&self, alloc: Global) -> Result<Template, AllocError>
        ensures { IfOk result (λ copy. copy ≡ self.now) }
    {
        Ok(Template {
            parts: copied_parts(alloc, self.parts.as_slice())?,
        })
    }

    /// The text of a template without macros and names, which is the same over every message.
    pub fn constant(&self) -> Option<&[u8]>
        ensures value { option_copied result ≡ constant_of self.now }
        ensures same { IfSome result (λ text. (content : Content) (env : AnEnv)
            → render_of self.now content env ≡ text.now) }
    {
        match self.parts.as_slice() {
            [] => Some(&[]),
            [part] => literal(part),
            _ => None,
        }
    }

    /// Appends the template's text over the message. Without memory `out` stays as it was.
    pub fn render(&self, message: &Message, env: &Env, out: &mut Vec<u8>) -> Result<(), AllocError>
        ensures ok { OnOk result
            (out.new.items ≡ out.old.items ++ render_of self.now message.now env.now) }
        ensures err { OnErr result (out.new.items ≡ out.old.items) }
    {
        let before = out.len();
        let appended = append_parts(self.parts.as_slice(), message, env, out);
        if appended.is_err() {
            out.truncate(before);
        }
        appended
    }

    /// Appends the template's text over the message as the path of a file, of 1 to 4,095 bytes.
    ///
    /// In the text of each macro and of each value `/` and NUL are `_`, and so is a dot at its front,
    /// so that no message picks another directory. Bytes past 4,095 are cut off, and an empty path is
    /// `_`. Without memory `out` stays as it was.
    pub fn render_path(
        &self,
        message: &Message,
        env: &Env,
        out: &mut Vec<u8>,
    ) -> Result<(), AllocError>
        ensures ok { OnOk result
            (out.new.items ≡ out.old.items ++ path_of self.now message.now env.now) }
        ensures err { OnErr result (out.new.items ≡ out.old.items) }
    {
        let start = out.len();
        let appended = append_path(self.parts.as_slice(), message, env, out);
        if appended.is_err() {
            out.truncate(start);
        }
        appended
    }
}
