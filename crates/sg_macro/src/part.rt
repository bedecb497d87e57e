// The parts of a template.
ghost use Rattle.std.specs.Prelude.{◌≡◌, IfOk};

use crate::{Macro, macro_of, pair_name};
use sg_device::Name;
use std::alloc::{AllocError, Global};

/// A part of a template.
pub enum TemplatePart {
    /// A text that stands for itself.
    Literal(Name),
    /// A macro, and the text that stands in place of an empty one.
    Macro { kind: Macro, default: Name },
    /// The value of a name, and the text that stands in place of an empty one.
    Pair { name: Name, default: Name },
}

impl Drop for TemplatePart {
    fn drop(self) {
        match self {
            TemplatePart::Literal(_0) => {}
            TemplatePart::Macro {
                kind: _kind,
                default: _default,
            } => {}
            TemplatePart::Pair {
                name: _name,
                default: _default,
            } => {}
        }
    }
}

impl TemplatePart {
    ghost use Rattle.sg_macro.specs.Reading.{named};

    // What `${NAME:-default}` stands for.
    pub(crate) fn named(
        alloc: Global,
        name: &[u8],
        default: &[u8],
    ) -> Result<TemplatePart, AllocError>
        ensures { IfOk result (λ part. part ≡ named name.now default.now) }
    {
        let default = Name::new(alloc, default)?;
        match macro_of(name) {
            Some(kind) => Ok(TemplatePart::Macro { kind, default }),
            None => Ok(TemplatePart::Pair {
                name: Name::new(alloc, pair_name(name))?,
                default,
            }),
        }
    }

    pub(crate) fn literal(alloc: Global, text: &[u8]) -> Result<TemplatePart, AllocError>
        ensures { IfOk result (λ part. part ≡ TemplatePart.Literal text.now) }
    {
        Ok(TemplatePart::Literal(Name::new(alloc, text)?))
    }
}
