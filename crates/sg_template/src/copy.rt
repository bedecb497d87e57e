// Copies of templates.
ghost use Rattle.std.specs.Prelude.{◌≡◌, IfOk};

use sg_list::Seq;
use sg_macro::TemplatePart;
use std::alloc::{AllocError, Global};

fn copied(part: &TemplatePart) -> Result<TemplatePart, AllocError>
    ensures { IfOk result (λ copy. copy ≡ part.now) }
{
    match part {
        TemplatePart::Literal(text) => Ok(TemplatePart::Literal(text.copy()?)),
        TemplatePart::Macro { kind, default } => Ok(TemplatePart::Macro {
            kind: *kind,
            default: default.copy()?,
        }),
        TemplatePart::Pair { name, default } => Ok(TemplatePart::Pair {
            name: name.copy()?,
            default: default.copy()?,
        }),
    }
}

pub(crate) fn copied_parts(
    alloc: Global,
    parts: &[TemplatePart],
) -> Result<Seq<TemplatePart>, AllocError>
    ensures { IfOk result (λ copy. copy ≡ parts.now) }
{
    let mut copies = Seq::empty(alloc);
    for part in parts {
        copies.push(copied(part)?)?;
    }
    Ok(copies)
}
