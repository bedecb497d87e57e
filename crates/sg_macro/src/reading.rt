// Reading a template's text whole.
ghost use Rattle.std.specs.Prelude.{◌≡◌, IfOk, IfErr, Ok};
ghost use Rattle.sg_macro.specs.Reading.{parts_of, RefusesTemplate};

use crate::cut::{CutPart, behind, first_cut};
use crate::{TemplateFault, TemplatePart};
use sg_list::Seq;
use std::alloc::Global;

/// The parts of a template's text, in its order.
///
/// `$$` is a dollar. `$NAME`, with the longest run of letters, digits and `_`, and `${NAME}` are a
/// macro's text or a pair's value; `${NAME:-default}` is the default, taken literally, where that is
/// empty. A dollar before any other byte is itself. A `${` without its `}` and a template function,
/// `$(`, are faults; of several the first in the text is answered.
pub fn read_parts(alloc: Global, text: &[u8]) -> Result<Seq<TemplatePart>, TemplateFault>
    ensures ok { IfOk result (λ parts. parts_of text.now ≡ Ok parts) }
    ensures err { IfErr result (RefusesTemplate (parts_of text.now)) }
{
    let mut parts = Seq::empty(alloc);
    let mut rest = text;
    while !rest.is_empty() {
        match first_cut(alloc, rest) {
            Ok(CutPart { part, len }) => {
                parts.push(part)?;
                rest = behind(len, rest);
            }
            Err(fault) => return Err(fault),
        }
    }
    Ok(parts)
}
