// Replacing what a pattern found.
ghost use Rattle.std.specs.Prelude.{◌≡◌, ◌≤◌, ◌++◌, ℕ, List, drop, length, slice_range, OnOk};
ghost use Rattle.sg_pattern.specs.Pattern.{InOrder};
ghost use Rattle.sg_rewrite.specs.Values.{cut, replaced};

use crate::render::VALUE_LIMIT;
use sg_device::NoMemory;

// Puts the bytes behind what the value holds, as far as the limit goes.
#[tactic(auto, using(crate::proofs::Cuts::cut_append))]
fn append(value: &mut Vec<u8>, bytes: &[u8]) -> Result<(), NoMemory>
    requires { length value.old.items ≤ 1048576 }
    ensures behind { OnOk result ((rest : List ℕ)
        → cut (value.new.items ++ rest) ≡ cut (value.old.items ++ (bytes.now ++ rest))) }
    ensures short { OnOk result (length value.new.items ≤ 1048576) }
{
    let room = VALUE_LIMIT - value.len();
    if bytes.len() > room {
        value.extend_from_slice(&bytes[..room])?;
        return Ok(());
    }
    value.extend_from_slice(bytes)?;
    Ok(())
}

// Puts what stands between two places behind what the value holds, and then the text.
fn append_both(
    value: &mut Vec<u8>,
    bytes: &[u8],
    at: usize,
    to: usize,
    text: &[u8],
) -> Result<(), NoMemory>
    requires short { length value.old.items ≤ 1048576 }
    requires order { at ≤ to }
    requires within { to ≤ length bytes.now }
    ensures behind { OnOk result ((rest : List ℕ) → cut (value.new.items ++ rest)
        ≡ cut (value.old.items ++ (slice_range bytes.now at to ++ text.now ++ rest))) }
    ensures short { OnOk result (length value.new.items ≤ 1048576) }
{
    append(value, &bytes[at..to])?;
    append(value, text)?;
    Ok(())
}

// Puts the bytes behind this place behind what the value holds.
fn append_rest(value: &mut Vec<u8>, bytes: &[u8], at: usize) -> Result<(), NoMemory>
    requires short { length value.old.items ≤ 1048576 }
    requires within { at ≤ length bytes.now }
    ensures { OnOk result (value.new.items ≡ cut (value.old.items ++ drop at bytes.now)) }
{
    append(value, &bytes[at..])?;
    Ok(())
}

/// Puts the bytes, with the text in the place of each span, in the place of what the value held.
pub(crate) fn replace(
    bytes: &[u8],
    spans: &[(usize, usize)],
    text: &[u8],
    value: &mut Vec<u8>,
) -> Result<(), NoMemory>
    requires { InOrder 0 (length bytes.now) spans.now }
    ensures { OnOk result (value.new.items ≡ cut (replaced spans.now bytes.now text.now 0)) }
{
    value.clear();
    let mut at = 0;
    for span in spans {
        let (from, to) = *span;
        append_both(value, bytes, at, from, text)?;
        at = to;
    }
    append_rest(value, bytes, at)?;
    Ok(())
}
