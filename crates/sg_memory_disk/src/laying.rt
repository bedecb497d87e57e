// Bytes laid over others.
ghost use Rattle.std.specs.Prelude.{◌≡◌, ◌+◌, ◌-◌, ◌<◌, ◌≤◌, ◌^◌, ◌++◌, length, replicate, take, drop, MatchResult, OnOk};
ghost use Rattle.sg_device.specs.DiskBytes.{overlaid};
ghost use Rattle.sg_memory_disk.specs.Pick.{laid, pick_at, spliced};

use crate::Pick;
use std::alloc::AllocError;

/// Makes the bytes reach this end, where they don't, by bytes of this kind.
pub fn grow(bytes: &mut Vec<u8>, end: usize, byte: u8) -> Result<(), AllocError>
    ensures { MatchResult result
        (λ _. bytes.new.items ≡ bytes.old.items ++ replicate (end - length bytes.old.items) byte)
        (λ _. bytes.new.items ≡ bytes.old.items) }
{
    let size = bytes.len();
    if end <= size {
        return Ok(());
    }
    bytes.resize(end, byte)?;
    Ok(())
}

/// Copies over the bytes at this place.
pub fn copy_over(bytes: &mut [u8], start: usize, from: &[u8])
    requires { start + length from.now ≤ length bytes.old }
    ensures { bytes.new
        ≡ take start bytes.old ++ from.now ++ drop (start + length from.now) bytes.old }
{
    bytes[start..start + from.len()].copy_from_slice(from);
}

/// A write of `size` bytes, or as many as there are, by the pick for a write of this number.
pub fn lay(
    picks: &[Pick],
    number: usize,
    into: &mut Vec<u8>,
    at: u64,
    size: u64,
    from: &[u8],
) -> Result<(), AllocError>
    requires whole { at + size < 2 ^ 63 }
    requires fits { length from.now ≤ size }
    ensures { OnOk result
        (into.new.items ≡ laid (pick_at picks.now number) at size from.now into.old.items) }
{
    let start = at as usize;
    let count = size as usize;
    match picks.get(number.min(picks.len().saturating_sub(1))) {
        None | Some(Pick::Old) => {}
        Some(Pick::New) => overlay(into, start, from)?,
        Some(Pick::Ones) => fill(into, start, count, 255)?,
        Some(Pick::Zeros) => fill(into, start, count, 0)?,
        Some(Pick::Bytes(torn)) => splice(into, start, count, torn)?,
    }
    Ok(())
}

/// Writes bytes, and zeros into a gap behind the old end.
pub fn overlay(into: &mut Vec<u8>, start: usize, from: &[u8]) -> Result<(), AllocError>
    requires { start + length from.now < 2 ^ 63 }
    ensures { OnOk result (into.new.items ≡ overlaid 0 start from.now into.old.items) }
{
    grow(into, start + from.len(), 0)?;
    copy_over(into, start, from);
    Ok(())
}

// Writes this byte so many times, and into a gap behind the old end.
fn fill(into: &mut Vec<u8>, start: usize, count: usize, byte: u8) -> Result<(), AllocError>
    requires { start + count < 2 ^ 63 }
    ensures { OnOk result
        (into.new.items ≡ overlaid byte start (replicate count byte) into.old.items) }
{
    grow(into, start + count, byte)?;
    fill_over(into, start, count, byte);
    Ok(())
}

// Writes this byte over the bytes at this place.
fn fill_over(bytes: &mut [u8], start: usize, count: usize, byte: u8)
    requires { start + count ≤ length bytes.old }
    ensures { bytes.new
        ≡ take start bytes.old ++ replicate count byte ++ drop (start + count) bytes.old }
{
    bytes[start..start + count].fill(byte);
}

// Writes these bytes from the place on, or from the old end, up to the end of a write of `size` bytes.
fn splice(into: &mut Vec<u8>, at: usize, size: usize, torn: &[u8]) -> Result<(), AllocError>
    requires { at + size < 2 ^ 63 }
    ensures { OnOk result (into.new.items ≡ spliced at size torn.now into.old.items) }
{
    let start = at.min(into.len());
    let count = torn.len().min(at + size - start);
    overlay(into, start, &torn[..count])?;
    Ok(())
}
