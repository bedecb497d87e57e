// The names of the daemon's own stores.
ghost use Rattle.std.specs.Prelude.{◌≡◌, ◌<◌, ◌++◌, IfOk, OnOk};
ghost use Rattle.sg_options.specs.Stores as spec;

use sg_device::{Name, NoMemory};
use std::alloc::Global;

fn is_plain(byte: u8) -> bool
    ensures { result ≡ spec.is_plain byte }
{
    byte.is_ascii_alphanumeric() || byte == b'-' || byte == b'.' || byte == b','
}

fn hex_digit(half: u8) -> u8
    requires { half < 16 }
    ensures { result ≡ spec.hex_digit half }
{
    if half < 10 { 48 + half } else { 87 + half }
}

fn append_byte(text: &mut Vec<u8>, byte: u8) -> Result<(), NoMemory>
    ensures { OnOk result (text.new.items ≡ text.old.items ++ spec.escaped_byte byte) }
{
    if is_plain(byte) {
        text.push(byte)?;
        return Ok(());
    }
    text.extend_from_slice(&[b'_', hex_digit(byte / 16), hex_digit(byte % 16)])?;
    Ok(())
}

fn append_escaped(text: &mut Vec<u8>, bytes: &[u8]) -> Result<(), NoMemory>
    ensures { OnOk result (text.new.items ≡ text.old.items ++ spec.escaped bytes.now) }
{
    for byte in bytes {
        append_byte(text, *byte)?;
    }
    Ok(())
}

/// The name of the store that keeps the position in the file of this path: `pos-` and the path, in which
/// each byte but a letter, a digit, `-`, `.` and `,` is `_` and two hexadecimal digits.
pub fn position_name(alloc: Global, path: &[u8]) -> Result<Name, NoMemory>
    ensures { IfOk result (λ name. name ≡ spec.position_name path.now) }
{
    let mut text = b"pos-".to_vec(alloc)?;
    append_escaped(&mut text, path)?;
    Ok(Name::from_vec(text))
}

/// The name of the store of a reliable disk-buffer: the directory, `/queue-`, and what the destination is, in
/// which the bytes are written as in the name of a position store.
pub fn buffer_name(alloc: Global, directory: &[u8], destination: &[u8]) -> Result<Name, NoMemory>
    ensures { IfOk result (λ name. name ≡ spec.buffer_name directory.now destination.now) }
{
    let mut text = directory.to_vec(alloc)?;
    text.extend_from_slice(b"/queue-")?;
    append_escaped(&mut text, destination)?;
    Ok(Name::from_vec(text))
}

/// The same of one that isn't reliable, with `/over-`.
pub fn overflow_name(alloc: Global, directory: &[u8], destination: &[u8]) -> Result<Name, NoMemory>
    ensures { IfOk result (λ name. name ≡ spec.overflow_name directory.now destination.now) }
{
    let mut text = directory.to_vec(alloc)?;
    text.extend_from_slice(b"/over-")?;
    append_escaped(&mut text, destination)?;
    Ok(Name::from_vec(text))
}
