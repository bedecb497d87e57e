// The texts of rows, and those that are made.

use sg_device::NoMemory;
use std::alloc::Global;

/// A row's text.
pub(crate) fn push_text(text: &mut Vec<u8>, row: &str) -> Result<(), NoMemory> {
    for byte in row.as_bytes() {
        match *byte {
            b'~' => text.push(b'\n')?,
            b'^' => push_variables(text)?,
            _ => text.push(*byte)?,
        }
    }
    Ok(())
}

/// More variables of 999 bytes than a value holds.
fn push_variables(text: &mut Vec<u8>) -> Result<(), NoMemory> {
    for _ in 0..1050 {
        text.extend_from_slice(b"`V`")?;
    }
    Ok(())
}

/// A definition of a variable, of so many bytes.
fn push_definition(text: &mut Vec<u8>, name: u8, count: usize) -> Result<(), NoMemory> {
    text.extend_from_slice(b"@define ")?;
    text.push(name)?;
    text.extend_from_slice(b" \"")?;
    for _ in 0..count {
        text.push(name)?;
    }
    text.extend_from_slice(b"\" ")?;
    Ok(())
}

/// How much room a text in a row may have.
pub(crate) const MOST_ROOM: usize = 175;

/// A first line that leaves so much room: two hundred uses of a block whose body comes to nothing
/// count 5,242 each, and the value of a variable the rest.
fn push_room(text: &mut Vec<u8>, room: usize) -> Result<(), NoMemory> {
    text.extend_from_slice(b"@version: 4.2 block root f() {@module ")?;
    push_times(text, 5232, b"m")?;
    text.extend_from_slice(b"};")?;
    push_times(text, 200, b"f() block root g() {};")?;
    push_definition(text, b'W', MOST_ROOM.saturating_sub(room))?;
    text.extend_from_slice(b"\n")
}

/// A text behind a first line that leaves so much room.
pub(crate) fn text_with_room(alloc: Global, room: usize, tail: &str) -> Result<Vec<u8>, NoMemory> {
    let mut text = Vec::new(alloc);
    push_room(&mut text, room)?;
    push_text(&mut text, tail)?;
    Ok(text)
}

/// A text behind a first line.
pub(crate) fn text_behind(alloc: Global, head: &str, tail: &str) -> Result<Vec<u8>, NoMemory> {
    let mut text = Vec::new(alloc);
    push_text(&mut text, head)?;
    push_text(&mut text, tail)?;
    Ok(text)
}

/// A definition on each line that names the one before twice.
fn push_doubles(text: &mut Vec<u8>, alloc: Global) -> Result<(), NoMemory> {
    text.extend_from_slice(b"@define a0 \"0123456789\"\n")?;
    for k in 1..21u32 {
        let line = format!(in alloc; "@define a{} \"`a{}``a{}`\"\n", k, k - 1, k - 1)?;
        text.extend_from_slice(line.as_bytes())?;
    }
    Ok(())
}

/// Blocks that use the one before twice, 40 deep.
fn push_pairs(text: &mut Vec<u8>, alloc: Global) -> Result<(), NoMemory> {
    text.extend_from_slice(b"block root b0(){};\n")?;
    for k in 1..41u32 {
        let line = format!(in alloc; "block root b{}() {{b{}(); b{}();}};", k, k - 1, k - 1)?;
        text.extend_from_slice(line.as_bytes())?;
    }
    text.extend_from_slice(b"\nb40();")?;
    Ok(())
}

/// The same bytes again and again.
fn push_times(text: &mut Vec<u8>, count: usize, bytes: &[u8]) -> Result<(), NoMemory> {
    for _ in 0..count {
        text.extend_from_slice(bytes)?;
    }
    Ok(())
}

/// Uses in the values of uses, 1,000 deep, over a variable of 10,000 bytes.
fn push_nested(text: &mut Vec<u8>) -> Result<(), NoMemory> {
    push_definition(text, b'V', 10_000)?;
    text.extend_from_slice(b"block root a(k()) {`k`};\n")?;
    push_times(text, 1_000, b"{a(k(")?;
    text.extend_from_slice(b"`V`")?;
    push_times(text, 1_000, b"))}")?;
    Ok(())
}

/// Includes of a file of no bytes, one more than there may be, and one that isn't asked for.
fn push_files(text: &mut Vec<u8>) -> Result<(), NoMemory> {
    push_times(text, 65_535, b"@include\"e\"\n")?;
    text.extend_from_slice(b"@include\"*\"")
}

/// The longest text that a file may have.
fn push_limit(text: &mut Vec<u8>) -> Result<(), NoMemory> {
    text.extend_from_slice(b"a;#")?;
    text.resize(1_048_576, b'$')
}

/// A block with a thousand defaults, and its uses.
fn push_defaults(text: &mut Vec<u8>) -> Result<(), NoMemory> {
    text.extend_from_slice(b"block root a(")?;
    push_times(text, 1_000, b"k(@module x)")?;
    text.extend_from_slice(b") {};\n")?;
    push_times(text, 100, b"{a();}")
}

/// The text of a name behind a first line. Whether there is one.
fn push_made(text: &mut Vec<u8>, alloc: Global, name: &str) -> Result<bool, NoMemory> {
    match name {
        "doubles" => push_doubles(text, alloc)?,
        "hundreds" => text.extend_from_slice(b"@include \"h01\"")?,
        "files" => push_files(text)?,
        "limit" => push_limit(text)?,
        "beyond" => text.resize(1_048_577, b'$')?,
        "nested" => push_nested(text)?,
        "pairs" => push_pairs(text, alloc)?,
        "defaults" => push_defaults(text)?,
        _ => return Ok(false),
    }
    Ok(true)
}

/// The text of a name, where there is one.
pub(crate) fn made_text(alloc: Global, name: &str) -> Result<Option<Vec<u8>>, NoMemory> {
    let mut text = b"@version: 4.2\n".to_vec(alloc)?;
    if push_made(&mut text, alloc, name)? {
        Ok(Some(text))
    } else {
        Ok(None)
    }
}

/// The texts that stand before those of the tables: nothing, a version, and a variable of 999 bytes.
pub(crate) fn head_of(
    alloc: Global,
    with_version: bool,
    with_variable: bool,
) -> Result<Vec<u8>, NoMemory> {
    let mut head = Vec::new(alloc);
    if with_version {
        head.extend_from_slice(b"@version: 4.2 ")?;
    }
    if with_variable {
        push_definition(&mut head, b'V', 999)?;
        head.push(b'\n')?;
    }
    Ok(head)
}

/// A hundred lines that include the file of this name.
pub(crate) fn push_includes(text: &mut Vec<u8>, name: &str) -> Result<(), NoMemory> {
    for _ in 0..100 {
        text.extend_from_slice(b"@include \"")?;
        text.extend_from_slice(name.as_bytes())?;
        text.extend_from_slice(b"\"\n")?;
    }
    Ok(())
}
