// The text of a hint.
ghost use Rattle.std.specs.Prelude.{◌≡◌, ◌++◌, ◌≤◌, ◌<◌, ◌^◌, IfOk, IfSome, OnOk, Some, codes, decimal, drop, length, replicate};
ghost use Rattle.sg_report.specs.Fault.{name_at};
ghost use Rattle.sg_hint.specs.Hint.{HasHintForm};
ghost use Rattle.sg_hint.specs.Text.{behind_place, caret, excerpt, hidden_before, hint_text, kind_line, place_text, shown_part, suggestion};

use crate::shown::append_shown;
use sg_device::{Name, NoMemory};
use sg_lex::ConfigFault;
use sg_report::fault_text;
use std::alloc::Global;

/// The bytes of a line that are shown at most.
const WIDTH: usize = 120;

/// A token of the line, and the name that was meant by it.
#[derive(Drop)]
pub struct Spotted {
    /// The byte of the line at which it begins, counted from 1.
    pub column: u32,
    pub meant: Option<Name>,
}

/// The name of the file of that number, empty where there is none.
pub fn name_at(names: &[Name], file: u32) -> &[u8]
    ensures { result.now ≡ name_at names.now file }
{
    match names.get(file as usize) {
        Some(name) => name.bytes(),
        None => b"",
    }
}

/// Appends a number, as it stands behind the file's name: `:N`.
pub fn append_number(alloc: Global, number: u32, out: &mut Vec<u8>) -> Result<(), NoMemory>
    ensures is { OnOk result (out.new.items ≡ out.old.items ++ (codes ":" ++ decimal number)) }
    ensures small { number < 2 ^ 32 }
{
    let text = format!(in alloc; ":{number}")?;
    out.extend_from_slice(text.as_bytes())?;
    Ok(())
}

/// The name of the fault's file, and its line.
fn place_text(alloc: Global, fault: &ConfigFault, names: &[Name]) -> Result<Vec<u8>, NoMemory>
    ensures is { IfOk result (λ text. text.items ≡ place_text fault.now names.now) }
    ensures small { OnOk result (fault.now.line < 2 ^ 32) }
{
    let mut text = Vec::new(alloc);
    append_shown(name_at(names, fault.file), &mut text)?;
    append_number(alloc, fault.line, &mut text)?;
    Ok(text)
}

/// The text without so many bytes at its front.
fn behind(text: &[u8], count: usize) -> &[u8]
    ensures { result.now ≡ drop count text.now }
{
    match text.get(count..) {
        Some(rest) => rest,
        None => b"",
    }
}

/// What is wrong, as the program says it: `: KIND` and the end of the line.
fn append_kind(alloc: Global, fault: &ConfigFault, out: &mut Vec<u8>) -> Result<(), NoMemory>
    ensures { OnOk result (out.new.items ≡ out.old.items ++ kind_line fault.now) }
{
    let mut text = Vec::new(alloc);
    fault_text(alloc, fault, &[], &mut text)?;
    let line = fault.line;
    let number = format!(in alloc; ":{line}")?;
    out.extend_from_slice(behind(&text, number.len()))?;
    Ok(())
}

/// How many bytes of a line of that length stand before what is shown, with the token at this byte of it.
pub fn hidden_before(total: usize, at: usize) -> usize
    ensures { result ≡ hidden_before total at }
{
    if total <= WIDTH {
        return 0;
    }
    at.saturating_sub(WIDTH / 2).min(total - WIDTH)
}

/// What is shown of a line behind so many of its bytes.
fn shown_part(line: &[u8], hidden: usize) -> &[u8]
    ensures { result.now ≡ shown_part line.now hidden }
{
    let rest = behind(line, hidden);
    if rest.len() <= WIDTH {
        return rest;
    }
    &rest[..WIDTH]
}

/// Appends what is shown of a line behind so many of its bytes.
pub fn append_line(line: &[u8], hidden: usize, out: &mut Vec<u8>) -> Result<(), NoMemory>
    ensures { OnOk result (out.new.items ≡ out.old.items ++ excerpt line.now hidden) }
{
    out.extend_from_slice(b"    ")?;
    append_shown(shown_part(line, hidden), out)?;
    out.extend_from_slice(b"\n")?;
    Ok(())
}

fn append_blanks(count: usize, out: &mut Vec<u8>) -> Result<(), NoMemory>
    ensures { OnOk result (out.new.items ≡ out.old.items ++ replicate count 32) }
{
    for _blank in 0..count {
        out.push(b' ')?;
    }
    Ok(())
}

fn append_text(text: &[u8], out: &mut Vec<u8>) -> Result<(), NoMemory>
    ensures { OnOk result (out.new.items ≡ out.old.items ++ text.now) }
{
    out.extend_from_slice(text)?;
    Ok(())
}

fn append_name(name: &Name, out: &mut Vec<u8>) -> Result<(), NoMemory>
    ensures { OnOk result (out.new.items ≡ out.old.items ++ suggestion (Some name.now)) }
{
    append_text(b" did you mean `", out)?;
    append_shown(name.bytes(), out)?;
    append_text(b"`?", out)?;
    Ok(())
}

fn append_suggestion(meant: &Option<Name>, out: &mut Vec<u8>) -> Result<(), NoMemory>
    ensures { OnOk result (out.new.items ≡ out.old.items ++ suggestion meant.now) }
{
    if let Some(name) = meant {
        append_name(name, out)?;
    }
    Ok(())
}

/// Appends a caret below what is shown, behind so many blanks, and what may have been meant.
pub fn append_caret(before: usize, meant: &Option<Name>, out: &mut Vec<u8>) -> Result<(), NoMemory>
    ensures { OnOk result (out.new.items ≡ out.old.items ++ caret before meant.now) }
{
    out.extend_from_slice(b"    ")?;
    append_blanks(before.min(WIDTH), out)?;
    out.extend_from_slice(b"^")?;
    append_suggestion(meant, out)?;
    out.extend_from_slice(b"\n")?;
    Ok(())
}

/// What stands behind the place where the token is known.
fn append_spotted(
    alloc: Global,
    fault: &ConfigFault,
    line: &[u8],
    spotted: &Spotted,
    out: &mut Vec<u8>,
) -> Result<(), NoMemory>
    ensures is { OnOk result
        (out.new.items ≡ out.old.items ++ behind_place fault.now line.now (Some spotted.now)) }
    ensures small { OnOk result (spotted.now.column < 2 ^ 32) }
{
    append_number(alloc, spotted.column, out)?;
    append_kind(alloc, fault, out)?;
    let at = (spotted.column as usize).saturating_sub(1);
    let hidden = hidden_before(line.len(), at);
    append_line(line, hidden, out)?;
    append_caret(at.saturating_sub(hidden), &spotted.meant, out)?;
    Ok(())
}

/// What stands behind the place.
fn behind_place(
    alloc: Global,
    fault: &ConfigFault,
    line: &[u8],
    spotted: &Option<Spotted>,
) -> Result<Vec<u8>, NoMemory>
    ensures is { IfOk result (λ out. out.items ≡ behind_place fault.now line.now spotted.now) }
    ensures small { OnOk result (IfSome spotted.now (λ token. token.column < 2 ^ 32)) }
{
    let mut out = Vec::new(alloc);
    if let Some(spotted) = spotted {
        append_spotted(alloc, fault, line, spotted, &mut out)?;
    } else {
        append_kind(alloc, fault, &mut out)?;
        append_line(line, 0, &mut out)?;
    }
    Ok(out)
}

/// The hint of a fault at that line of its file.
pub fn write_hint(
    alloc: Global,
    fault: &ConfigFault,
    names: &[Name],
    line: &[u8],
    spotted: &Option<Spotted>,
) -> Result<Vec<u8>, NoMemory>
    requires { IfSome spotted.now (λ token. IfSome token.meant (λ name. length name ≤ 64)) }
    ensures form { IfOk result (λ text. HasHintForm fault.now names.now text.items) }
    ensures is { IfOk result
        (λ text. text.items ≡ hint_text fault.now names.now line.now spotted.now) }
{
    let mut text = place_text(alloc, fault, names)?;
    let rest = behind_place(alloc, fault, line, spotted)?;
    text.extend_from_slice(&rest)?;
    Ok(text)
}
