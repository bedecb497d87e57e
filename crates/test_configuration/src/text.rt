// Texts of numbers, names and faults.

use sg_device::{Name, NoMemory};
use sg_fault::kind_number;
use sg_lex::{Cmp, ConfigFault};
use sg_report::fault_text;
use std::alloc::Global;
use std::io;

pub(crate) fn copied(alloc: Global, text: &[u8]) -> io::Result<Vec<u8>> {
    Ok(Vec::from_slice(alloc, text)?)
}

pub(crate) fn put(out: &mut Vec<u8>, text: &[u8]) -> Result<(), NoMemory> {
    out.extend_from_slice(text)
}

pub(crate) fn put_flag(out: &mut Vec<u8>, is_set: bool, flag: &[u8]) -> Result<(), NoMemory> {
    if is_set {
        out.extend_from_slice(flag)?;
    }
    Ok(())
}

// A word and a number behind it.
pub(crate) fn put_number(
    alloc: Global,
    out: &mut Vec<u8>,
    word: &[u8],
    number: u64,
) -> Result<(), NoMemory> {
    let digits = format!(in alloc; "{number}")?;
    out.extend_from_slice(word)?;
    out.extend_from_slice(digits.as_bytes())
}

// The word in front of each number.
pub(crate) fn put_numbers(
    alloc: Global,
    out: &mut Vec<u8>,
    word: &[u8],
    numbers: &[u32],
) -> Result<(), NoMemory> {
    for number in numbers {
        put_number(alloc, out, word, u64::from(*number))?;
    }
    Ok(())
}

pub(crate) fn put_name(out: &mut Vec<u8>, name: Option<&Name>) -> Result<(), NoMemory> {
    match name {
        Some(name) => out.extend_from_slice(name.bytes()),
        None => out.extend_from_slice(b"-"),
    }
}

pub(crate) fn put_named(out: &mut Vec<u8>, word: &[u8], name: &Name) -> Result<(), NoMemory> {
    out.extend_from_slice(word)?;
    out.push(b' ')?;
    out.extend_from_slice(name.bytes())
}

pub(crate) fn put_names(out: &mut Vec<u8>, word: &[u8], names: &[Name]) -> Result<(), NoMemory> {
    out.extend_from_slice(word)?;
    for name in names {
        out.push(b' ')?;
        out.extend_from_slice(name.bytes())?;
    }
    Ok(())
}

pub(crate) fn cmp_text(cmp: Cmp) -> &'static [u8] {
    match cmp {
        Cmp::Eq => b"eq",
        Cmp::Ne => b"ne",
        Cmp::Lt => b"lt",
        Cmp::Gt => b"gt",
        Cmp::Le => b"le",
        Cmp::Ge => b"ge",
    }
}

// The number and the line of a fault.
pub(crate) fn put_fault(
    alloc: Global,
    out: &mut Vec<u8>,
    fault: ConfigFault,
) -> Result<(), NoMemory> {
    put_number(alloc, out, b"fault ", kind_number(fault.kind))?;
    put_number(alloc, out, b" at ", u64::from(fault.line))
}

// A fault as the program prints it.
pub(crate) fn fault(alloc: Global, fault: &ConfigFault) -> io::Result<Vec<u8>> {
    let names = vec![in alloc; Name::new(alloc, b"c")?]?;
    let mut out = Vec::new(alloc);
    fault_text(alloc, fault, &names, &mut out)?;
    out.pop();
    Ok(out)
}
