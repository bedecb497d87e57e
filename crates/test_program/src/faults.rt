// Why a configuration wasn't loaded, and a file not traced.
use sg_device::{Name, NoMemory};
use sg_lex::ConfigFault;
use sg_list::Seq;
use sg_loaded::Unloaded;
use sg_report::fault_text;
use sg_trace::Untraced;
use std::alloc::Global;

pub(crate) fn append_words(words: &[u8], out: &mut Vec<u8>) -> Result<(), NoMemory> {
    out.extend_from_slice(words)?;
    Ok(())
}

/// The fault as the program prints it, where its file has a name.
pub(crate) fn append_fault(
    alloc: Global,
    fault: &ConfigFault,
    names: &Seq<Name>,
    out: &mut Vec<u8>,
) -> Result<(), NoMemory> {
    if fault.file as usize >= names.len() {
        return append_words(b"no name", out);
    }
    fault_text(alloc, fault, names.as_slice(), out)?;
    Ok(())
}

pub(crate) fn append_unread(name: &Name, out: &mut Vec<u8>) -> Result<(), NoMemory> {
    out.extend_from_slice(b"unread ")?;
    out.extend_from_slice(name.bytes())?;
    Ok(())
}

pub(crate) fn append_unloaded(
    alloc: Global,
    unloaded: &Unloaded,
    out: &mut Vec<u8>,
) -> Result<(), NoMemory> {
    match unloaded {
        Unloaded::Bad(fault, names) => append_fault(alloc, fault, names, out),
        Unloaded::Unread(name) => append_unread(name, out),
        Unloaded::NoMemory => append_words(b"no memory", out),
    }
}

pub(crate) fn untraced_words(untraced: Untraced) -> &'static [u8] {
    match untraced {
        Untraced::NotOpened => b"not opened",
        Untraced::InletFault => b"inlet failed",
        Untraced::RoundsSpent => b"spent",
        Untraced::SayFault => b"not said",
        Untraced::NoMemory => b"no memory",
    }
}
