// Log paths in short.

use crate::text::{put, put_flag, put_number, put_numbers};
use sg_device::NoMemory;
use sg_tree::{Element, Forest, InletRule, Path};
use std::alloc::Global;

fn say_rule(alloc: Global, out: &mut Vec<u8>, rule: &InletRule) -> Result<(), NoMemory> {
    put_number(alloc, out, b"; reads pri ", u64::from(rule.opts.pri))?;
    if rule.rfc5424 {
        put(out, b" rfc5424")?;
    }
    for tag in &rule.tags {
        put(out, b" tag ")?;
        put(out, tag.bytes())?;
    }
    Ok(())
}

fn say_element(alloc: Global, out: &mut Vec<u8>, element: &Element) -> Result<(), NoMemory> {
    match element {
        Element::Filter(_) => put(out, b" filter"),
        Element::Rewrite(_) => put(out, b" rewrite"),
        Element::Parse(_) => put(out, b" parse"),
        Element::Deliver(drivers) => {
            put(out, b" to")?;
            put_numbers(alloc, out, b".", drivers)
        }
        Element::Junction(channels) => {
            put_number(alloc, out, b" junction ", channels.len() as u64)
        }
        Element::If { branches, .. } => put_number(alloc, out, b" if ", branches.len() as u64),
    }
}

fn say_flags(out: &mut Vec<u8>, path: &Path) -> Result<(), NoMemory> {
    put_flag(out, path.is_final, b" final")?;
    put_flag(out, path.fallback, b" fallback")?;
    put_flag(out, path.catchall, b" catchall")?;
    put_flag(out, path.flow, b" flow-control")?;
    put_flag(out, path.drop_unmatched, b" drop-unmatched")
}

fn say_path(alloc: Global, out: &mut Vec<u8>, path: &Path) -> Result<(), NoMemory> {
    put_number(alloc, out, b"; line ", u64::from(path.line.line))?;
    put(out, b" from")?;
    put_numbers(alloc, out, b".", &path.sources)?;
    for element in &path.elements {
        say_element(alloc, out, element)?;
    }
    put_number(alloc, out, b" embedded ", path.embedded.len() as u64)?;
    say_flags(out, path)
}

pub(crate) fn say_forest(
    alloc: Global,
    out: &mut Vec<u8>,
    forest: &Forest,
) -> Result<(), NoMemory> {
    for rule in &forest.inlets {
        say_rule(alloc, out, rule)?;
    }
    put_number(alloc, out, b"; filters ", forest.filters.len() as u64)?;
    put_number(alloc, out, b" rewrites ", forest.rewrites.len() as u64)?;
    for path in &forest.paths {
        say_path(alloc, out, path)?;
    }
    Ok(())
}
