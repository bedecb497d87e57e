// What drivers come to.
ghost use Rattle.std.specs.Prelude.{◌≡◌, ◌<◌, ◌^◌, length};
ghost use Rattle.sg_driver.specs.Defaults.{AreDefaults};

mod names;
mod objects;

use crate::text::{put_fault, put_flag, put_name, put_named, put_number};
use names::TemplateNames;
use objects::{Statements, defaults_of, read_statements, templates_of};
use sg_destination::{DestinationDriver, destination_fault, read_destination};
use sg_device::{Name, NoMemory};
use sg_driver::{Defaults, options_fault};
use sg_fault::fault_at;
use sg_frame::FrameKind;
use sg_lex::Token;
use sg_msg::Message;
use sg_outfmt::{Shape, frame, unpacked};
use sg_outside::{InletSpec, OutletSpec};
use sg_parse_expr::Call;
use sg_parse_obj::Object;
use sg_run_plan::{InletPlan, OutletPlan};
use sg_source::{SourceDriver, inlet_count, read_source, source_fault};
use sg_time::Stamp;
use std::alloc::Global;
use std::io;

const SENT: Stamp = Stamp {
    at: 1_500_000,
    offset: 60,
};

fn put_inlet(alloc: Global, out: &mut Vec<u8>, spec: &InletSpec) -> Result<(), NoMemory> {
    match spec {
        InletSpec::File { path, limit, .. } => {
            out.extend_from_slice(b"file ")?;
            out.extend_from_slice(path.bytes())?;
            put_number(alloc, out, b" limit ", u64::from(*limit))
        }
        InletSpec::Slot { ip, port, slot, .. } => {
            out.extend_from_slice(b"slot ")?;
            out.extend_from_slice(ip.bytes())?;
            put_number(alloc, out, b":", u64::from(*port))?;
            put_number(alloc, out, b" ", u64::from(*slot))
        }
    }
}

fn put_tags(out: &mut Vec<u8>, tags: &[Name]) -> Result<(), NoMemory> {
    for tag in tags {
        out.extend_from_slice(b" #")?;
        out.extend_from_slice(tag.bytes())?;
    }
    Ok(())
}

fn put_zone(alloc: Global, out: &mut Vec<u8>, zone: i16) -> Result<(), NoMemory> {
    out.extend_from_slice(format!(in alloc; " zone {zone}")?.as_bytes())
}

// How the records of a source are read.
fn put_reading(alloc: Global, out: &mut Vec<u8>, source: &SourceDriver) -> Result<(), NoMemory> {
    put_number(alloc, out, b" pri ", u64::from(source.opts.pri))?;
    put_zone(alloc, out, source.opts.zone)?;
    put_flag(out, source.opts.keep_hostname, b" host")?;
    put_flag(out, source.opts.keep_timestamp, b" stamp")?;
    put_flag(out, source.opts.parse, b" parsed")?;
    put_flag(out, source.rfc5424, b" 5424")?;
    put_flag(out, source.empty_lines, b" empty")?;
    put_flag(out, source.one_line, b" one line")?;
    put_tags(out, source.tags.as_slice())
}

fn kind_text(kind: FrameKind) -> &'static [u8] {
    match kind {
        FrameKind::Lines => b" lines",
        FrameKind::Counted => b" counted",
    }
}

fn put_plan(alloc: Global, out: &mut Vec<u8>, plan: &InletPlan) -> Result<(), NoMemory> {
    put_inlet(alloc, out, &plan.spec)?;
    out.extend_from_slice(kind_text(plan.kind))?;
    put_number(alloc, out, b" ", u64::from(plan.limit))?;
    put_number(alloc, out, b" ", u64::from(plan.fetch))
}

// The last of its inlets.
fn put_last(alloc: Global, out: &mut Vec<u8>, source: &SourceDriver) -> Result<(), NoMemory> {
    let slot = source.slots().saturating_sub(1);
    let plan = source.plan(slot, 7, None)?;
    put_plan(alloc, out, &plan)
}

fn put_store(alloc: Global, out: &mut Vec<u8>, source: &SourceDriver) -> Result<(), NoMemory> {
    out.extend_from_slice(b" store ")?;
    let store = source.store(alloc)?;
    put_name(out, store.as_ref())
}

// The last of its inlets, how they are read, and how many they are.
fn put_source(
    alloc: Global,
    out: &mut Vec<u8>,
    source: &SourceDriver,
    inlets: u32,
) -> Result<(), NoMemory> {
    put_last(alloc, out, source)?;
    put_number(alloc, out, b" ", u64::from(source.window))?;
    put_store(alloc, out, source)?;
    put_reading(alloc, out, source)?;
    put_number(alloc, out, b" inlets ", u64::from(inlets))
}

fn source_text(
    alloc: Global,
    out: &mut Vec<u8>,
    call: &Call,
    defaults: &Defaults,
) -> Result<(), NoMemory>
    requires { AreDefaults defaults.now }
{
    if let Some(fault) = source_fault(alloc, call)? {
        return put_fault(alloc, out, fault_at(fault));
    }
    let source = read_source(alloc, call, defaults)?;
    put_source(alloc, out, &source, inlet_count(call))
}

fn put_modes(
    alloc: Global,
    out: &mut Vec<u8>,
    folders: Option<u16>,
    mode: u16,
    reopen: u32,
) -> Result<(), NoMemory> {
    if let Some(folders) = folders {
        put_number(alloc, out, b" folders ", u64::from(folders))?;
    }
    put_number(alloc, out, b" mode ", u64::from(mode))?;
    put_number(alloc, out, b" reopen ", u64::from(reopen))
}

fn put_outlet(alloc: Global, out: &mut Vec<u8>, spec: &OutletSpec) -> Result<(), NoMemory> {
    match spec {
        OutletSpec::File {
            path,
            fsync,
            mode,
            folders,
            reopen,
        } => {
            out.extend_from_slice(b"file ")?;
            out.extend_from_slice(path.bytes())?;
            put_flag(out, *fsync, b" fsync")?;
            put_modes(alloc, out, *folders, *mode, *reopen)
        }
        OutletSpec::Tcp { host, port, reopen } => {
            out.extend_from_slice(b"host ")?;
            out.extend_from_slice(host.bytes())?;
            put_number(alloc, out, b":", u64::from(*port))?;
            put_number(alloc, out, b" reopen ", u64::from(*reopen))
        }
        OutletSpec::ByPath {
            fsync,
            mode,
            folders,
            reopen,
            reap,
        } => {
            out.extend_from_slice(b"by path")?;
            put_flag(out, *fsync, b" fsync")?;
            put_modes(alloc, out, *folders, *mode, *reopen)?;
            put_number(alloc, out, b" reap ", u64::from(*reap))
        }
    }
}

fn put_frame(alloc: Global, out: &mut Vec<u8>, plan: &OutletPlan) -> Result<(), NoMemory> {
    let message = Message::new(alloc, 13, SENT, SENT)?;
    let Shape::ByPath { .. } = &plan.shape else {
        return frame(&plan.shape, &message, &plan.env, out);
    };
    let mut bytes = Vec::new(alloc);
    frame(&plan.shape, &message, &plan.env, &mut bytes)?;
    let (path, text) = unpacked(&bytes);
    out.extend_from_slice(path)?;
    out.push(b' ')?;
    out.extend_from_slice(text)
}

fn put_destination(
    alloc: Global,
    out: &mut Vec<u8>,
    destination: &DestinationDriver,
) -> Result<(), NoMemory> {
    put_outlet(alloc, out, &destination.plan.spec)?;
    put_number(alloc, out, b" fifo ", u64::from(destination.fifo))?;
    if let Some(buffer) = &destination.buffer {
        put_number(alloc, out, b" disk ", buffer.capacity)?;
        put_named(out, b"", &buffer.store)?;
    }
    out.extend_from_slice(b" sends ")?;
    put_frame(alloc, out, &destination.plan)
}

fn destination_text(
    alloc: Global,
    out: &mut Vec<u8>,
    call: &Call,
    defaults: &Defaults,
    named: &TemplateNames,
) -> Result<(), NoMemory>
    requires { AreDefaults defaults.now }
{
    if let Some(fault) = destination_fault(alloc, call, named)? {
        return put_fault(alloc, out, fault_at(fault));
    }
    let destination = read_destination(alloc, call, defaults, named)?;
    put_destination(alloc, out, &destination)
}

fn put_sources(
    alloc: Global,
    out: &mut Vec<u8>,
    calls: &[Call],
    defaults: &Defaults,
) -> Result<(), NoMemory>
    requires { AreDefaults defaults.now }
{
    for call in calls {
        source_text(alloc, out, call, defaults)?;
        out.push(b';')?;
    }
    Ok(())
}

fn put_destinations(
    alloc: Global,
    out: &mut Vec<u8>,
    calls: &[Call],
    defaults: &Defaults,
    named: &TemplateNames,
) -> Result<(), NoMemory>
    requires { AreDefaults defaults.now }
{
    for call in calls {
        destination_text(alloc, out, call, defaults, named)?;
        out.push(b';')?;
    }
    Ok(())
}

fn put_options(alloc: Global, out: &mut Vec<u8>, calls: &[Call]) -> Result<(), NoMemory> {
    if let Some(fault) = options_fault(calls) {
        put_fault(alloc, out, fault_at(fault))?;
        out.push(b';')?;
    }
    Ok(())
}

fn put_object(
    alloc: Global,
    out: &mut Vec<u8>,
    object: &Object,
    defaults: &Defaults,
    named: &TemplateNames,
) -> Result<(), NoMemory>
    requires { AreDefaults defaults.now }
{
    match object {
        Object::Options(calls) => put_options(alloc, out, calls.as_slice()),
        Object::Source { drivers, .. } => put_sources(alloc, out, drivers.as_slice(), defaults),
        Object::Destination { drivers, .. } => {
            put_destinations(alloc, out, drivers.as_slice(), defaults, named)
        }
        _ => Ok(()),
    }
}

fn put_objects(alloc: Global, out: &mut Vec<u8>, objects: &[Object]) -> Result<(), NoMemory> {
    let defaults = defaults_of(objects);
    let named = templates_of(alloc, objects)?;
    for object in objects {
        put_object(alloc, out, object, &defaults, &named)?;
    }
    Ok(())
}

fn put_statements(
    alloc: Global,
    out: &mut Vec<u8>,
    statements: &Statements,
) -> Result<(), NoMemory> {
    match statements {
        Statements::Found(objects) => put_objects(alloc, out, objects),
        Statements::Bad(fault) => put_fault(alloc, out, *fault),
    }
}

fn put_read(alloc: Global, out: &mut Vec<u8>, tokens: &[Token]) -> Result<(), NoMemory>
    requires { length tokens.now < 2 ^ 32 }
{
    let read = read_statements(alloc, tokens)?;
    put_statements(alloc, out, &read)
}

/// What the drivers of these tokens come to.
pub(crate) fn answer(alloc: Global, tokens: &[Token]) -> io::Result<Vec<u8>>
    requires { length tokens.now < 2 ^ 32 }
{
    let mut out = Vec::new(alloc);
    put_read(alloc, &mut out, tokens)?;
    Ok(out)
}
