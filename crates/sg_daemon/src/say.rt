// What is said at the end of a command.
ghost use Rattle.std.specs.Prelude.{◌≡◌, ◌++◌, IfOk};
ghost use Rattle.sg_outside.specs.World.{OnlyReads};
ghost use Rattle.sg_report.specs.Fault.{fault_text_of};
ghost use Rattle.sg_daemon.specs.Loading.{TellsUnloaded};
ghost use Rattle.sg_daemon.specs.Said.{unread_text_of, usage_text, version_text, ConcludesCommand};
ghost use Rattle.sg_daemon.specs.declared.status.Status.TheVariants.{Ended, BadConfig, ReadFault};
ghost use Rattle.sg_loaded.specs.declared.loaded.Unloaded.TheVariants.{Bad, Unread};
ghost use Rattle.sg_run.specs.declared.end.End.TheVariants.{Clean};

use crate::status::Status;
use sg_device::{Name, NoMemory, SayRefusal};
use sg_hint::tell_hint;
use sg_lex::ConfigFault;
use sg_list::Seq;
use sg_notes::{tell_further, tell_include, tell_notes};
use sg_report::fault_text;
use sg_run::{End, Unloaded};
use sg_world::World;
use std::alloc::Global;

const USAGE: &[u8] =
    b"usage: syslogr check FILE | trace FILE SOURCE INPUT | run FILE [--once] [--rounds N] | spool FILE | drill N\n";

const VERSION: &[u8] = b"syslogr 0.1.0\n";

fn refusal_text(alloc: Global, fault: ConfigFault, names: &Seq<Name>) -> Result<Vec<u8>, NoMemory>
    ensures { IfOk result (λ text. text.items ≡ fault_text_of fault names.now) }
{
    let mut text = Vec::new(alloc);
    fault_text(alloc, &fault, names.as_slice(), &mut text)?;
    Ok(text)
}

fn unread_text(alloc: Global, name: &Name) -> Result<Vec<u8>, NoMemory>
    ensures { IfOk result (λ text. text.items ≡ unread_text_of name.now) }
{
    let mut text = b"cannot read ".to_vec(alloc)?;
    text.extend_from_slice(name.bytes())?;
    text.extend_from_slice(b"\n")?;
    Ok(text)
}

/// Says this, and answers the status, or that it couldn't be said.
pub fn conclude<W: World>(alloc: Global, status: Status, text: &[u8], world: &mut W) -> Status
    ensures { ConcludesCommand (W.state world.old) (W.state world.new) status text.now result }
{
    match world.say(alloc, text) {
        Ok(()) => status,
        Err(SayRefusal::Fault) => Status::SayFault,
        Err(SayRefusal::NoMemory) => Status::NoMemory,
    }
}

fn tell_fault<W: World>(
    alloc: Global,
    fault: ConfigFault,
    names: &Seq<Name>,
    world: &mut W,
) -> Status
    ensures { ConcludesCommand (W.state world.old) (W.state world.new) (BadConfig fault)
        (fault_text_of fault names.now) result }
{
    match refusal_text(alloc, fault, names) {
        Ok(text) => conclude(alloc, Status::BadConfig(fault), &text, world),
        Err(_) => Status::NoMemory,
    }
}

/// What is told beside what is said: the hint of a fault, its notes, and the faults of other statements too or not.
fn tell_about<W: World>(
    alloc: Global,
    fault: &ConfigFault,
    names: &[Name],
    more: Option<&[u8]>,
    world: &mut W,
)
    ensures { OnlyReads (W.state world.old) (W.state world.new) }
{
    tell_hint(alloc, world, fault, names);
    tell_notes(alloc, world, fault, names);
    if let Some(file) = more {
        tell_further(alloc, world, file);
    }
}

/// Says what is wrong with a configuration file, and tells more of it.
fn tell_bad<W: World>(
    alloc: Global,
    fault: ConfigFault,
    names: Seq<Name>,
    more: Option<&[u8]>,
    world: &mut W,
) -> Status
    ensures { TellsUnloaded (W.state world.old) (W.state world.new) (Bad fault names) result }
{
    let status = tell_fault(alloc, fault, &names, world);
    tell_about(alloc, &fault, names.as_slice(), more, world);
    status
}

fn say_unread<W: World>(alloc: Global, name: &Name, world: &mut W) -> Status
    ensures { ConcludesCommand (W.state world.old) (W.state world.new) ReadFault
        (unread_text_of name.now)
        result }
{
    match unread_text(alloc, name) {
        Ok(text) => conclude(alloc, Status::ReadFault, &text, world),
        Err(_) => Status::NoMemory,
    }
}

/// Says which file of the configuration couldn't be read, and tells which `@include` wanted it.
fn tell_unread<W: World>(alloc: Global, file: &[u8], name: &Name, world: &mut W) -> Status
    ensures { TellsUnloaded (W.state world.old) (W.state world.new) (Unread name.now) result }
{
    let status = say_unread(alloc, name, world);
    tell_include(alloc, world, file, name.bytes());
    status
}

/// Says why a configuration file isn't loaded, and answers the status of that. Faults of other statements are told where `further` asks
/// for them.
pub fn tell_unloaded<W: World>(
    alloc: Global,
    file: &[u8],
    unloaded: Unloaded,
    further: bool,
    world: &mut W,
) -> Status
    ensures { TellsUnloaded (W.state world.old) (W.state world.new) unloaded result }
{
    let more = if further { Some(file) } else { None };
    match unloaded {
        Unloaded::Bad(fault, names) => tell_bad(alloc, fault, names, more, world),
        Unloaded::Unread(name) => tell_unread(alloc, file, &name, world),
        Unloaded::NoMemory => Status::NoMemory,
    }
}

/// Says how the program is used. The status is this one where that was asked for.
pub fn tell_usage<W: World>(alloc: Global, status: Status, world: &mut W) -> Status
    ensures { ConcludesCommand (W.state world.old) (W.state world.new) status usage_text result }
{
    conclude(alloc, status, USAGE, world)
}

/// Says which version the program is.
pub fn tell_version<W: World>(alloc: Global, world: &mut W) -> Status
    ensures { ConcludesCommand (W.state world.old) (W.state world.new) (Ended Clean) version_text
        result }
{
    conclude(alloc, Status::Ended(End::Clean), VERSION, world)
}
