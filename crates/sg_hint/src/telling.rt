// The hint of a fault.
ghost use Rattle.std.specs.Prelude.{◌≤◌, IfOk, length};
ghost use Rattle.sg_outside.specs.World.{OnlyReads, IsContent};
ghost use Rattle.sg_report.specs.Fault.{name_at};
ghost use Rattle.sg_hint.specs.Hint.{Hints, HintsOf};

use crate::line::line_of;
use crate::spot::{read, spot};
use crate::written::{name_at, write_hint};
use sg_device::{Name, NoMemory};
use sg_lex::{ConfigFault, TEXT_LIMIT};
use sg_outside::Files;
use sg_world::World;
use std::alloc::Global;

/// The hint beside a fault in this text of its file, if that has the fault's line.
fn text_hint<F: Files>(
    alloc: Global,
    files: &mut F,
    fault: &ConfigFault,
    names: &[Name],
    text: &[u8],
) -> Result<Option<Vec<u8>>, NoMemory>
    requires is { IsContent (F.state files.old).files (name_at names.now fault.now.file) text.now }
    requires short { length text.now ≤ TEXT_LIMIT }
    ensures is { IfOk result (λ hint.
        HintsOf (F.state files.old) (F.state files.new) fault.now names.now text.now hint) }
    ensures only { OnlyReads (F.state files.old) (F.state files.new) }
{
    let Some(line) = line_of(text, fault.line) else {
        return Ok(None);
    };
    let spotted = spot(alloc, files, fault, names, text)?;
    Ok(Some(write_hint(alloc, fault, names, line, &spotted)?))
}

/// A hint beside the fault of a configuration: its file and line, and the column of its token where that is
/// known; the text of the line; and below the token what may have been meant. None where the line can't be read.
///
/// The files are read again, and may have changed: the token is told where the same fault stands in them still.
pub fn hint<F: Files>(
    alloc: Global,
    files: &mut F,
    fault: &ConfigFault,
    names: &[Name],
) -> Result<Option<Vec<u8>>, NoMemory>
    // It begins with the fault's file and line, is printable, isn't long, and shows the line with its token. There is none where
    // the line can't be read.
    ensures is { IfOk result (λ text.
        Hints (F.state files.old) (F.state files.new) fault.now names.now text) }
    // Files were read, and nothing else.
    ensures only { OnlyReads (F.state files.old) (F.state files.new) }
{
    if fault.file as usize >= names.len() {
        return Ok(None);
    }
    let found = read(alloc, files, name_at(names, fault.file))?;
    match found {
        Some(text) => text_hint(alloc, files, fault, names, &text),
        None => Ok(None),
    }
}

/// Tells the hint beside the fault of a configuration, if there is one.
pub fn tell_hint<W: World>(alloc: Global, world: &mut W, fault: &ConfigFault, names: &[Name])
    // Files were read, and nothing else.
    ensures { OnlyReads (W.state world.old) (W.state world.new) }
{
    if let Ok(Some(text)) = hint(alloc, world, fault, names) {
        world.tell(&text);
    }
}
