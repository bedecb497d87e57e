// The token of a fault.
ghost use Rattle.std.specs.Prelude.{◌≡◌, ◌≤◌, ◌<◌, ◌^◌, length, IfOk, IfSome, Err, option_map};
ghost use Rattle.sg_outside.specs.World.{OnlyReads, IsContent};
ghost use Rattle.sg_expand.specs.Expansion.{IsExpanded};
ghost use Rattle.sg_report.specs.Fault.{name_at};
ghost use Rattle.sg_hint.specs.Spots.{plain_spot, IsFileReading, IsSpot, IsStoppedExpansion, SpotsAgain, SpotsBy};
ghost use Rattle.sg_hint.specs.Listed.{IsListed};

use crate::listed::{is_same, listed_spot};
use crate::stopped::column_by;
use crate::written::{Spotted, name_at};
use sg_device::{FileRefusal, Name, NoMemory};
use sg_expand::{ExpandRefusal, Expanded, expand, expansions_stay_within};
use sg_lex::{ConfigFault, TEXT_LIMIT};
use sg_outside::Files;
use std::alloc::{AllocError, Global};

fn expanded_spot(
    alloc: Global,
    fault: &ConfigFault,
    expanded: Expanded,
) -> Result<Option<Spotted>, NoMemory>
    requires { length expanded.tokens < 2 ^ 32 }
    ensures { IfOk result (λ spotted. IsListed expanded.tokens fault.now spotted) }
{
    let Expanded { tokens, names: _ } = expanded;
    listed_spot(alloc, fault, tokens.into_vec())
}

fn plain_spot(column: Option<u32>) -> Option<Spotted>
    ensures { result ≡ option_map plain_spot column }
{
    match column {
        Some(column) => Some(Spotted {
            column,
            meant: None,
        }),
        None => None,
    }
}

/// The token of a fault of the expansion in the text of its file, where the same fault stops the expansion.
fn stopped_spot(
    alloc: Global,
    fault: &ConfigFault,
    again: &ConfigFault,
    text: &[u8],
) -> Result<Option<Spotted>, NoMemory>
    requires { length text.now ≤ TEXT_LIMIT }
    ensures { IfOk result (λ spotted. IsStoppedExpansion fault.now again.now text.now spotted) }
{
    if !is_same(again, fault) {
        return Ok(None);
    }
    let column = column_by(alloc, fault, text)?;
    Ok(plain_spot(column))
}

fn refused_spot(
    alloc: Global,
    fault: &ConfigFault,
    text: &[u8],
    refusal: ExpandRefusal,
) -> Result<Option<Spotted>, NoMemory>
    requires { length text.now ≤ TEXT_LIMIT }
    ensures { IfOk result (λ spotted. SpotsBy fault.now text.now (Err refusal) spotted) }
{
    match refusal {
        ExpandRefusal::Bad {
            fault: again,
            names: _,
        } => stopped_spot(alloc, fault, &again, text),
        ExpandRefusal::ReadFault(_) => Ok(None),
        ExpandRefusal::NoMemory => Err(AllocError),
    }
}

/// The expansion of the main file of this name and text again.
pub fn expand_again<F: Files>(
    alloc: Global,
    files: &mut F,
    name: &[u8],
    main: &[u8],
) -> Result<Expanded, ExpandRefusal>
    ensures is { IsExpanded (F.state files.old) (F.state files.new) name.now main.now result }
    ensures few { IfOk result (λ expanded. length expanded.tokens < 2 ^ 32) }
    ensures only { OnlyReads (F.state files.old) (F.state files.new) }
{
    expansions_stay_within();
    match Name::new(alloc, name) {
        Ok(name) => expand(alloc, name, main, files),
        Err(_) => Err(ExpandRefusal::NoMemory),
    }
}

/// The token of the fault by the main file of this name and text; `text` is that of the fault's file.
fn spot_again<F: Files>(
    alloc: Global,
    files: &mut F,
    fault: &ConfigFault,
    name: &[u8],
    main: &[u8],
    text: &[u8],
) -> Result<Option<Spotted>, NoMemory>
    requires { length text.now ≤ TEXT_LIMIT }
    ensures is { IfOk result (λ spotted. SpotsAgain (F.state files.old) (F.state files.new)
        name.now main.now fault.now text.now spotted) }
    ensures only { OnlyReads (F.state files.old) (F.state files.new) }
{
    match expand_again(alloc, files, name, main) {
        Ok(expanded) => expanded_spot(alloc, fault, expanded),
        Err(refusal) => refused_spot(alloc, fault, text, refusal),
    }
}

/// What the file of this name holds, None where it can't be read.
pub fn read<F: Files>(
    alloc: Global,
    files: &mut F,
    name: &[u8],
) -> Result<Option<Vec<u8>>, NoMemory>
    ensures is { IfOk result
        (λ text. IsFileReading (F.state files.old) (F.state files.new) name.now text) }
    ensures short { IfOk result (λ text. IfSome text (λ bytes. length bytes.items ≤ TEXT_LIMIT)) }
    ensures only { OnlyReads (F.state files.old) (F.state files.new) }
{
    match files.read(alloc, name) {
        Ok(text) => Ok(Some(text)),
        Err(FileRefusal::Failed) => Ok(None),
        Err(FileRefusal::TooLong) => Ok(None),
        Err(FileRefusal::NoMemory) => Err(AllocError),
    }
}

fn copied(alloc: Global, text: &[u8]) -> Result<Vec<u8>, NoMemory>
    ensures { IfOk result (λ copy. copy.items ≡ text.now) }
{
    Vec::from_slice(alloc, text)
}

/// The text of the main file, where that of the fault's file is this one.
fn main_text<F: Files>(
    alloc: Global,
    files: &mut F,
    fault: &ConfigFault,
    names: &[Name],
    text: &[u8],
) -> Result<Option<Vec<u8>>, NoMemory>
    requires { IsContent (F.state files.old).files (name_at names.now fault.now.file) text.now }
    ensures is { IfOk result (λ main.
        IsFileReading (F.state files.old) (F.state files.new) (name_at names.now 0) main) }
    ensures only { OnlyReads (F.state files.old) (F.state files.new) }
{
    if fault.file == 0 {
        return Ok(Some(copied(alloc, text)?));
    }
    read(alloc, files, name_at(names, 0))
}

/// The token of the fault, where the files have the same fault again and it is told by that. `text` is the
/// text of the fault's file.
pub fn spot<F: Files>(
    alloc: Global,
    files: &mut F,
    fault: &ConfigFault,
    names: &[Name],
    text: &[u8],
) -> Result<Option<Spotted>, NoMemory>
    requires is { IsContent (F.state files.old).files (name_at names.now fault.now.file) text.now }
    requires short { length text.now ≤ TEXT_LIMIT }
    ensures is { IfOk result (λ spotted.
        IsSpot (F.state files.old) (F.state files.new) fault.now names.now text.now spotted) }
    ensures only { OnlyReads (F.state files.old) (F.state files.new) }
{
    let found = main_text(alloc, files, fault, names, text)?;
    match found {
        Some(main) => spot_again(alloc, files, fault, name_at(names, 0), &main, text),
        None => Ok(None),
    }
}
