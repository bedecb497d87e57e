// A file to a configuration.
ghost use Rattle.std.specs.Prelude.{◌≡◌, ◌∷◌, [], ◌<◌, ◌^◌, length, IfOk, Some};
ghost use Rattle.sg_outside.specs.World.{Files as Content, WorldState, OnlyReads, OnlyBuilds, IsContent};
ghost use Rattle.sg_config.specs.declared.config.Config.{Config as Meant};
ghost use Rattle.sg_loaded.specs.Compiling.{CanBeCompiled};
ghost use Rattle.sg_loaded.specs.Completeness.{LoadsUntroubled, WasLoaded};
ghost use Rattle.sg_loaded.specs.Loading.{OnlyLoads, Configures, LoadsTokens, LoadsFile, IsLeftUnread, IsLeftTooLong};

use crate::compiling::compile_config;
use crate::{Loaded, Unloaded};
use sg_config::{LoadRefusal, load, texts_mean_one};
use sg_device::{FileRefusal, Name, NoMemory};
use sg_expand::{ExpandRefusal, Expanded, expand, expansions_are_one, expansions_stay_within};
use sg_lex::{ConfigFault, ConfigKind};
use sg_list::Seq;
use sg_outside::Files;
use sg_pattern::Builder;
use std::alloc::Global;

fn names_of(alloc: Global, file: &[u8]) -> Result<Seq<Name>, NoMemory>
    ensures { IfOk result (λ names. names ≡ file.now ∷ []) }
{
    let mut names = Seq::empty(alloc);
    names.push(Name::new(alloc, file)?)?;
    Ok(names)
}

/// The main file has more bytes than a configuration may have.
fn too_long(alloc: Global, file: &[u8]) -> Unloaded
    ensures { IsLeftTooLong file.now result }
{
    match names_of(alloc, file) {
        Ok(names) => Unloaded::Bad(
            ConfigFault {
                kind: ConfigKind::TooLong,
                file: 0,
                line: 1,
            },
            names,
        ),
        Err(_) => Unloaded::NoMemory,
    }
}

/// The main file couldn't be read.
fn unread(alloc: Global, file: &[u8]) -> Unloaded
    ensures { IsLeftUnread file.now result }
{
    match Name::new(alloc, file) {
        Ok(name) => Unloaded::Unread(name),
        Err(_) => Unloaded::NoMemory,
    }
}

/// The configuration of an expanded text, compiled.
fn load_expanded<W: Files + Builder>(
    alloc: Global,
    expanded: Expanded,
    world: &mut W,
) -> Result<Loaded, Unloaded>
    requires { length expanded.tokens < 2 ^ 32 }
    ensures loads { LoadsTokens (W.state world.old) (W.state world.new) expanded.tokens
        expanded.names result }
    ensures only { OnlyBuilds (W.state world.old) (W.state world.new) }
{
    let Expanded { tokens, names } = expanded;
    match load(alloc, tokens.as_slice()) {
        Ok(config) => compile_config(alloc, config, names, world),
        Err(LoadRefusal::Bad(fault)) => Err(Unloaded::Bad(fault, names)),
        Err(LoadRefusal::NoMemory) => Err(Unloaded::NoMemory),
    }
}

/// The configuration of the main file's text, compiled.
fn load_text<W: Files + Builder>(
    alloc: Global,
    file: &[u8],
    text: &[u8],
    world: &mut W,
) -> Result<Loaded, Unloaded>
    ensures loads { (first : WorldState) → OnlyReads first (W.state world.old)
        → IsContent first.files file.now text.now
        → LoadsFile first (W.state world.new) file.now result }
    ensures only { OnlyLoads (W.state world.old) (W.state world.new) }
{
    expansions_stay_within();
    let Ok(name) = Name::new(alloc, file) else {
        return Err(Unloaded::NoMemory);
    };
    match expand(alloc, name, text, world) {
        Ok(expanded) => load_expanded(alloc, expanded, world),
        Err(ExpandRefusal::Bad { fault, names }) => Err(Unloaded::Bad(fault, names)),
        Err(ExpandRefusal::ReadFault(name)) => Err(Unloaded::Unread(name)),
        Err(ExpandRefusal::NoMemory) => Err(Unloaded::NoMemory),
    }
}

fn load_main<W: Files + Builder>(
    alloc: Global,
    file: &[u8],
    world: &mut W,
) -> Result<Loaded, Unloaded>
    ensures loads { LoadsFile (W.state world.old) (W.state world.new) file.now result }
    ensures only { OnlyLoads (W.state world.old) (W.state world.new) }
{
    match world.read(alloc, file) {
        Ok(text) => load_text(alloc, file, &text, world),
        Err(FileRefusal::Failed) => Err(unread(alloc, file)),
        Err(FileRefusal::TooLong) => Err(too_long(alloc, file)),
        Err(FileRefusal::NoMemory) => Err(Unloaded::NoMemory),
    }
}

/// The configuration in the file of this name, with the files that it includes, and its log paths compiled. A fault
/// is the first by the order of these steps: the main file has more than 1,048,576 bytes (`TooLong`), what
/// `sg_expand::expand` refuses, what `sg_config::load` refuses, and what `sg_table::compile` refuses (`BadPattern`,
/// `PatternTooLarge`, `TooManyOffers`).
pub fn load_file<W: Files + Builder>(
    alloc: Global,
    file: &[u8],
    world: &mut W,
) -> Result<Loaded, Unloaded>
    // The configuration, what is wrong, or which file couldn't be read.
    ensures loads { LoadsFile (W.state world.old) (W.state world.new) file.now result }
    // Files were read, patterns were made, and nothing else.
    ensures only { OnlyLoads (W.state world.old) (W.state world.new) }
    // What is a configuration is loaded, where nothing fails and memory is there.
    ensures complete { (files : Content) (config : Meant) → (W.state world.old).files ≡ Some files
        → Configures (W.state world.old) file.now config → CanBeCompiled config
        → LoadsUntroubled (W.state world.old) (W.state world.new) → WasLoaded result }
{
    expansions_are_one();
    texts_mean_one();
    load_main(alloc, file, world)
}
