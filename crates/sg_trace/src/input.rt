// A file traced through the log paths of a configuration.
ghost use Rattle.std.specs.Prelude.{◌≡◌, ◌<◌, ℕ, ◌∷◌, [], length, Some, Err, IfOk};
ghost use Rattle.sg_outside.specs.World.{Files, OnlyReads};
ghost use Rattle.sg_config.specs.Alike.{IsConfigWithin};
ghost use Rattle.sg_config.specs.declared.config.Config.{Config as Meant};
ghost use Rattle.sg_loaded.specs.Compiling.{Compiles, CanBeCompiled};
ghost use Rattle.sg_loaded.specs.Loading.{Configures};
ghost use Rattle.sg_trace.specs.Tracing.{first_of, shown, IsUnknown, TracesInlet, TracesSource, TracesFile};
ghost use Rattle.sg_trace.specs.Completeness.{ShowsUntroubled, WasShown};

use crate::inlets::{first_inlet, has_inlet, reader_of};
use crate::targets::targets_of;
use crate::{Unshown, Untraced, trace_file};
use sg_config::{Config, texts_mean_one};
use sg_device::{Name, NoMemory};
use sg_expand::expansions_are_one;
use sg_lex::{ConfigFault, ConfigKind};
use sg_list::Seq;
use sg_loaded::{Loaded, Unloaded, load_file};
use sg_notes::tell_destinations;
use sg_pipes::Pipes;
use sg_run_plan::InletPlan;
use sg_table::Table;
use sg_world::World;
use std::alloc::Global;

fn names_of(alloc: Global, file: &[u8]) -> Result<Seq<Name>, NoMemory>
    ensures { IfOk result (λ names. names ≡ file.now ∷ []) }
{
    let mut names = Seq::empty(alloc);
    names.push(Name::new(alloc, file)?)?;
    Ok(names)
}

/// No source statement of that name has a driver.
fn unknown(alloc: Global, file: &[u8]) -> Unshown
    ensures { IsUnknown file.now (Err result) }
{
    match names_of(alloc, file) {
        Ok(names) => Unshown::Unloaded(Unloaded::Bad(
            ConfigFault {
                kind: ConfigKind::UnknownName,
                file: 0,
                line: 0,
            },
            names,
        )),
        Err(_) => Unshown::Unloaded(Unloaded::NoMemory),
    }
}

fn shown(traced: Result<(), Untraced>) -> Result<(), Unshown>
    ensures { result ≡ shown traced }
{
    match traced {
        Ok(()) => Ok(()),
        Err(untraced) => Err(Unshown::Untraced(untraced)),
    }
}

/// Traces INPUT as the inlet of this number would take it.
fn trace_inlet<W: World>(
    alloc: Global,
    config: Config,
    table: Table,
    inlet: u32,
    input: &[u8],
    world: &mut W,
) -> Result<(), Unshown>
    requires within { IsConfigWithin config }
    requires compiles { Compiles config table }
    requires inlet { inlet < length config.inlets.items }
    ensures { TracesInlet config inlet (W.state world.old) (W.state world.new) input.now result }
{
    let reader = reader_of(config.inlets.as_slice(), inlet);
    let Ok(targets) = targets_of(alloc, config.outlets) else {
        return Err(Unshown::Untraced(Untraced::NoMemory));
    };
    let mut pipes = Pipes::new(alloc, table);
    shown(trace_file(alloc, input, &mut pipes, reader, targets.as_slice(), world))
}

/// Traces INPUT as the first inlet of that source would take it.
fn trace_source<W: World>(
    alloc: Global,
    file: &[u8],
    loaded: Loaded,
    source: &[u8],
    input: &[u8],
    world: &mut W,
) -> Result<(), Unshown>
    requires within { IsConfigWithin loaded.config }
    requires compiles { Compiles loaded.config loaded.table }
    ensures { TracesSource loaded.config file.now (first_of 0 source.now loaded.config.inlets.items)
        (W.state world.old) (W.state world.new) input.now result }
{
    let Loaded { config, table } = loaded;
    match first_inlet(source, config.inlets.as_slice()) {
        Some(inlet) => trace_inlet(alloc, config, table, inlet, input, world),
        None => Err(unknown(alloc, file)),
    }
}

// Tells which driver each destination's number is of, where the source has a driver.
fn tell_drivers<W: World>(
    alloc: Global,
    file: &[u8],
    source: &[u8],
    inlets: &[InletPlan],
    world: &mut W,
)
    ensures { OnlyReads (W.state world.old) (W.state world.new) }
{
    if has_inlet(source, inlets) {
        tell_destinations(alloc, world, file);
    }
}

/// Says the offers of the records of the file INPUT, as `trace_file` does, read as the first driver of
/// the source statement SOURCE would read them, and with the log paths and destinations of the configuration FILE.
/// Which driver each destination's number is of is told. A refusal of FILE isn't said; one that comes of INPUT is said as `trace_file` says it.
pub fn trace_input<W: World>(
    alloc: Global,
    file: &[u8],
    source: &[u8],
    input: &[u8],
    world: &mut W,
) -> Result<(), Unshown>
    // FILE was loaded and INPUT traced, or why not.
    ensures traces { TracesFile (W.state world.old) (W.state world.new) file.now source.now
        input.now result }
    // A configuration that has the source traces INPUT to its end, where nothing fails and memory is there.
    ensures complete { (files : Files) (config : Meant) (i : ℕ)
        → (W.state world.old).files ≡ Some files → Configures (W.state world.old) file.now config
        → CanBeCompiled config
        → first_of 0 source.now config.inlets.items ≡ Some i
        → ShowsUntroubled (W.state world.old) (W.state world.new) input.now → WasShown result }
{
    expansions_are_one();
    texts_mean_one();
    match load_file(alloc, file, world) {
        Ok(loaded) => {
            tell_drivers(alloc, file, source, loaded.config.inlets.as_slice(), world);
            trace_source(alloc, file, loaded, source, input, world)
        }
        Err(unloaded) => Err(Unshown::Unloaded(unloaded)),
    }
}
