// The log paths of a configuration, compiled.
ghost use Rattle.std.specs.Prelude.{◌≡◌};
ghost use Rattle.sg_outside.specs.World.{OnlyBuilds};
ghost use Rattle.sg_loaded.specs.Compiling.{path_fault, BuildsTable};

use crate::{Loaded, Unloaded};
use sg_config::Config;
use sg_device::Name;
use sg_fault::{Placed, fault_at};
use sg_lex::{ConfigFault, ConfigKind, Line};
use sg_list::Seq;
use sg_pattern::Builder;
use sg_table::compile;
use sg_tree::PathRefusal;
use std::alloc::Global;

fn path_fault(kind: ConfigKind, line: Line) -> ConfigFault
    ensures { result ≡ path_fault kind line }
{
    fault_at(Placed { kind, line })
}

/// The configuration with its table, or what is wrong with its log paths, in the files of these names.
pub fn compile_config<B: Builder>(
    alloc: Global,
    config: Config,
    names: Seq<Name>,
    builder: &mut B,
) -> Result<Loaded, Unloaded>
    ensures builds { BuildsTable (B.state builder.old) (B.state builder.new) config names result }
    ensures only { OnlyBuilds (B.state builder.old) (B.state builder.new) }
{
    match compile(alloc, &config.forest, builder) {
        Ok(table) => Ok(Loaded { config, table }),
        Err(PathRefusal::BadPattern(line)) => Err(Unloaded::Bad(
            path_fault(ConfigKind::BadPattern, line),
            names,
        )),
        Err(PathRefusal::PatternTooLarge(line)) => Err(Unloaded::Bad(
            path_fault(ConfigKind::PatternTooLarge, line),
            names,
        )),
        Err(PathRefusal::TooManyOffers(line)) => Err(Unloaded::Bad(
            path_fault(ConfigKind::TooManyOffers, line),
            names,
        )),
        Err(PathRefusal::NoMemory) => Err(Unloaded::NoMemory),
    }
}
