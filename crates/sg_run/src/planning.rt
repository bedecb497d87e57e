// What is run of a configuration.
ghost use Rattle.std.specs.Prelude.{◌≡◌, ◌++◌, ◌∷◌, [], map, length, replicate, is_some, IfOk};
ghost use Rattle.sg_pipes.specs.Within.{AreWoodsWithin};
ghost use Rattle.sg_table.specs.Forest.{forest_of};
ghost use Rattle.sg_run.specs.Meaning.{planned, paths_of};

use sg_config::Config;
use sg_device::NoMemory;
use sg_list::Seq;
use sg_machine::SourceSetup;
use sg_pipes::Pipes;
use sg_run_plan::{InletPlan, RunPlan};
use sg_table::Table;
use std::alloc::Global;

/// The plan of a configuration. With `once` the run ends once all input was taken.
pub(crate) fn plan_of(config: Config, once: bool) -> RunPlan
    ensures { result ≡ planned config once }
{
    let Config {
        forest: _,
        setup,
        inlets,
        outlets,
        stores,
    } = config;
    RunPlan {
        setup,
        inlets,
        outlets,
        stores,
        once,
    }
}

/// So many routers, all by the same table.
pub(crate) fn routers_of(alloc: Global, table: Table, count: usize) -> Result<Vec<Pipes>, NoMemory>
    requires { AreWoodsWithin (forest_of table) }
    ensures { IfOk result
        (λ routers. map paths_of routers.items ≡ replicate count (forest_of table)) }
{
    let first = Pipes::new(alloc, table);
    let mut routers = Vec::new(alloc);
    for _router in 0..count {
        routers.push(first.share(alloc)?)?;
    }
    Ok(routers)
}

/// For each inlet the number of its driver.
pub(crate) fn drivers_of(alloc: Global, inlets: &[InletPlan]) -> Result<Seq<u32>, NoMemory>
    ensures { IfOk result (λ drivers. drivers ≡ map (λ inlet. inlet.driver) inlets.now) }
{
    let mut drivers = Seq::empty(alloc);
    for inlet in inlets {
        drivers.push(inlet.driver)?;
    }
    Ok(drivers)
}

/// For each inlet whether it has a stored position, as files have.
pub(crate) fn files_of(alloc: Global, setups: &[SourceSetup]) -> Result<Seq<bool>, NoMemory>
    ensures { IfOk result (λ files. files ≡ map (λ setup. is_some setup.store) setups.now) }
{
    let mut files = Seq::empty(alloc);
    for setup in setups {
        files.push(setup.store.is_some())?;
    }
    Ok(files)
}
