// The command.
ghost use Rattle.std.specs.Prelude.{◌≡◌, ◌≤◌, ◌<◌, ◌^◌, IfOk};
ghost use Rattle.sg_config.specs.Alike.{IsConfigWithin};
ghost use Rattle.sg_loaded.specs.Compiling.{Compiles};
ghost use Rattle.sg_run.specs.Covering.{ReadsFiles};
ghost use Rattle.sg_run.specs.Meaning.{AreRouters};
ghost use Rattle.sg_run.specs.Outcomes.{AreReportRows};
ghost use Rattle.sg_run.specs.Run.{RunsBy, RunsConfig, RunsFile};
ghost use Rattle.sg_serve.specs.Exits.{way_of};

use crate::end::Outcome;
use crate::planning::{drivers_of, files_of, plan_of, routers_of};
use crate::reporting::{ReportRows, outcome_of};
use sg_config::{Config, texts_mean_one};
use sg_device::NoMemory;
use sg_laws::{
    clean_runs_end, failed_stores_count, plan_runs_cover, plan_runs_end_clean, plan_runs_happen,
    plan_runs_rest, quiet_runs_rest, runs_are_bounded, runs_deliver,
};
use sg_loaded::{Loaded, Unloaded, load_file};
use sg_pipes::Pipes;
use sg_serve::run_plan;
use sg_table::Table;
use sg_warnings::{stats_freq, tell_warnings};
use sg_world::World;
use std::alloc::Global;
use std::sync::Wait;
use std::thread::Threads;

fn lines_of(alloc: Global, config: &Config) -> Result<ReportRows, NoMemory>
    ensures { IfOk result (AreReportRows config.now) }
{
    Ok(ReportRows {
        drivers: drivers_of(alloc, &config.inlets)?,
        files: files_of(alloc, config.setup.sources.as_slice())?,
    })
}

// Runs the plan of a configuration by these routers.
fn run_by<T: Threads + Wait + Eprint + Sync, W: World>(
    rt: &T,
    alloc: Global,
    config: Config,
    once: bool,
    routers: Vec<Pipes>,
    lines: ReportRows,
    rounds: u64,
    freq: u32,
    world: &mut W,
) -> Result<Outcome, Unloaded>
    requires within { IsConfigWithin config }
    requires files { ReadsFiles config once }
    requires routers { AreRouters config routers.items }
    requires lines { AreReportRows config lines }
    requires rounds { (0 < rounds) × (rounds ≤ 2 ^ 36) }
    ensures { RunsBy W.Feed.state (way_of W.Drain.state W.Paths.state W.Store.state)
        (W.state world.old) (W.state world.new) config once
        rounds result }
{
    runs_deliver(world, routers.as_slice());
    failed_stores_count(world, routers.as_slice());
    quiet_runs_rest(world, routers.as_slice());
    clean_runs_end(world, routers.as_slice());
    runs_are_bounded(world, routers.as_slice());
    plan_runs_happen(world, routers.as_slice());
    plan_runs_cover(world, routers.as_slice());
    plan_runs_end_clean(world, routers.as_slice());
    plan_runs_rest(world, routers.as_slice());
    let plan = plan_of(config, once);
    let ending = run_plan(rt, alloc, plan, routers, rounds, freq, world);
    match outcome_of(alloc, lines, ending) {
        Ok(Some(outcome)) => Ok(outcome),
        Ok(None) => Err(Unloaded::NoMemory),
        Err(_) => Err(Unloaded::NoMemory),
    }
}

// Runs a configuration with the table of its log paths.
fn run_config<T: Threads + Wait + Eprint + Sync, W: World>(
    rt: &T,
    alloc: Global,
    loaded: Loaded,
    once: bool,
    rounds: u64,
    freq: u32,
    world: &mut W,
) -> Result<Outcome, Unloaded>
    requires within { IsConfigWithin loaded.config }
    requires files { ReadsFiles loaded.config once }
    requires compiles { Compiles loaded.config loaded.table }
    requires some { 0 < rounds }
    requires rounds { rounds ≤ 2 ^ 36 }
    ensures { RunsConfig W.Feed.state (way_of W.Drain.state W.Paths.state W.Store.state)
        (W.state world.old) (W.state world.new)
        loaded.config once rounds result }
{
    let Loaded { config, table } = loaded;
    let Ok(lines) = lines_of(alloc, &config) else {
        return Err(Unloaded::NoMemory);
    };
    let Ok(routers) = routers_of(alloc, table, config.inlets.len()) else {
        return Err(Unloaded::NoMemory);
    };
    run_by(rt, alloc, config, once, routers, lines, rounds, freq, world)
}

/// Loads the configuration FILE and runs it: opens its devices, runs the rounds over them, so many at
/// most, 1 to 2^36, and closes the devices. With `once` the run ends once all input was taken, and a
/// destination whose outlet fails three times in a row is given up. The outcome has the text that is to
/// be said. A file that isn't loaded opens nothing. What the configuration is warned of is told before its devices are opened.
pub fn run_file<T: Threads + Wait + Eprint + Sync, W: World>(
    rt: &T,
    alloc: Global,
    file: &[u8],
    once: bool,
    rounds: u64,
    world: &mut W,
) -> Result<Outcome, Unloaded>
    requires some { 0 < rounds }
    requires rounds { rounds ≤ 2 ^ 36 }
    // The configuration was run, or why it wasn't; the headline; what is told; the causes of failures; what
    // the end means; how many rounds there are at most; and that a run in which all goes well ends clean.
    ensures { RunsFile W.Feed.state (way_of W.Drain.state W.Paths.state W.Store.state)
        (W.state world.old) (W.state world.new) file.now
        once rounds result }
{
    texts_mean_one();
    match load_file(alloc, file, world) {
        Ok(loaded) => {
            tell_warnings(alloc, world, file);
            let freq = stats_freq(alloc, world, file);
            run_config(rt, alloc, loaded, once, rounds, freq, world)
        }
        Err(unloaded) => Err(unloaded),
    }
}
