// What runs one after another come to.
ghost use Rattle.sg_run.specs.Adding.{ConfigRunsAddUp};
ghost use Rattle.sg_run.specs.Fresh.{NewConfigRunsAddUp, ConfigRunsStayCovered, ConfigRunsTakeOnce};
ghost use Rattle.sg_serve.specs.Exits.{way_of};

use sg_config::texts_mean_one;
use sg_laws::{
    new_stores_are_covered, plan_runs_add_up, plan_runs_stay_covered, plan_runs_take_once,
};
use sg_pipes::Pipes;
use sg_world::World;

/// Behind any number of runs of a configuration, each stopped at any moment, once its core was open or
/// before that, and one that ended with status 0, each record of each file has a pass of which each
/// offer with flow-control was taken at least once, and nothing but offers was taken. The function does
/// nothing: its contract is a law.
pub fn config_runs_add_up<W: World>(world: &W, routers: &[Pipes])
    ensures { ConfigRunsAddUp W.Feed.state (way_of W.Drain.state W.Paths.state W.Store.state) }
{
    texts_mean_one();
    plan_runs_add_up(world, routers);
}

/// The same from stores on that are as they were made, of whose files nothing was read.
pub fn new_config_runs_add_up<W: World>(world: &W, routers: &[Pipes])
    ensures { NewConfigRunsAddUp W.Feed.state (way_of W.Drain.state W.Paths.state W.Store.state) }
{
    texts_mean_one();
    new_stores_are_covered(routers);
    plan_runs_add_up(world, routers);
}

/// Any number of a configuration's runs from new stores on, each stopped at any moment, also the last: of
/// each record up to a stored position each offer with flow-control was taken in one of them, or stands
/// in a disk-buffer.
pub fn config_runs_stay_covered<W: World>(world: &W, routers: &[Pipes])
    ensures { ConfigRunsStayCovered W.Feed.state
        (way_of W.Drain.state W.Paths.state W.Store.state) }
{
    texts_mean_one();
    plan_runs_stay_covered(world, routers);
}

/// Where each of a configuration's runs ended with status 0, from new stores on, each record of each file
/// came in once, and of its offers each destination took each once, but for those that were dropped
/// without flow-control.
pub fn config_runs_take_once<W: World>(world: &W, routers: &[Pipes])
    ensures { ConfigRunsTakeOnce W.Feed.state (way_of W.Drain.state W.Paths.state W.Store.state) }
{
    texts_mean_one();
    plan_runs_take_once(world, routers);
}
