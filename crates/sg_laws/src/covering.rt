// What a plan's runs leave covered.
ghost use Rattle.sg_laws.specs.PlanRuns.{PlanRunsAddUp};
ghost use Rattle.sg_laws.specs.Clean.{PlanRunsEndClean};
ghost use Rattle.sg_laws.specs.Fresh.{NewAreCovered, PlanRunsStayCovered, PlanRunsTakeOnce};
ghost use Rattle.sg_laws.specs.Rest.{PlanRunsRest};
ghost use Rattle.sg_laws.specs.Happened.{PlanRunsCover, PlanRunsHappen};
ghost use Rattle.sg_serve.specs.Exits.{way_of};

use crate::resting::clean_runs_end;
use sg_buffer::lists_are_one;
use sg_route::Router;
use sg_standing::{images_are_safe, images_between_are_safe};
use sg_world::World;

/// What happens at the core of a plan's run that opened it: events that begin with what the stores had,
/// in which the first records of each file came in, behind the place at which its reading began.
pub fn plan_runs_happen<W: World, R: Router>(world: &W, router: &[R])
    ensures { PlanRunsHappen W.Feed.state (way_of W.Drain.state W.Paths.state W.Store.state)
        R.offers R.inlets R.dests }
{
    let _world = world;
    let _router = router;
}

/// A plan's run whose core was opened, however it ended, leaves covered what it found covered, with the
/// entries whose frames its outlets took and the passes of the records that came in: at its return, and
/// at every moment since the core was opened.
pub fn plan_runs_cover<W: World, R: Router>(world: &W, router: &[R])
    ensures { PlanRunsCover W.Feed.state (way_of W.Drain.state W.Paths.state W.Store.state)
        R.offers R.inlets R.dests }
{
    let _world = world;
    let _router = router;
    images_are_safe();
    images_between_are_safe();
}

/// A plan's run that opened no core leaves covered what it found covered.
pub fn plan_runs_rest<W: World, R: Router>(world: &W, router: &[R])
    ensures { PlanRunsRest W.Feed.state (way_of W.Drain.state W.Paths.state W.Store.state)
        R.offers R.inlets R.dests }
{
    let _world = world;
    let _router = router;
    lists_are_one();
}

/// A plan's run that ended quietly, with nothing counted as failed, over files that are read by lines,
/// leaves no entry in a disk-buffer, and each position behind all items of its file.
pub fn plan_runs_end_clean<W: World, R: Router>(world: &W, router: &[R])
    ensures { PlanRunsEndClean W.Feed.state (way_of W.Drain.state W.Paths.state W.Store.state)
        R.offers R.inlets R.dests }
{
    clean_runs_end(world, router);
    lists_are_one();
}

/// Behind any number of a plan's runs, each stopped at any moment, once its core was open or before
/// that, and one that ended quietly with nothing counted as failed, each record of each file has a pass
/// of which each offer with flow-control was taken at least once, and nothing but offers was taken.
pub fn plan_runs_add_up<W: World, R: Router>(world: &W, router: &[R])
    ensures { PlanRunsAddUp W.Feed.state (way_of W.Drain.state W.Paths.state W.Store.state)
        R.offers R.inlets R.dests }
{
    clean_runs_end(world, router);
    images_are_safe();
    images_between_are_safe();
    lists_are_one();
}

/// Stores as they are made, of whose files nothing was read, are covered by nothing.
pub fn new_stores_are_covered<R: Router>(router: &[R])
    ensures { NewAreCovered R.offers }
{
    let _router = router;
    lists_are_one();
}

/// Any number of a plan's runs from new stores on, each stopped at any moment, also the last, leave covered
/// what they took and the records that came in.
pub fn plan_runs_stay_covered<W: World, R: Router>(world: &W, router: &[R])
    ensures { PlanRunsStayCovered W.Feed.state (way_of W.Drain.state W.Paths.state W.Store.state)
        R.offers R.inlets R.dests }
{
    clean_runs_end(world, router);
    images_are_safe();
    images_between_are_safe();
    lists_are_one();
}

/// Where each of a plan's runs ended quietly, with nothing counted as failed, from new stores on, each
/// record of each file came in once, and of its offers each destination took each once, but for those
/// that were dropped without flow-control.
pub fn plan_runs_take_once<W: World, R: Router>(world: &W, router: &[R])
    ensures { PlanRunsTakeOnce W.Feed.state (way_of W.Drain.state W.Paths.state W.Store.state)
        R.offers R.inlets R.dests }
{
    clean_runs_end(world, router);
    images_are_safe();
    images_between_are_safe();
    lists_are_one();
}
