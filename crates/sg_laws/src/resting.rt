// What the end of a plan's run means.
ghost use Rattle.sg_laws.specs.Failing.{FailedStoresCount};
ghost use Rattle.sg_laws.specs.Resting.{QuietRunsRest};
ghost use Rattle.sg_laws.specs.Ending.{CleanRunsEnd};
ghost use Rattle.sg_serve.specs.Exits.{way_of};

use sg_route::Router;
use sg_world::World;

/// Each store that is told to have failed has failed in the run: its count of faults rose.
pub fn failed_stores_count<W: World, R: Router>(world: &W, router: &[R])
    ensures { FailedStoresCount W.Feed.state (way_of W.Drain.state W.Paths.state W.Store.state)
        R.offers R.inlets R.dests }
{
    let _world = world;
    let _router = router;
}

/// Behind a quiet round nothing is left to do: each inlet is over and all that it gave came in, or its
/// source has no credit; each destination that isn't given up has settled all that it keeps; and each
/// stored position is the mark, where its store works.
pub fn quiet_runs_rest<W: World, R: Router>(world: &W, router: &[R])
    ensures { QuietRunsRest W.Feed.state (way_of W.Drain.state W.Paths.state W.Store.state)
        R.offers R.inlets R.dests }
{
    let _world = world;
    let _router = router;
}

/// Where nothing failed either, each inlet has ended and all that it gave came in, all is settled, no
/// disk-buffer has an entry, and each stored position is the end of the last record.
pub fn clean_runs_end<W: World, R: Router>(world: &W, router: &[R])
    ensures { CleanRunsEnd W.Feed.state (way_of W.Drain.state W.Paths.state W.Store.state)
        R.offers R.inlets R.dests }
{
    let _world = world;
    let _router = router;
}
