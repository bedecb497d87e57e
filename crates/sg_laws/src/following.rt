// What is covered, over one run and over all.
ghost use Rattle.sg_laws.specs.Adding.{offers_in, OneRunCovers, AllRunsAddUp, FreshAreCovered};
ghost use Rattle.sg_laws.specs.Once.{WholeRunsTakeOnce, FreshRunsCover};

use sg_route::Router;

/// A run that is stopped at any moment, of its events or between them, leaves covered what it found
/// covered, with what it took and the records that came in.
pub fn one_run_covers<R: Router>(routers: &[R])
    ensures { OneRunCovers (offers_in R.offers routers.now) }
{
    let _routers = routers;
}

/// Behind any number of such runs and one that ends clean, each record of each file has a pass of which
/// each offer with flow-control was taken at least once, and nothing but offers was taken.
pub fn all_runs_add_up<R: Router>(routers: &[R])
    ensures { AllRunsAddUp (offers_in R.offers routers.now) }
{
    let _routers = routers;
}

/// Fresh stores are covered by nothing.
pub fn fresh_stores_are_covered<R: Router>(routers: &[R])
    ensures { FreshAreCovered (offers_in R.offers routers.now) }
{
    let _routers = routers;
}

/// Any number of runs from fresh stores on, each stopped at any moment, also the last, leave covered all
/// that they took and the records that came in.
pub fn fresh_runs_cover<R: Router>(routers: &[R])
    ensures { FreshRunsCover (offers_in R.offers routers.now) }
{
    let _routers = routers;
}

/// Where each run ended clean, from fresh stores on, each record of each file came in once, and of its
/// offers each destination took each once, but for those that were dropped without flow-control.
pub fn whole_runs_take_once<R: Router>(routers: &[R])
    ensures { WholeRunsTakeOnce (offers_in R.offers routers.now) }
{
    let _routers = routers;
}
