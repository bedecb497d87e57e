// The bound on the rounds of a run.
ghost use Rattle.std.specs.Prelude.{ℕ, List};
ghost use Rattle.sg_actor.specs.SourceTurns.{ActorState};
ghost use Rattle.sg_actor.specs.declared.settings.SourceSpec.{SourceSpec as ASpec};
ghost use Rattle.sg_turns.specs.Turns.{Turn};
ghost use Rattle.sg_laws.specs.Bounds.{SourceIsBounded, RunsAreBounded, UntroubledRunsEnd};
ghost use Rattle.sg_serve.specs.Exits.{way_of};

use sg_route::Router;
use sg_world::World;

/// A source whose turns do something or are idle pulls bytes, parts or the end, fails or is idle in a
/// pull, gives up parts, admits records, is told other credits, writes its position, or finds that the
/// position store has failed: so many turns at most.
pub fn sources_are_bounded<R: Router>(router: &R)
    ensures { (dests : ℕ) (spec : ASpec) (old new : ActorState) (turns : List Turn)
        → SourceIsBounded (R.offers router.now) dests spec old new turns }
{
    let _router = router;
}

/// A run of a plan that spent its rounds had no more than the bytes, parts, offers, recovered entries,
/// faults and waits of its devices pay for.
pub fn runs_are_bounded<W: World, R: Router>(world: &W, router: &[R])
    ensures { RunsAreBounded W.Feed.state (way_of W.Drain.state W.Paths.state W.Store.state)
        R.offers R.inlets R.dests }
{
    let _world = world;
    let _router = router;
}

/// A run without faults, idle inlets and outlets that can't be reopened yet ends before so many rounds are
/// spent.
pub fn untroubled_runs_end<W: World, R: Router>(world: &W, router: &[R])
    ensures { UntroubledRunsEnd W.Feed.state (way_of W.Drain.state W.Paths.state W.Store.state)
        R.offers R.inlets R.dests }
{
    let _world = world;
    let _router = router;
}
