// What holds of what a source has read. The functions here do nothing: their contracts are laws.
ghost use Rattle.std.specs.Prelude.{◌≡◌, ℕ};
ghost use Rattle.sg_actor.specs.Sources.{SourceState};
ghost use Rattle.sg_actor.specs.Laws.{ReadsFirst, ReadsAll, StaysWhole};
ghost use Rattle.sg_actor.specs.declared.settings.SourceSpec.{SourceSpec as ASpec};

use sg_route::Router;

/// What was admitted are the first records of an inlet that tells what it gave.
pub fn first_are_read<R: Router>(router: &R)
    ensures { (dests : ℕ) (spec : ASpec) (s : SourceState)
        → ReadsFirst (R.offers router.now) dests spec s }
{
    let _router = router;
}

/// Once the inlet is over, and all that it gave dealt with, they are all of its records, and each
/// part whose items a bad count follows has been given up.
pub fn all_are_read<R: Router>(router: &R)
    ensures { (dests : ℕ) (spec : ASpec) (s : SourceState)
        → ReadsAll (R.offers router.now) dests spec s }
{
    let _router = router;
}

/// No part of an inlet that is read by lines is given up; so at its end a file has no byte left.
pub fn lines_are_whole()
    ensures { (dests : ℕ) (spec : ASpec) (s : SourceState) → StaysWhole dests spec s }
{}
