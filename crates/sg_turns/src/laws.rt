// What holds of the turns of an actor. The functions here do nothing: their contracts are laws.
ghost use Rattle.std.specs.Prelude.{◌≡◌, ℕ, List};
ghost use Rattle.sg_counter.specs.Exchanges.{Exchange};
ghost use Rattle.sg_actor.specs.SourceTurns.{ActorState};
ghost use Rattle.sg_actor.specs.declared.rendering.DestSpec.{DestSpec as ADestSpec};
ghost use Rattle.sg_actor.specs.declared.settings.SourceSpec.{SourceSpec as ASpec};
ghost use Rattle.sg_turns.specs.Turns.{Turn, DestState};
ghost use Rattle.sg_turns.specs.Failing.{SourceFails, DestFails, DestIsBounded};
ghost use Rattle.sg_turns.specs.Laws.{TurnsReadOn, TurnsKeepWithin, TurnsSendOn, SourceRests, DestRests};

use sg_route::Router;

/// The records that a source's turns admit are the next ones that its inlet gave, in order, each with its
/// offers.
pub fn turns_read_on<R: Router>(router: &R)
    ensures { (dests : ℕ) (spec : ASpec) (old new : ActorState) (turns : List Turn)
        → TurnsReadOn (R.offers router.now) dests spec old new turns }
{
    let _router = router;
}

/// A source brings no more records than the credit that it was told, as long as each turn finds memory
/// and none are sent back.
pub fn turns_keep_within<R: Router>(router: &R)
    ensures { (dests : ℕ) (spec : ASpec) (old new : ActorState) (turns : List Turn)
        → TurnsKeepWithin (R.offers router.now) dests spec old new turns }
{
    let _router = router;
}

/// The frames that a destination's outlet took in its turns are those of the entries that these turns
/// settled, in order.
pub fn turns_send_on()
    ensures { (spec : ADestSpec) (old new : DestState) (turns : List Turn)
        → TurnsSendOn spec old new turns }
{}

/// At the end of a run whose last round was quiet a source had no credit, or its inlet is over and each of
/// its records was admitted. Its position is stored, or the store has failed.
pub fn sources_rest<R: Router>(router: &R)
    ensures { (dests : ℕ) (spec : ASpec) (old new : ActorState) (turns : List Turn)
        (before last : List Exchange)
        → SourceRests (R.offers router.now) dests spec old new turns before last }
{
    let _router = router;
}

/// At the end of such a run a destination is given up, or no entry is left for it.
pub fn dests_rest()
    ensures { (spec : ADestSpec) (old new : DestState) (turns : List Turn)
        (before last : List Exchange)
        → DestRests spec old new turns before last }
{}

/// Where a source's pull failed, the inlet's count of faults rose.
pub fn failed_pulls_count<R: Router>(router: &R)
    ensures { (dests : ℕ) (spec : ASpec) (old new : ActorState) (turns : List Turn)
        → SourceFails (R.offers router.now) dests spec old new turns }
{
    let _router = router;
}

/// Where a destination is given up for its outlet, three of its sends or reopenings failed, and no frame
/// was taken since.
pub fn third_failures_count()
    ensures { (spec : ADestSpec) (old new : DestState) (turns : List Turn)
        → DestFails spec old new turns }
{}

/// A destination whose turns do something or are idle takes a frame, or its outlet fails or is too early to
/// be reopened: so many turns at most.
pub fn busy_turns_count()
    ensures { (spec : ADestSpec) (old new : DestState) (turns : List Turn)
        → DestIsBounded spec old new turns }
{}
