// The calls of sources and destinations, and the events that they are.
ghost use Rattle.std.specs.Prelude.{◌≡◌, List, length, map};
ghost use Rattle.sg_machine.specs.declared.event.Event.{Event};
ghost use Rattle.sg_machine.specs.declared.state.State.{State};
ghost use Rattle.sg_counter.specs.Exchanges.{Exchange, Makes};
ghost use Rattle.sg_standing.specs.States.{CoreState};
ghost use Rattle.sg_standing.specs.Standing.{StandsFor, KeepsRows};
ghost use Rattle.sg_core.specs.Calls.{Serves, acts_of};
ghost use Rattle.sg_laws.specs.Calls.{Ran, AreOwn};
ghost use Rattle.sg_laws.specs.Credits.{CreditLasts};

/// Calls of a core, one after another, are events, for which it stands then, by a
/// timetable that keeps the rows it had. The records that came in of a source are
/// those of its own calls that were answered Ok, in order; and what a destination settled are those of its own calls
/// that were answered Done or DiskFailed.
pub fn calls_admit()
    ensures run { (old new : CoreState) (made : List Exchange) (start : State) (before : List Event)
        → Makes Serves old made new → (stood : StandsFor old start before) → (events : List Event)
        × ((ran : Ran old new made start before events) × AreOwn made events
        × KeepsRows (length before) stood.moments.rows ran.stands.moments.rows) }
    ensures own { (made : List Exchange) (events : List Event)
        → map (λ (e : Event). e.act) events ≡ acts_of made → AreOwn made events }
{}

/// Between a source's question for its credit and its own next admit others may call; a source that brings no more
/// records than it was told isn't refused for lack of credit.
pub fn credit_lasts()
    ensures { CreditLasts }
{}
