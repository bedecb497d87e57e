// For which events a core stands, and what a crash leaves of its stores. The functions here do nothing:
// their contracts are laws.
ghost use Rattle.std.specs.Prelude.{◌≡◌, ◌+◌, ℕ, List, [], ◌∷◌, Some, slice_get, take};
ghost use Rattle.sg_machine.specs.declared.event.Act.{Act};
ghost use Rattle.sg_machine.specs.declared.event.Event.{Event};
ghost use Rattle.sg_machine.specs.declared.setup.Setup.{Setup};
ghost use Rattle.sg_machine.specs.declared.state.State.{State};
ghost use Rattle.sg_machine.specs.Runs.{BufferedEntry, Opening, opened};
ghost use Rattle.sg_machine.specs.Safe.{Safe, nothing};
ghost use Rattle.sg_standing.specs.States.{CoreState};
ghost use Rattle.sg_standing.specs.Standing.{StandsFor, StandsOn, AddsEvent, DoesAct};
ghost use Rattle.sg_standing.specs.Images.{positions_in, AreListsIn, AreImages, AreImagesWithin, AreImagesBetween, AreStores};

use sg_buffer::lists_are_one;

/// A core that stands for events stands for one more where that is legal, the core keeps what the state
/// after it has, and each image within it is safe: the timetable gets a row, and keeps those that it has.
pub fn more_stands()
    ensures { (old new : CoreState) (start : State) (events : List Event) (event : Event)
        (stood : StandsFor old start events) → AddsEvent old new start events event
        → StandsOn new start events (event ∷ []) stood.moments.rows }
{}

/// Between two calls a crash leaves positions and lists in the stores that are safe after the events that
/// the core stands for.
pub fn images_are_safe()
    ensures { (setup : Setup) (opening : Opening) (events : List Event) (core : CoreState)
        (images : List (List ℕ)) (lists : List (List BufferedEntry))
        → StandsFor core (opened setup opening) events → AreImages core.stores images
        → AreListsIn core.sinks images lists → Safe (opened setup opening) events nothing
        (record { positions = positions_in core.sources images; lists = lists }) }
{
    lists_are_one();
}

/// Within a call, at whatever moment for each store, a crash leaves what is safe for the events before it
/// and its own.
pub fn images_within_are_safe()
    ensures { (setup : Setup) (opening : Opening) (events : List Event) (old new : CoreState)
        (act : Act) (does : DoesAct old new act) (images : List (List ℕ)) (lists : List (List BufferedEntry))
        → StandsFor old (opened setup opening) events → AreImagesWithin old.stores new.stores images
        → AreListsIn old.sinks images lists → Safe (opened setup opening) events
        (record { act = act; failed = does.failed })
        (record { positions = positions_in old.sources images; lists = lists }) }
{
    lists_are_one();
}

/// And so it did at every earlier moment: where the image of each store is of a moment between the same
/// two rows of the timetable, they are safe for the events before the first row and the one between.
pub fn images_between_are_safe()
    ensures { (setup : Setup) (opening : Opening) (events : List Event) (core : CoreState)
        (stands : StandsFor core (opened setup opening) events) (k : ℕ) (event : Event)
        (images : List (List ℕ)) (lists : List (List BufferedEntry))
        → slice_get events k ≡ Some event
        → AreImagesBetween core.stores (stands.moments.rows k) (stands.moments.rows (k + 1)) images
        → AreListsIn core.sinks images lists → Safe (opened setup opening) (take k events) event
        (record { positions = positions_in core.sources images; lists = lists }) }
{
    lists_are_one();
}

/// Each of these images is a position store, or has a list of entries, so that a core opens over them
/// again.
pub fn images_open_again()
    ensures now { (core : CoreState) (start : State) (events : List Event) (images : List (List ℕ))
        → StandsFor core start events → AreImages core.stores images → AreStores core images }
    ensures within { (old new : CoreState) (start : State) (events : List Event) (act : Act)
        (does : DoesAct old new act) (images : List (List ℕ)) → StandsFor old start events
        → AreImagesWithin old.stores new.stores images → AreStores old images }
    ensures between { (core : CoreState) (start : State) (events : List Event)
        (stands : StandsFor core start events) (k : ℕ) (event : Event) (images : List (List ℕ))
        → slice_get events k ≡ Some event
        → AreImagesBetween core.stores (stands.moments.rows k) (stands.moments.rows (k + 1)) images
        → AreStores core images }
{}
