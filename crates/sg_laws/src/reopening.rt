// Opening again.
ghost use Rattle.std.specs.Prelude.{◌≡◌, ◌+◌, ℕ, List, Some, length, slice_get, take};
ghost use Rattle.sg_device.specs.Disk.{DiskState};
ghost use Rattle.sg_machine.specs.declared.event.Act.{Act};
ghost use Rattle.sg_machine.specs.declared.event.Event.{Event};
ghost use Rattle.sg_machine.specs.declared.setup.Setup.{Setup};
ghost use Rattle.sg_machine.specs.declared.state.State.{State};
ghost use Rattle.sg_machine.specs.Runs.{Opening, opened};
ghost use Rattle.sg_machine.specs.Safe.{nothing};
ghost use Rattle.sg_standing.specs.States.{CoreState, setup_of};
ghost use Rattle.sg_standing.specs.Standing.{StandsFor, DoesAct};
ghost use Rattle.sg_standing.specs.Images.{AreImages, AreImagesWithin, AreImagesBetween};
ghost use Rattle.sg_core.specs.Opening.{NumberStores};
ghost use Rattle.sg_laws.specs.Reopening.{TellImages, OpensAgain, BeginsSafe};

use sg_core::{
    images_are_safe, images_between_are_safe, images_open_again, images_within_are_safe,
};

/// Whatever a crash leaves of the stores of a core, between two calls, within one, or at an earlier
/// moment: a core that is opened over it begins with the positions and the lists that stand there, and
/// none of its stores is damaged.
pub fn images_open_as_they_stand()
    ensures now { (core : CoreState) (start : State) (events : List Event) (images : List (List ℕ))
        (disks : List DiskState) → StandsFor core start events → AreImages core.stores images
        → NumberStores (setup_of core) (length disks) → TellImages disks images
        → OpensAgain core images disks }
    ensures within { (old new : CoreState) (start : State) (events : List Event) (act : Act)
        (does : DoesAct old new act) (images : List (List ℕ)) (disks : List DiskState)
        → StandsFor old start events → AreImagesWithin old.stores new.stores images
        → NumberStores (setup_of old) (length disks) → TellImages disks images
        → OpensAgain old images disks }
    ensures between { (core : CoreState) (start : State) (events : List Event)
        (stands : StandsFor core start events) (k : ℕ) (event : Event) (images : List (List ℕ))
        (disks : List DiskState) → slice_get events k ≡ Some event
        → AreImagesBetween core.stores (stands.moments.rows k) (stands.moments.rows (k + 1)) images
        → NumberStores (setup_of core) (length disks) → TellImages disks images
        → OpensAgain core images disks }
{
    images_open_again();
}

/// And what it begins with is safe for the events of the core before it, and the one that was under way.
pub fn openings_are_safe()
    ensures now { (setup : Setup) (opening : Opening) (events : List Event) (core : CoreState)
        (images : List (List ℕ)) (disks : List DiskState)
        → StandsFor core (opened setup opening) events → AreImages core.stores images
        → NumberStores (setup_of core) (length disks) → TellImages disks images
        → BeginsSafe core disks (opened setup opening) events nothing }
    ensures within { (setup : Setup) (opening : Opening) (events : List Event) (old new : CoreState)
        (act : Act) (does : DoesAct old new act) (images : List (List ℕ)) (disks : List DiskState)
        → StandsFor old (opened setup opening) events → AreImagesWithin old.stores new.stores images
        → NumberStores (setup_of old) (length disks) → TellImages disks images
        → BeginsSafe old disks (opened setup opening) events
        (record { act = act; failed = does.failed }) }
    ensures between { (setup : Setup) (opening : Opening) (events : List Event) (core : CoreState)
        (stands : StandsFor core (opened setup opening) events) (k : ℕ) (event : Event)
        (images : List (List ℕ)) (disks : List DiskState) → slice_get events k ≡ Some event
        → AreImagesBetween core.stores (stands.moments.rows k) (stands.moments.rows (k + 1)) images
        → NumberStores (setup_of core) (length disks) → TellImages disks images
        → BeginsSafe core disks (opened setup opening) (take k events) event }
{
    images_open_as_they_stand();
    images_are_safe();
    images_within_are_safe();
    images_between_are_safe();
}
