// What destinations take of records that came in.
ghost use Rattle.std.specs.Prelude.{◌≡◌, true, List};
ghost use Rattle.sg_machine.specs.declared.event.Event.{Event};
ghost use Rattle.sg_machine.specs.declared.setup.Setup.{Setup};
ghost use Rattle.sg_machine.specs.declared.state.State.{State};
ghost use Rattle.sg_machine.specs.Counts.{WithinWindows};
ghost use Rattle.sg_machine.specs.Runs.{Opening, opened, are_legal};
ghost use Rattle.sg_laws.specs.Drops.{DropsAreDue};
ghost use Rattle.sg_laws.specs.Laws.{TextsAreTaken, TextsAreFirst, StayWithin};

use sg_route::Router;

/// Each destination takes from each source, in order, a prefix of exactly the texts that the router gives for
/// each record alone, less those dropped without flow-control: of the records that came in, in any legal events; and
/// in a run of the core of the first records that the source's inlet gave.
pub fn texts_are_taken<R: Router>(router: &R)
    ensures events { TextsAreTaken (R.offers router.now) }
    ensures run { TextsAreFirst (R.offers router.now) }
{
    let _router = router;
}

/// In legal events an offer is dropped only without flow-control, and only where its queue in memory is full, an
/// entry of its disk-buffer waits, it doesn't fit there, or the store has failed.
pub fn drops_are_due()
    ensures { DropsAreDue }
{}

/// After every prefix of legal events no more records are outstanding than the windows have, from each opening on,
/// and from each state in which this holds.
pub fn windows_stay()
    ensures opened { (setup : Setup) (opening : Opening) (events : List Event)
        → are_legal (opened setup opening) events ≡ true
        → StayWithin (opened setup opening) events }
    ensures kept { (start : State) (events : List Event) → WithinWindows start
        → are_legal start events ≡ true → StayWithin start events }
{}
