// What holds of every legal list of events. The functions here do nothing: their contracts are laws.
ghost use Rattle.std.specs.Prelude.{◌≡◌, ℕ, List, [], ◌∷◌, ◌++◌, true, false, Some, slice_get};
ghost use Rattle.sg_machine.specs.declared.event.Admission.{Admission};
ghost use Rattle.sg_machine.specs.declared.event.Act.TheVariants.{Admit};
ghost use Rattle.sg_machine.specs.declared.event.Verdict.{Verdict};
ghost use Rattle.sg_machine.specs.declared.setup.BufferSetup.{BufferSetup};
ghost use Rattle.sg_machine.specs.Verdicts.{is_listed};
ghost use Rattle.sg_machine.specs.Legal.{is_legal_act};
ghost use Rattle.sg_machine.specs.Safe.{appends, tried_by};
ghost use Rattle.sg_machine.specs.declared.event.Event.{Event};
ghost use Rattle.sg_machine.specs.declared.setup.Setup.{Setup};
ghost use Rattle.sg_machine.specs.declared.state.Dest.{Dest};
ghost use Rattle.sg_machine.specs.declared.state.InletRecords.{InletRecords};
ghost use Rattle.sg_machine.specs.declared.state.State.{State};
ghost use Rattle.sg_machine.specs.Runs.{Opening, opened, after_all, are_legal};
ghost use Rattle.sg_machine.specs.Safe.{Images, ImagesAt, Safe};
ghost use Rattle.sg_machine.specs.Acks.{CountsMark};
ghost use Rattle.sg_machine.specs.Counts.{CountsDest, CountsInlet, KeepsOrder, WithinWindows, flow_drops};

/// The state after legal events has what the events count: of each destination what is settled,
/// kept, spooled and dropped, of each inlet its records and what is stored.
pub fn counts_hold()
    ensures dests { (start : State) (events : List Event) (d : ℕ) (old : Dest)
        → are_legal start events ≡ true → slice_get start.dests d ≡ Some old
        → (new : Dest) × (slice_get (after_all start events).dests d ≡ Some new)
        × CountsDest old new d events }
    ensures inlets { (start : State) (events : List Event) (i : ℕ) (old : InletRecords)
        → are_legal start events ≡ true → slice_get start.inlets i ≡ Some old
        → (new : InletRecords) × (slice_get (after_all start events).inlets i ≡ Some new)
        × CountsInlet start old new i events }
{}

/// Behind what was kept before, a destination keeps the offers of each inlet in order, less the
/// dropped ones.
pub fn order_holds()
    ensures { (start : State) (events : List Event) (d : ℕ) (old : Dest)
        → are_legal start events ≡ true → slice_get start.dests d ≡ Some old
        → (new : Dest) × (slice_get (after_all start events).dests d ≡ Some new)
        × KeepsOrder old new d events }
{}

/// No offer with flow-control is dropped.
pub fn flow_holds()
    ensures { (start : State) (events : List Event) → are_legal start events ≡ true
        → flow_drops events ≡ 0 }
{}

/// No more records are outstanding than the windows have, from each opening on, and from each state
/// in which this holds.
pub fn windows_hold()
    ensures opened { (setup : Setup) (opening : Opening) → WithinWindows (opened setup opening) }
    ensures kept { (start : State) (events : List Event) → WithinWindows start
        → are_legal start events ≡ true → WithinWindows (after_all start events) }
{}

/// The mark and the outstanding records of each inlet are what the events say: a record is
/// acknowledged where each of its offers with flow-control is settled or spooled.
pub fn marks_hold()
    ensures { (start : State) (events : List Event) (i : ℕ) (old : InletRecords)
        → are_legal start events ≡ true → slice_get start.inlets i ≡ Some old
        → (new : InletRecords) × (slice_get (after_all start events).inlets i ≡ Some new)
        × CountsMark start old new i events }
{}

/// Where the positions and the lists in the stores are what the events may leave, they are safe: no
/// position has passed a record with an offer that is neither settled nor in its disk-buffer.
pub fn safety_holds()
    ensures { (setup : Setup) (opening : Opening) (events : List Event) (event : Event)
        (images : Images)
        → are_legal (opened setup opening) (events ++ event ∷ []) ≡ true
        → ImagesAt (opened setup opening) events event images
        → Safe (opened setup opening) events event images }
{}

/// In an Admit a store that fails spools none of its offers, so it fails at the first that it would
/// spool; and one that works spools just those that are said to be tried where it fails.
pub fn appends_hold()
    ensures failing { (s : State) (i : ℕ) (records : List Admission) (vs : List Verdict)
        (failed : List ℕ) (d : ℕ) (dest : Dest) (b : BufferSetup)
        → is_legal_act s (Admit i records vs) failed ≡ true → slice_get s.dests d ≡ Some dest
        → dest.setup.buffer ≡ Some b → is_listed b.store failed ≡ true
        → appends (Admit i records vs) d dest ≡ [] }
    ensures working { (s : State) (i : ℕ) (records : List Admission) (vs : List Verdict)
        (failed : List ℕ) (d : ℕ) (dest : Dest) (b : BufferSetup)
        → is_legal_act s (Admit i records vs) failed ≡ true → slice_get s.dests d ≡ Some dest
        → dest.setup.buffer ≡ Some b → is_listed b.store failed ≡ false
        → is_listed b.store s.failed ≡ false
        → appends (Admit i records vs) d dest ≡ tried_by s (Admit i records vs) d dest }
{}
