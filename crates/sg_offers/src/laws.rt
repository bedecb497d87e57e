// What a batch at the core's destinations says of the machine's. The functions here do nothing: their
// contracts are laws.
ghost use Rattle.std.specs.Prelude.{◌≡◌, ◌≤◌, ℕ, Bool, List, Some, true, false, length, slice_get};
ghost use Rattle.sg_counter.specs.Bringing.{AllMayEnter};
ghost use Rattle.sg_machine.specs.declared.event.Admission.{Admission};
ghost use Rattle.sg_machine.specs.declared.event.Verdict.{Verdict};
ghost use Rattle.sg_machine.specs.declared.setup.BufferSetup.{BufferSetup};
ghost use Rattle.sg_machine.specs.declared.state.Dest.{Dest};
ghost use Rattle.sg_machine.specs.Verdicts.{claims_of, is_listed, judged};
ghost use Rattle.sg_machine.specs.Running.{are_split};
ghost use Rattle.sg_sinks.specs.Standing.{IsSplit};
ghost use Rattle.sg_offers.specs.Answering.{fails_at};
ghost use Rattle.sg_offers.specs.Batches.{sinks_at, AreSplit, AreBuffersApart, WouldFail};
ghost use Rattle.sg_offers.specs.Laws.{JudgedAll, Tried, BegunRecords};

/// Where the stores that fail are those of some destinations at which an offer would be spooled, the
/// verdicts are those that the machine judges right, and what is kept then is what the machine has.
pub fn judged_hold()
    ensures { (fails : List Bool) (i next : ℕ) (dests : List Dest) (failed : List ℕ)
        (records : List Admission) → AreSplit dests → AreBuffersApart dests
        → AllMayEnter (length dests) records → ((d : ℕ) → fails_at fails d ≡ true
        → WouldFail i (sinks_at failed dests) (claims_of records) d)
        → JudgedAll fails i next dests failed (claims_of records) }
{}

/// What the disk-buffer of a destination takes of the offers is what the machine would spool there.
pub fn tried_hold()
    ensures { (i next : ℕ) (dests : List Dest) (failed : List ℕ) (records : List Admission) (d : ℕ)
        (dest : Dest) (buffer : BufferSetup) → slice_get dests d ≡ Some dest
        → dest.setup.buffer ≡ Some buffer → is_listed buffer.store failed ≡ false → IsSplit dest
        → Tried i next dests failed (claims_of records) d dest buffer }
{}

/// Each record of the batch needs an acknowledgement for each of its entries that waits with
/// flow-control; what other records need stays.
pub fn begun_hold()
    ensures { (i next : ℕ) (failing : List ℕ) (dests : List Dest) (failed : List ℕ)
        (records : List Admission) (vs : List Verdict) (z : List ℕ) → are_split dests ≡ true
        → judged i next failing dests failed (claims_of records) vs ≡ Some z
        → BegunRecords i next dests records vs }
{}
