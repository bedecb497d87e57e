// What a destination of the core says of that of the machine. The functions here do nothing: their
// contracts are laws.
ghost use Rattle.std.specs.Prelude.{◌≡◌, ◌≤◌, ℕ, Bool, List, Option, Some, false, length};
ghost use Rattle.sg_msg.specs.declared.offer.Offer.{Offer};
ghost use Rattle.sg_machine.specs.declared.setup.BufferSetup.{BufferSetup};
ghost use Rattle.sg_machine.specs.declared.state.Origin.{Origin};
ghost use Rattle.sg_machine.specs.declared.state.Dest.{Dest};
ghost use Rattle.sg_sinks.specs.States.{SinkState};
ghost use Rattle.sg_sinks.specs.Standing.{IsSplit};
ghost use Rattle.sg_sinks.specs.Laws.{Judging, OfferLeaves, Settling, Moving, Trying};

/// The verdict of an offer is the one that the machine judges right.
pub fn verdicts_hold()
    ensures { (dest : Dest) (failing failed : List ℕ) (offer : Offer) → IsSplit dest
        → Judging dest failing failed offer }
{}

/// What an offer leaves is what is kept of what the machine has then.
pub fn offers_hold()
    ensures { (dest : Dest) (broken fails : Bool) (origin : Origin) (offer : Offer) → IsSplit dest
        → OfferLeaves dest broken fails origin offer }
{}

/// So it is of entries that are settled.
pub fn settles_hold()
    ensures { (dest : Dest) (broken : Bool) (n : ℕ) → n ≤ length dest.left → IsSplit dest
        → Settling dest broken n }
{}

/// And of one that goes to the disk.
pub fn moves_hold()
    ensures { (dest : Dest) (buffer : BufferSetup) (broken : Bool) → dest.setup.buffer ≡ Some buffer
        → IsSplit dest → Moving dest buffer broken }
{}

/// A trial of offers to a disk-buffer takes those that it spools while its store works.
pub fn trials_hold()
    ensures { (buffer : BufferSetup) (sink : SinkState) (inlet number : ℕ) (offer : Offer)
        (block : Option (List ℕ)) → sink.setup.buffer ≡ Some buffer → sink.broken ≡ false
        → Trying buffer sink inlet number offer block }
{}
