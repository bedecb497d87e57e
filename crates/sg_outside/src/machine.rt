// The machine, as all that is asked of it sees it.
ghost use Rattle.sg_outside.specs.World.{WorldState};

/// The machine around the daemon. The traits that ask something of it stand on this one, so that
/// all of them speak of one state: the files, the devices that were opened and closed, the bytes
/// said, and the counts of faults.
pub trait Machine {
    ghost state: { Self → WorldState };
}
