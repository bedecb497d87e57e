// What a destination settles is what its front showed, and what its outlet took.
ghost use Rattle.sg_laws.specs.Fronts.{FrontsAreNext, FramesAreSettled, SettlesAreTaken};

/// Between a destination's front and its own next settle others may call; what is settled then are the entries that
/// were shown, and the answer is never NotFront.
pub fn fronts_are_next()
    ensures { FrontsAreNext }
{}

/// The frames that an outlet took in all turns of its destination are those of the entries that were settled, no more
/// and no fewer. Where the store of a disk-buffer doesn't tell its bytes, they are as many.
pub fn frames_are_settled()
    ensures { FramesAreSettled }
{}

/// With each settling a destination shows the count of frames that its outlet told last. Behind the count at first it is
/// the number of entries settled with it: the frames of all these were taken before they were settled.
pub fn settles_are_taken()
    ensures { SettlesAreTaken }
{}
