// The items of a file, and those from a place in it on.
ghost use Rattle.sg_laws.specs.Resuming.{RestFollows, EndsRise, MomentsAreFree, PiecesGrow, ReadingResumes, ReadingEnds};

/// The items of the bytes from an item's end on are the rest of the items.
pub fn rest_follows()
    ensures { RestFollows }
{}

/// The ends of items rise strictly, and none is 0.
pub fn ends_rise()
    ensures { EndsRise }
{}

/// Texts and ends of items are those of the bytes, whenever these came.
pub fn moments_are_free()
    ensures { MomentsAreFree }
{}

/// Where a file grows, its items stay, and others may follow.
pub fn pieces_grow()
    ensures { PiecesGrow }
{}

/// What is read of a file from its start or an item's end on are the first of the items behind that
/// place.
pub fn reading_resumes()
    ensures { ReadingResumes }
{}

/// What is read of it to its end are all of these.
pub fn reading_ends()
    ensures { ReadingEnds }
{}
