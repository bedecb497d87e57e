// What holds of every filter.
ghost use Rattle.sg_filter.specs.Laws.{FiltersHold};

/// A filter answers whether its expression holds.
pub fn filters_hold()
    ensures { FiltersHold }
{}
