// What holds of all offers.
ghost use Rattle.sg_tree.specs.Bounds.{OffersAreBounded};
ghost use Rattle.sg_tree.specs.Laws.{FlowIsInherited, OffersAreWithin};

/// Offers go to destinations that are there, where the tree names no others. A statement or channel
/// with flow-control has flow-controlled offers alone, however deep they stand in it. And a record has
/// no more of them than nothing on its way would stop.
pub fn offers_are_within()
    ensures within { OffersAreWithin }
    ensures bound { OffersAreBounded }
    ensures flow { FlowIsInherited }
{}
