// What holds of the definitions of parsers.
ghost use Rattle.sg_parsers.specs.Laws.{ColumnsAreRead, FieldsAreCounted, OthersAreKept};

/// Values that stand in quotes, each quote in them doubled and a delimiter between two, are read as they
/// were, and are as many fields. A name that is no column's keeps its value.
pub fn columns_are_read()
    ensures read { ColumnsAreRead }
    ensures counted { FieldsAreCounted }
    ensures kept { OthersAreKept }
{}
