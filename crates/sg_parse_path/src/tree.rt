// The trees of log statements.

use sg_parse_base::Spot;
use sg_parse_expr::RawExpr;
use sg_parse_obj::Object;
use sqlite_items::Items;

/// What an element names, or what stands in its place.
#[derive(Drop)]
pub enum RawRef {
    Named(Spot),
    /// Its name is the brace that opens it.
    Inline(Object),
}

/// A log statement, or a channel of a junction.
#[cycle(tree)]
#[derive(Drop)]
pub struct RawLog {
    /// `log` or `channel`.
    pub word: Spot,
    pub elements: Items<RawElement>,
    pub embedded: Items<RawLog>,
    pub flags: Items<Spot>,
}

#[cycle(tree)]
#[derive(Drop)]
pub enum RawElement {
    /// Its word, and what it refers to. It may stand in every path here.
    Source(Spot, RawRef),
    Destination(RawRef),
    Filter(RawRef),
    Rewrite(RawRef),
    Parser(RawRef),
    Junction(Items<RawLog>),
    /// The branches of `if` and of each `elif`, and that of `else`.
    If {
        branches: Items<RawBranch>,
        other: Option<Items<RawElement>>,
    },
}

/// A condition, and what stands behind it in braces.
#[cycle(tree)]
#[derive(Drop)]
pub struct RawBranch {
    pub test: RawExpr,
    pub elements: Items<RawElement>,
}
