// The trees of statements.

use sg_parse_base::Spot;
use sg_parse_expr::{Call, RawExpr};
use sqlite_items::Items;

/// A statement other than a log statement.
#[derive(Drop)]
pub enum Object {
    Options(Items<Call>),
    Source { name: Spot, drivers: Items<Call> },
    Destination { name: Spot, drivers: Items<Call> },
    Filter { name: Spot, expr: RawExpr },
    Rewrite { name: Spot, calls: Items<Call> },
    Parser { name: Spot, calls: Items<Call> },
    /// None where the block gives no text: it is the empty one. Of several the last is kept.
    Template { name: Spot, text: Option<Spot> },
}
