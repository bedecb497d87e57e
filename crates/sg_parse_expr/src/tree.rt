// The trees of calls and expressions.

use sg_lex::Cmp;
use sg_parse_base::Spot;
use sqlite_items::{Boxed, Items};

/// A word with arguments in parentheses: a driver, an option, a filter or a rewrite.
#[cycle(tree)]
#[derive(Drop)]
pub struct Call {
    pub word: Spot,
    /// None where the option has no effect.
    pub args: Items<Arg>,
}

/// What stands between parentheses.
#[cycle(tree)]
#[derive(Drop)]
pub enum Arg {
    Item(Spot),
    /// Two names or numbers with `..` between them.
    Range(Spot, Spot),
    /// An option.
    Nested(Call),
    /// The expression of a condition.
    Test(RawExpr),
}

/// An expression over messages. A chain of `and` or of `or` is one list of two terms or more.
#[cycle(tree)]
#[derive(Drop)]
pub enum RawExpr {
    Call(Call),
    Compare { left: Spot, cmp: Cmp, right: Spot },
    And(Items<RawExpr>),
    Or(Items<RawExpr>),
    Not(Boxed<RawExpr>),
}
