// Log paths as a configuration writes them.

use crate::RewriteRule;
use sg_filter::Expr;
use sg_lex::Line;
use sg_parsers::ParserRule;

/// A `log` statement, a channel of a junction, or an embedded statement (syslog-ng's administration
/// guide, "Log paths").
#[cycle(tree)]
#[derive(Drop)]
pub struct Path {
    /// The numbers of the inlets that it names. Only a top-level statement names any.
    pub sources: Vec<u32>,
    pub elements: Vec<Element>,
    /// Embedded statements, which stand behind the elements.
    pub embedded: Vec<Path>,
    pub is_final: bool,
    pub fallback: bool,
    pub catchall: bool,
    pub flow: bool,
    pub drop_unmatched: bool,
    pub line: Line,
}

/// What a message meets on its way. Elements work in the order written.
#[cycle(tree)]
#[derive(Drop)]
pub enum Element {
    /// Stops a message for which it doesn't hold.
    Filter(Expr),
    Rewrite(RewriteRule),
    /// Sets what it reads in the message. It stops a message whose text it refuses.
    Parse(ParserRule),
    /// Gives the message to each of these destinations, by their numbers.
    Deliver(Vec<u32>),
    /// Offers the message to its channels. What comes out of them goes on.
    Junction(Vec<Path>),
    /// The first branch whose condition holds, else the other one. Without it the message goes on.
    If {
        branches: Vec<(Expr, Vec<Element>)>,
        other: Option<Vec<Element>>,
    },
}
