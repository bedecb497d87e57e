//! Filters, rewrites and parsers as they are meant: the expressions, operations and parsers that the trees of a
//! configuration stand for, with names by their places.
#![tactic(auto)]

mod expression;
mod filter;
mod parser;
mod pattern;
mod range;
mod rewrite;
mod value;

pub use expression::lower_expression;
pub use parser::lower_parser;
pub use rewrite::lower_rewrite;
