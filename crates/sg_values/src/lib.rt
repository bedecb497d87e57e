//! What is wrong with the values of filters, rewrites and parsers: names, patterns and numbers out of their ranges,
//! options that are missing, macros that can't be set.
#![tactic(auto)]

mod expression;
mod filter;
mod parser;
mod pattern;
mod range;
mod rewrite;
mod setting;
mod text;

pub use expression::expression_fault;
pub use filter::filter_fault;
pub use parser::parser_fault;
pub use rewrite::rewrite_fault;
pub use text::values_fault;
