//! Calls and expressions of the configuration language as trees: words with arguments in parentheses,
//! filters, conditions and rewrites.
#![tactic(auto)]

mod args;
mod class;
mod expr;
mod filters;
mod form;
mod laws;
mod rewrites;
mod tree;
mod values;

pub use args::{call_of, flat_args, named, paired};
pub use class::{Class, WordChoice, is_yes};
pub use expr::expression;
pub use filters::filter_call;
pub use form::{Flat, row_of};
pub use laws::{expressions_are_of_the_grammar, rewrites_are_of_the_grammar};
pub use rewrites::rewrite_call;
pub use tree::{Arg, Call, RawExpr};
pub use values::value;
