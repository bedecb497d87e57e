//! The log paths of a configuration's statements: filters, rewrites and parsers by their numbers, statements, channels
//! and branches as a tree.
#![tactic(auto)]

mod element;
mod flag;
mod forest;
mod laws;
mod reference;
mod rule;
mod source;
mod statement;

pub use forest::forest_of;
pub use laws::{parsers_are_kept, rewrites_are_kept};
