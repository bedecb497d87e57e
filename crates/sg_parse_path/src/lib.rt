//! Log statements of the configuration language as trees.
#![tactic(auto)]

mod flag;
mod laws;
mod path;
mod reference;
mod tree;
mod whole;

pub use laws::log_statements_are_of_the_grammar;
pub use reference::ReferenceKind;
pub use tree::{RawBranch, RawElement, RawLog, RawRef};
pub use whole::log_statement;
