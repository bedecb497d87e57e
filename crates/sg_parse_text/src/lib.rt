//! A whole configuration as the list of its statements.
#![tactic(auto)]

mod laws;
mod place;
mod statement;
mod text;

pub use laws::texts_are_of_the_grammar;
pub use statement::Statement;
pub use text::statements;
