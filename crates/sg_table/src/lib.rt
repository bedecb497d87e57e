//! The log paths of a configuration as a table of numbered pipes.
#![tactic(auto)]

mod bound;
mod build;
mod compiling;
mod copying;
mod fan;
mod listing;
mod making;
mod pipe;
mod share;
mod table;
mod tried;

pub use compiling::compile;
pub use pipe::{Branch, Pipe, Test, Top};
pub use table::Table;
