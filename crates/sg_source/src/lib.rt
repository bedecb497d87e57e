//! The drivers of sources: what is wrong with their options, and what these make of their inlets.
#![tactic(auto)]

mod inlet;
mod laws;
mod source;

pub use inlet::{SourceDriver, SourceOrigin, read_source};
pub use laws::sources_are_one;
pub use source::{inlet_count, source_fault, store_of_source};
