//! The queue of a destination.
#![tactic(auto)]

mod entry;
mod queue;

pub use entry::Entry;
pub use queue::Queue;
