//! The texts that the program prints: of a run, of a configuration that isn't read, of a store and its
//! entries.
#![tactic(auto)]

mod entry;
mod fault;
mod laws;
mod line;
mod report;
mod shown;
mod store;

pub use entry::{entries_text, entry_text, frame_text};
pub use fault::fault_text;
pub use laws::drivers_are_summed;
pub use report::tally_text;
pub use shown::Shown;
pub use store::{damaged_text, failed_text, unopened_text};
