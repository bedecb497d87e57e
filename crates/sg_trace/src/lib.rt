//! The command `trace`: a file traced through the log paths of a configuration, and what is said of its offers.
#![tactic(auto)]

mod file;
mod inlets;
mod input;
mod lines;
mod opened;
mod saying;
mod taking;
mod target;
mod targets;
mod tracer;
mod unshown;
mod untraced;

pub use file::trace_file;
pub use input::trace_input;
pub use target::{FileReading, SentForm};
pub use unshown::Unshown;
pub use untraced::Untraced;
