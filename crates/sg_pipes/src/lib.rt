//! The offers of records by a compiled table of log paths.
#![tactic(auto)]

mod frame;
mod gone;
mod messages;
mod peer;
mod pipe;
mod pipes;
mod threads;
mod within;
mod work;

pub use pipes::Pipes;
pub use within::names_within;
