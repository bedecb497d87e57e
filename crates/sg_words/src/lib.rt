//! The words of the command line.
#![tactic(auto)]

mod command;
mod numbers;

pub use command::{Command, command_of};
pub use numbers::MOST_ROUNDS;
