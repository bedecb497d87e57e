//! The input of a drill: records that are made by their numbers.
#![tactic(auto)]

mod input;

pub use input::drill_input;
