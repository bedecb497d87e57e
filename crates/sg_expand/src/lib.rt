//! The expansion of a configuration: variables, included files and blocks.
#![tactic(auto)]

mod block;
mod directive;
mod expander;
mod fault;
mod frame;
mod include;
mod laws;
mod step;
mod total;
mod uses;

pub use expander::expand;
pub use fault::{ExpandRefusal, Expanded};
pub use laws::{expansions_are_one, expansions_stay_within};
