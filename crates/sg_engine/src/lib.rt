//! A run over a flow core: in each round every source and every destination takes one turn.
#![tactic(auto)]

mod run;

pub use run::{Served, serve};
pub use sg_turns::Ended;
