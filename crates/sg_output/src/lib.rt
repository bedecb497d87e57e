//! What commands say on standard output: what was said, and what is still to be said.
#![tactic(auto)]

mod laws;

pub use laws::what_is_said_adds_up;
