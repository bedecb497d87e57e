//! What names what: which nodes of a graph name themselves through others, and how large each is with all
//! that it names.
#![tactic(auto)]

mod cycle;
mod laws;
mod order;
mod rank;
mod row;
mod search;
mod size;

pub use cycle::first_on_cycle;
pub use laws::cycles_have_one_first;
pub use size::sizes;
