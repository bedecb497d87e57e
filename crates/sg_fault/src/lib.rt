//! Faults of a configuration with their places, and the first of several.
#![tactic(auto)]

mod laws;
mod number;
mod placed;

pub use laws::{earlier_is_by_place, least_of_parts};
pub use number::kind_number;
pub use placed::{Placed, earlier, fault_at};
