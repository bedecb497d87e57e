//! What the drivers of a configuration come to: its inlets, outlets and stores, and the setup of the flow core.
#![tactic(auto)]

mod adding;
mod driver;
mod drivers;
mod ends;
mod globals;
mod laws;
mod owner;
mod plan;

pub use ends::{Endpoints, numbers_of};
pub use laws::{numbers_are_within, plans_are_one, plans_are_within};
pub use owner::Owner;
pub use plan::{Plan, plan_of};
