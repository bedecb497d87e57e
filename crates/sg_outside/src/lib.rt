//! The machine around the daemon: what is asked of it, and what it holds.
#![tactic(auto)]

mod files;
mod machine;
mod request;

pub use files::Files;
pub use machine::Machine;
pub use request::{InletSpec, OutletSpec, StoreSpec};
