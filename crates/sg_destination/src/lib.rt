//! The drivers of destinations: what is wrong with their options, and what these make of their outlets.
#![tactic(auto)]

mod buffers;
mod by_path;
mod destination;
mod laws;
mod outlet;
mod templates;

pub use buffers::{DiskBuffer, store_of_destination};
pub use destination::destination_fault;
pub use laws::destinations_are_one;
pub use outlet::{DestinationDriver, read_destination};
pub use templates::Templates;
