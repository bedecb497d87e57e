//! The turns of sources and destinations. A source's turn takes records of its inlet into the flow
//! core; a destination's turn takes entries of the core to its outlet.
#![tactic(auto)]

mod admitting;
mod delivering;
mod dest;
mod laws;
mod outage;
mod position;
mod pulling;
mod reader;
mod reading;
mod rendering;
mod settings;
mod source;
mod taking;
mod threads;
mod turned;

pub use dest::DestActor;
pub use laws::{all_are_read, first_are_read, lines_are_whole};
pub use settings::SourceSpec;
pub use source::SourceActor;
pub use turned::{GivenUp, Turned};
