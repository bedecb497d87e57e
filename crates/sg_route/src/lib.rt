//! What a record of a source becomes: offers of messages to destinations.
#![tactic(auto)]

mod router;

pub use router::Router;
