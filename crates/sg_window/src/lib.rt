//! Windows of records: how many may be outstanding, and how far they are acknowledged.
#![tactic(auto)]

mod tracker;

pub use tracker::{BegunRecord, Tracker};
