//! The turns of all sources and destinations, round after round, over any counter.
#![tactic(auto)]

mod ended;
mod laws;
mod round;
mod rounds;

pub use ended::Ended;
pub use laws::{
    busy_turns_count, dests_rest, failed_pulls_count, sources_rest, third_failures_count,
    turns_keep_within, turns_read_on, turns_send_on,
};
pub use rounds::run_rounds;
