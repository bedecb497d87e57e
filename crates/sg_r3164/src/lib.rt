//! Reading records as RFC 3164 describes them. Every record has a reading.
#![tactic(auto)]

mod laws;
mod opts;
mod parts;
mod reading;

pub use laws::readings_are_one;
pub use opts::ReadOpts;
pub use reading::read;
