//! What a configuration may say that wasn't meant: options without effect, values that nothing sets, names that nothing uses, records
//! that are delivered twice. It is told on standard error, and changes nothing else.
#![tactic(auto)]

mod effects;
mod freq;
mod looking;
mod parsed;
mod paths;
mod set_names;
mod telling;
mod texts;
mod unused;
mod warning;

pub use freq::stats_freq;
pub use telling::{tell_warnings, warnings_text};
