//! What the drivers of sources and destinations have in common: their kinds, the ranges of their numbers,
//! and the global options, which are their defaults.
#![tactic(auto)]

mod defaults;
mod driver;
mod limits;

pub use defaults::{Defaults, iso_or, options_fault};
pub use driver::{driver_kind, long_name, missing_unless, name_of};
pub use limits::{
    BUFFER_SIZE, CONNECTIONS, FETCH_LIMIT, FIFO_SIZE, FRACTION_DIGITS, MEMORY_LENGTH, MESSAGE_SIZE,
    PORTS, REAP_TIME, REOPEN_TIME, STORE_NAME_LIMIT, WINDOW_SIZE,
};
