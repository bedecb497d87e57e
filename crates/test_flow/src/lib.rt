//! What tests of runs share: a router, lists of sources and destinations, and runs of two files into two
//! destinations, with devices in memory.
#![tactic(auto)]

mod lists;
mod outcome;
mod preparing;
mod router;
mod rows;

pub use lists::{close_dests, close_sources, two_dests};
pub use outcome::{FlowOutcome, finish};
pub use preparing::{Prepared, disks, prepare, shape};
pub use router::{ByDigit, message};
pub use rows::{FlowRow, lines, read_row, rounds_of};
