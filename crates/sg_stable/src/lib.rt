//! Numbers on disks that a crash leaves old or new: a cell of two slots, and the store of one position.
#![tactic(auto)]

mod cell;
mod fault;
mod position;

pub use cell::{Pair, first_nonzero};
pub use fault::StoreRefusal;
pub use position::Stable;
