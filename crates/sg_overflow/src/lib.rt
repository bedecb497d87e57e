//! The disk-buffer of `reliable(no)`: an outlet round another outlet, which holds frames in memory, and
//! on a disk, while the other can't take them.
#![tactic(auto)]

mod answers;
mod buffered;
mod forwarder;
mod forwarding;
mod held;
mod keeping;
mod laws;
mod loading;
mod memory;
mod overflow;
mod payload;
mod reading;
mod staging;
mod step;
mod tally;

pub use answers::{Finished, Limits};
pub use buffered::Buffered;
pub use held::Held;
pub use laws::lists_add_up;
pub use memory::Memory;
pub use overflow::Overflow;
pub use step::Stop;
pub use tally::OutletTally;
