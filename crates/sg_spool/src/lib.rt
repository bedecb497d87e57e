//! The reliable disk-buffer: a list of entries on one disk, whole after a power failure within any
//! write, in a file that never outgrows its bound.
#![tactic(auto)]

mod advance;
mod answers;
mod block;
mod commit;
mod gather;
mod laws;
mod open;
mod places;
mod read;
mod rewrite;
mod room;
mod rows;
mod spool;
mod stage;
mod walk;

pub use answers::{Appended, Front, RewriteRefusal, Walked};
pub use block::Block;
pub use laws::bytes_have_one_meaning;
pub use places::Places;
pub use rewrite::Recode;
pub use rows::Rows;
pub use spool::Spool;
