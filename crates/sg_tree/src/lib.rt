//! The tree of a configuration's log paths, and what it offers for a record.
#![tactic(auto)]

mod delivery;
mod forest;
mod laws;
mod one_line;
mod reading;
mod refusal;
mod sound;
mod tree;

pub use delivery::deliver;
pub use forest::{DestRule, Forest, InletRule};
pub use laws::offers_are_within;
pub use reading::{is_skipped, read_item};
pub use refusal::PathRefusal;
pub use sound::{RewriteRule, is_sound};
pub use tree::{Element, Path};
