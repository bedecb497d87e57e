//! The command `spool`: the entries of a disk-buffer's store, listed as text.
#![tactic(auto)]

mod about;
mod entry;
mod listing;
mod payload;
mod salvage;
mod saying;
mod unlisted;
mod walking;

pub use listing::list_store;
pub use unlisted::Unlisted;
