//! Disk-buffers in entries: the payloads of a spool are their spellings, in format 2; those of format 1,
//! which an older version left, are spelled anew at the opening.
#![tactic(auto)]

mod block;
mod first;
mod found;
mod laws;
mod looking;
mod renewing;
mod upgrade;

pub use block::entry_block;
pub use first::first_messages;
pub use found::{BufferEntries, EntryHead};
pub use laws::{entries_stay, first_messages_are_kept, lists_are_one};
pub use looking::look;
pub use renewing::renew;
pub use upgrade::Upgrade;
