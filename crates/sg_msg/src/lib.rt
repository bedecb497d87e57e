//! Messages: what a record says, as pairs of a name and a value, with a PRI, two stamps and tags.
#![tactic(auto)]

mod base;
mod builder;
mod copy;
mod draft;
mod front;
mod length;
mod macros;
mod message;
mod offer;
mod order;
mod pair;
mod refusal;
mod same;
mod sets;
mod sorting;
mod tags;
mod texts;
mod threads;

pub use builder::{MessageBuilder, PairName};
pub use copy::copied;
pub use draft::Draft;
pub use front::{has_at, is_digit, priority};
pub use length::less_entry;
pub use macros::is_hard;
pub use message::Message;
pub use offer::Offer;
pub use refusal::MsgRefusal;
pub use same::is_same;
pub use sets::{is_escaped, is_print, is_sd_byte};
