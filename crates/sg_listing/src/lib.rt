//! The files of a configuration read again, for what is told of them: their expanded tokens, the statements, what stands around a token,
//! and how a note is written.
#![tactic(auto)]

mod context;
mod nesting;
mod reading;
mod rows;
mod statements;
mod writing;

pub use context::{caller_of, closes, opening_before, opens, token_at};
pub use nesting::{OpenBrackets, object_at};
pub use reading::{Listing, Location, read_listing};
pub use rows::{has_word, told_of};
pub use statements::{Span, is_same_name, name_of, spans};
pub use writing::{append_at, append_text};
