//! Hints for the operator beside the fault of a configuration: the line of its file, its token, and what may have been
//! meant.
#![tactic(auto)]

mod context;
mod fitting;
mod line;
mod listed;
mod names;
mod nearest;
mod shown;
mod spot;
mod stopped;
mod telling;
mod words;
mod written;

pub use line::line_of;
pub use listed::{Numbered, fault_again, number_tokens};
pub use nearest::{Near, meant, nearer};
pub use shown::append_shown;
pub use spot::{expand_again, read};
pub use telling::{hint, tell_hint};
pub use written::{
    Spotted, append_caret, append_line, append_number, hidden_before, name_at, write_hint,
};
