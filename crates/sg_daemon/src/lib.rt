//! The top call: checks configurations, moves messages as they say, and lists the entries of a disk-buffer's store.
#![tactic(auto)]

mod check;
mod checked;
mod drill;
mod drilled;
mod held;
mod laws;
mod run;
mod say;
mod spooled;
mod status;
mod top;
mod trace;
mod unchecked;

pub use checked::check_file;
pub use held::{MostHeld, held_by, held_hint};
pub use laws::first_words_tell;
pub use status::Status;
pub use top::{daemon, offline};
pub use unchecked::Unchecked;
