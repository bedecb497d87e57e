//! Rewrites: the changes of messages on their way, as `set()`, `subst()` and their kin ask for them.
#![tactic(auto)]

mod anew;
mod change;
mod groups;
mod op;
mod render;
mod replacing;
mod rewrite;
mod single;
mod text;
mod threads;

pub use op::Op;
pub use rewrite::Rewrite;
