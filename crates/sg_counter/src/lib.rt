//! The calls of the flow core and its answers, and the traits through which they are lent.
#![tactic(auto)]

mod answers;
mod calls;
mod counter;
mod threads;

pub use answers::{CoreFront, Refill, Refused, Settled, Stored};
pub use calls::{CoreCall, CoreReply};
pub use counter::{Counter, Settler};
