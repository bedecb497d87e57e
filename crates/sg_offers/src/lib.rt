//! The offers of a batch of records at the destinations of the flow core: memory, the payloads for
//! their disk-buffers, and what becomes of each. Nothing here touches a disk.
#![tactic(auto)]

mod answering;
mod batch;
mod laws;
mod payloads;
mod room;
mod threads;

pub use answering::offer_all;
pub use batch::{Batch, BatchVerdicts, Payload, prepare};
pub use laws::{begun_hold, judged_hold, tried_hold};
