//! Destinations of the flow core: what each keeps of its entries in memory, and which offers it keeps.
//! Nothing here touches a disk.
#![tactic(auto)]

mod block;
mod laws;
mod offers;
mod room;
mod runs;
mod settling;
mod sink;
mod trial;

pub use block::offer_block;
pub use laws::{moves_hold, offers_hold, settles_hold, trials_hold, verdicts_hold};
pub use sink::Sink;
pub use trial::Trial;
