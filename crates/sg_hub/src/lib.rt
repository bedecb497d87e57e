//! The flow core in a ticket lock: any number of threads make its calls, each at a seat of its own, and
//! together they are one history, as that of one thread.
#![tactic(auto)]

mod hub;
mod laws;
mod office;
mod passed;
mod seat;
mod threads;

pub use hub::{Hub, Seat};
pub use laws::{histories_keep_setup, histories_stand, lies_standing, receipts_stand, seats_go_on};
pub use office::CoreOffice;
pub use passed::{Offered, SeatCounts};
pub use seat::HubSeat;
