//! A ticket lock that tells its history: whatever threads call the object in it, and in whatever
//! order, their calls and replies are those of one thread that made them one after the other.
//!
//! The lock is the booth, the object in it an office, a handle to it a desk.
#![tactic(auto)]

mod booth;
mod desk;
mod laws;
mod office;
mod plays;
mod steps;
mod table;

pub use booth::Booth;
pub use desk::Desk;
pub use laws::{calls_stay, lies_as_given, receipts_stand};
pub use office::{Office, OfficeExchange};
