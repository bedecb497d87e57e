//! The flow core: it takes records in, keeps their messages for the destinations, in memory and in
//! disk-buffers, and moves the stored positions. Each call is one event of the machine.
#![tactic(auto)]

mod admits;
mod appends;
mod counter;
mod flow;
mod fronts;
mod laws;
mod opening;
mod parts;
mod positions;
mod refills;
mod settles;
mod tallies;

pub use counter::calls_are_events;
pub use flow::Core;
pub use laws::{replies_tell_faults, stores_fail_by_faults};
pub use sg_counter::{CoreCall, CoreFront, CoreReply, Counter, Refill, Refused, Settled, Stored};
pub use sg_standing::{
    images_are_safe, images_between_are_safe, images_open_again, images_within_are_safe,
    more_stands,
};
pub use sg_stores::CoreRefusal;
