// The calls of a core and their replies, as values.

use crate::answers::{CoreFront, Refill, Refused, Settled, Stored};
use sg_device::NoMemory;
use sg_list::Seq;
use sg_machine::{Admission, Verdict};

/// A call of a core. Sources and destinations go by their numbers.
#[derive(Drop)]
pub enum CoreCall {
    Credit(u32),
    Admit {
        inlet: u32,
        records: Seq<Admission>,
    },
    Front {
        dest: u32,
        /// How many entries are wanted at most.
        most: u32,
    },
    Settle {
        dest: u32,
        /// The first entry's place among all that the destination was given, from 0.
        place: u64,
        n: u32,
        /// How many frames the destination's outlet had taken in all.
        count: u64,
    },
    Refill(u32),
    Store(u32),
}

/// What a core replies to the call of that name.
#[derive(Drop)]
pub enum CoreReply {
    Credit(u64),
    Admitted(Result<Seq<Verdict>, Refused>),
    Front(Result<CoreFront, NoMemory>),
    Settled(Settled),
    Refilled(Refill),
    Stored(Stored),
}
