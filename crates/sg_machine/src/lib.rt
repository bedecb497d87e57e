//! The machine: the events of the message path, which of them are legal, and what they come to.
#![tactic(auto)]

mod admits;
mod event;
mod laws;
mod legal;
mod moves;
mod replays;
mod running;
mod setup;
mod sources;
mod state;
mod steps;
mod tally;
mod threads;
mod verdicts;

pub use event::{Act, Admission, Event, Verdict};
pub use laws::{
    appends_hold, counts_hold, flow_holds, marks_hold, order_holds, safety_holds, windows_hold,
};
pub use replays::replay;
pub use setup::{BufferSetup, DestSetup, Setup, SourceSetup};
pub use state::{Dest, DestEntry, InletRecords, Origin, State};
pub use tally::{DestTally, SourceTally, Tally};
