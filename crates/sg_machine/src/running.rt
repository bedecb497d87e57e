// What a replay keeps: entries and records in the order that they came in, and counts.

use crate::{DestSetup, SourceSetup};
use sg_list::Seq;
use sg_msg::Message;
use sg_window::BegunRecord;

// An entry of a destination, but for its end and whether it is spooled.
#[derive(Drop)]
pub struct Slip {
    pub inlet: u32,
    /// The record's number at its inlet, counted from 0.
    pub number: Option<u64>,
    pub flow: bool,
    pub message: Message,
}

// An inlet: its stored position, its records, each with the acknowledgements that it still needs, how
// many of the first are acknowledged, and the mark.
#[derive(Drop)]
pub struct SourceRun {
    pub setup: SourceSetup,
    /// A byte offset in what the inlet gives.
    pub stored: u64,
    pub records: Seq<BegunRecord>,
    pub acked: usize,
    /// A byte offset in what the inlet gives.
    pub mark: u64,
}

// A destination: all entries kept, of which those below `taken` are settled, and the others below
// `moved` are spooled; of those left how many are without flow-control, and how many bytes of the
// disk-buffer the spooled ones take.
#[derive(Drop)]
pub struct DestRun {
    pub setup: DestSetup,
    pub kept: Seq<Slip>,
    /// An index in `kept`.
    pub taken: usize,
    /// An index in `kept`.
    pub moved: usize,
    pub unflowed: usize,
    /// Bytes.
    pub used: u64,
    pub dropped_full: u64,
    pub dropped_disk: u64,
}

// The inlets, the destinations, and the stores that have failed, in the order of failing.
#[derive(Drop)]
pub struct Run {
    pub sources: Seq<SourceRun>,
    pub dests: Seq<DestRun>,
    pub failed: Seq<u32>,
}
