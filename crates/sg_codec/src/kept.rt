// An entry of a disk-buffer.

use sg_msg::Message;
use sg_time::Stamp;

/// An entry of a disk-buffer: a message, and where it comes from.
#[derive(Drop)]
pub struct Kept {
    /// The number of the inlet that its record came by.
    pub source: u32,
    /// The place behind its record at that inlet, below 2^63.
    pub end: u64,
    /// Flow-controlled: the source waits for it.
    pub flow: bool,
    pub message: Message,
}

/// What both formats begin with.
#[derive(Clone, Copy, Drop)]
pub(crate) struct KeptPrefix {
    pub(crate) flow: bool,
    pub(crate) source: u32,
    pub(crate) end: u64,
    pub(crate) pri: u8,
    pub(crate) sent: Stamp,
}
