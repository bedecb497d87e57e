// A message that waits.

use sg_msg::Message;

/// A message that waits for its destination.
#[derive(Drop)]
pub struct Entry {
    /// Its place among all entries that its destination was given, from 0.
    pub place: u64,
    /// The inlet of the record that it comes from.
    pub inlet: u32,
    /// The number of that record at its inlet, from 0.
    pub number: u64,
    /// Flow-controlled: never dropped.
    pub flow: bool,
    pub message: Message,
}
