// A message for a destination.

use crate::Message;

/// A message that a path gives to a destination.
#[derive(Drop)]
pub struct Offer {
    /// The destination's number.
    pub dest: u32,
    pub message: Message,
    /// Flow-controlled: the offer is never dropped, and the source waits for it.
    pub flow: bool,
}
