// What waits while a record's message is on its way.

use crate::gone::Gone;
use crate::messages::Messages;
use sg_msg::Message;

/// The siblings that are tried: the statements that are offered the message, or those of a pipe.
#[derive(Clone, Copy)]
pub(crate) enum SiblingList {
    Offered,
    At(u32),
}

#[derive(Drop)]
pub(crate) struct SiblingTrial {
    pub(crate) group: SiblingList,
    /// The sibling that is next.
    pub(crate) index: usize,
    /// Whether those with `fallback` are tried, in the second round.
    pub(crate) late: bool,
    pub(crate) message: Message,
    pub(crate) flow: bool,
    /// What the siblings so far left.
    pub(crate) left: Gone,
}

/// A list of elements that waits for the messages before it.
#[derive(Drop)]
pub(crate) struct WaitingElements {
    pub(crate) next: u32,
    pub(crate) flow: bool,
    /// Whether what stands before the elements processed the message.
    pub(crate) counts: bool,
    /// The messages that haven't gone on yet, the first last.
    pub(crate) waiting: Messages,
    /// What the elements left so far.
    pub(crate) left: Gone,
}

#[derive(Drop)]
pub(crate) enum WalkFrame {
    /// Walks the pipes from there on.
    Walk {
        at: u32,
        message: Message,
        flow: bool,
    },
    /// Tries the next sibling.
    Try(SiblingTrial),
    /// Takes what a sibling left.
    Tried {
        trial: SiblingTrial,
        is_final: bool,
        drop_unmatched: bool,
    },
    /// Takes what the last sibling left, behind which no other is tried.
    Last {
        left: Gone,
        drop_unmatched: bool,
    },
    /// Takes what came out, for the elements behind it.
    Rest {
        next: u32,
        flow: bool,
    },
    /// Takes what the elements left of one message.
    Each(WaitingElements),
    /// The message that stood before embedded statements comes out.
    Out(Message),
}

/// What became of a message at a pipe.
#[derive(Clone, Copy)]
pub(crate) enum Passed {
    /// It goes on at that place.
    On(u32),
    Stopped,
    /// The pipe is no filter, no rewrite, no parser and no delivery.
    Arrived,
}
