// What a list of elements leaves of a message.
ghost use Rattle.std.specs.Prelude.{◌≡◌, ◌||◌, ◌++◌, [], true, false, OnOk};
ghost use Rattle.sg_pipes.specs.Messages.{messages_of};

use crate::messages::{Messages, joined};
use std::alloc::{AllocError, Global};

/// The messages that came out, and whether the one that went in was processed.
#[derive(Drop)]
pub(crate) struct Gone {
    pub(crate) out: Messages,
    pub(crate) processed: bool,
}

impl Gone {
    /// Nothing came out.
    pub(crate) fn nothing() -> Gone
        ensures { (messages_of result.out ≡ []) × (result.processed ≡ false) }
    {
        Gone {
            out: Messages::Empty,
            processed: false,
        }
    }

    /// Whether what a sibling leaves is all, once it joins this: nothing was left before, and the
    /// sibling doesn't carry `drop-unmatched`.
    pub(crate) fn adds_nothing(&self, drop_unmatched: bool) -> bool
        ensures { result ≡ true → (messages_of self.now.out ≡ [])
            × (self.now.processed ≡ false) × (drop_unmatched ≡ false) }
    {
        if self.processed | drop_unmatched {
            return false;
        }
        match &self.out {
            Messages::Empty => true,
            _ => false,
        }
    }

    /// What the other left too.
    pub(crate) fn join(&mut self, alloc: Global, other: Gone) -> Result<(), AllocError>
        ensures { OnOk result (
            (messages_of self.new.out ≡ messages_of self.old.out ++ messages_of other.out)
            × (self.new.processed ≡ (self.old.processed || other.processed))) }
    {
        let first = std::mem::replace(&mut self.out, Messages::Empty);
        self.out = joined(alloc, first, other.out)?;
        self.processed |= other.processed;
        Ok(())
    }
}
