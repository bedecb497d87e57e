// What a list of elements leaves of a message.
ghost use Rattle.std.specs.Prelude.{◌≡◌, ◌||◌, ◌++◌, OnOk};

use sg_msg::Message;
use std::alloc::AllocError;

/// The messages that came out, and whether the one that went in was processed.
#[derive(Drop)]
pub(crate) struct RoutedMessages {
    pub(crate) out: Vec<Message>,
    pub(crate) processed: bool,
}

impl RoutedMessages {
    /// What the other left too.
    pub(crate) fn join(&mut self, other: RoutedMessages) -> Result<(), AllocError>
        ensures { OnOk result ((self.new.out.items ≡ self.old.out.items ++ other.out.items)
            × (self.new.processed ≡ (self.old.processed || other.processed))) }
    {
        let mut other = other;
        self.out.append(&mut other.out)?;
        self.processed = self.processed || other.processed;
        Ok(())
    }
}
