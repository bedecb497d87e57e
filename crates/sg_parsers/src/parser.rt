// Parsers of each kind.
ghost use Rattle.std.specs.Prelude.{◌≡◌, IfOk, OnOk, OnErr};
ghost use Rattle.sg_parsers.specs.Parsed.{takes, parsed};

use crate::{Csv, Kv};
use bytes::Bytes;
use sg_device::NoMemory;
use sg_msg::Message;
use std::alloc::Global;

/// A parser as a configuration writes it, without its template.
pub enum MessageParser {
    /// `csv-parser()`
    Csv(Csv),
    /// `kv-parser()`
    Kv(Kv),
}

impl Drop for MessageParser {
    fn drop(self) {
        match self {
            MessageParser::Csv(_0) => {}
            MessageParser::Kv(_0) => {}
        }
    }
}

impl MessageParser {
    /// Sets what the parser reads in the text, and says whether it doesn't refuse it. A text that is
    /// refused changes nothing, and lack of memory neither.
    pub fn apply(
        &self,
        alloc: Global,
        text: &Bytes,
        message: &mut Message,
    ) -> Result<bool, NoMemory>
        ensures taken { IfOk result (λ taken. taken ≡ takes self.now text.now) }
        ensures ok { OnOk result (message.new ≡ parsed self.now text.now message.old) }
        ensures err { OnErr result (message.new ≡ message.old) }
    {
        match self {
            MessageParser::Csv(csv) => csv.apply(alloc, text, message),
            MessageParser::Kv(kv) => {
                kv.apply(alloc, text, message)?;
                Ok(true)
            }
        }
    }

    /// An equal one.
    pub fn share(&self, alloc: Global) -> Result<MessageParser, NoMemory>
        ensures { IfOk result (λ parser. parser ≡ self.now) }
    {
        match self {
            MessageParser::Csv(csv) => Ok(MessageParser::Csv(csv.share(alloc)?)),
            MessageParser::Kv(kv) => Ok(MessageParser::Kv(kv.copy()?)),
        }
    }
}
