// Parsers of key=value pairs.
ghost use Rattle.std.specs.Prelude.{◌≡◌, IfOk, OnOk, OnErr};
ghost use Rattle.sg_parsers.specs.Pairs.{kv_parsed};

use crate::pairs::push_pairs;
use crate::set::set_all;
use bytes::Bytes;
use sg_device::{Name, NoMemory};
use sg_list::Seq;
use sg_msg::Message;
use std::alloc::Global;

/// What `kv-parser()` does: it gives each key its value.
pub struct Kv {
    /// What stands before each key in the name of its pair.
    pub prefix: Name,
    /// A value without quotes ends before it.
    pub pair_separator: Name,
    /// The byte between a key and its value.
    pub value_separator: u8,
}

impl Drop for Kv {
    fn drop(self) {
        let Kv {
            prefix: _prefix,
            pair_separator: _pair_separator,
            value_separator: _value_separator,
        } = self;
    }
}

impl Kv {
    /// Sets the pairs of the text in their order, but for those whose name, with the prefix, is a macro's
    /// or has more than 255 bytes. Values without a backslash share the text's memory. Lack of memory
    /// changes nothing. Other handles of the message say what they said before.
    pub fn apply(&self, alloc: Global, text: &Bytes, message: &mut Message) -> Result<(), NoMemory>
        ensures ok { OnOk result (message.new ≡ kv_parsed self.now text.now message.old) }
        ensures err { OnErr result (message.new ≡ message.old) }
    {
        let mut pairs = Seq::empty(alloc);
        push_pairs(alloc, self, text.clone()?, &mut pairs)?;
        set_all(alloc, pairs.as_slice(), message)?;
        Ok(())
    }

    /// An equal one.
    pub fn copy(&self) -> Result<Kv, NoMemory>
        ensures { IfOk result (λ kv. kv ≡ self.now) }
    {
        Ok(Kv {
            prefix: self.prefix.copy()?,
            pair_separator: self.pair_separator.copy()?,
            value_separator: self.value_separator,
        })
    }
}
