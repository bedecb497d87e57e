// A handle to a message.
ghost use Rattle.std.specs.Prelude.{◌≡◌, ◌≤◌, ◌↔◌, true, [], IfOk, OnOk, OnErr, length, option_copied, option_map, slice_get};
ghost use Rattle.sg_time.specs.Stamp.{IsValidStamp};
ghost use Rattle.sg_msg.specs.Macros.{is_hard};
ghost use Rattle.sg_msg.specs.Message.{IsAscending, IsPairName, HaveNames, AreDistinct, IsMessage, KeepsOthers, value_of, with_pair, without_pair, with_tag, without_tag};

use crate::base::Pairs;
use crate::tags::Tags;
use crate::{Draft, MsgRefusal, is_hard};
use bytes::Bytes;
use sg_time::Stamp;
use std::alloc::{AllocError, Global};
use std::marker::Model;

/// A handle to what a record says.
///
/// Handles share their pairs and their tags. A change is that handle's own: every other handle says
/// what it said before.
pub struct Message {
    pri: u8,
    sent: Stamp,
    received: Stamp,
    pairs: Pairs,
    tags: Tags,
}

impl Drop for Message {
    fn drop(self) {
        let Message {
            pri: _pri,
            sent: _sent,
            received: _received,
            pairs: _pairs,
            tags: _tags,
        } = self;
    }
}

impl Model for Message {
    ghost use Rattle.sg_msg.specs.Message.{Content, IsMessage};

    ghost Value = { Content };

    ghost view = { λ m. record {
      pri = m.pri;
      sent = m.sent;
      received = m.received;
      pairs = m.pairs;
      tags = m.tags;
    } };

    ghost invariant = { λ m. IsMessage (record {
      pri = m.pri;
      sent = m.sent;
      received = m.received;
      pairs = m.pairs;
      tags = m.tags;
    }) };
}

impl Message {
    /// A message without pairs and tags. `MessageBuilder` makes one of many pairs.
    pub fn new(alloc: Global, pri: u8, sent: Stamp, received: Stamp) -> Result<Message, AllocError>
        requires pri { pri ≤ 191 }
        requires sent { IsValidStamp sent }
        requires received { IsValidStamp received }
        ensures { IfOk result (λ message. message ≡ record {
          pri = pri;
          sent = sent;
          received = received;
          pairs = [];
          tags = [];
        }) }
    {
        Ok(Message {
            pri,
            sent,
            received,
            pairs: Pairs::new(alloc)?,
            tags: Tags::new(alloc),
        })
    }

    pub(crate) fn of(pri: u8, sent: Stamp, received: Stamp, pairs: Pairs, tags: Tags) -> Message
        requires pri { pri ≤ 191 }
        requires sent { IsValidStamp sent }
        requires received { IsValidStamp received }
        requires ascending { IsAscending pairs }
        requires names { HaveNames pairs }
        requires tags { AreDistinct tags }
        ensures { result ≡ record {
          pri = pri;
          sent = sent;
          received = received;
          pairs = pairs;
          tags = tags;
        } }
    {
        Message {
            pri,
            sent,
            received,
            pairs,
            tags,
        }
    }

    /// Another handle, which says the same. No byte is copied, and no list.
    pub fn share(&self) -> Result<Message, AllocError>
        ensures { IfOk result (λ message. message ≡ self.now) }
    {
        Ok(Message {
            pri: self.pri,
            sent: self.sent,
            received: self.received,
            pairs: self.pairs.share()?,
            tags: self.tags.share()?,
        })
    }

    /// Another handle, which says the same, and has a list of pairs of its own, with room for so many
    /// more. No byte is copied.
    pub fn with_room(&self, more: usize) -> Result<Message, AllocError>
        ensures { IfOk result (λ message. message ≡ self.now) }
    {
        Ok(Message {
            pri: self.pri,
            sent: self.sent,
            received: self.received,
            pairs: self.pairs.with_room(more)?,
            tags: self.tags.share()?,
        })
    }

    /// The same, to be changed: with room for so many pairs more, and a text of which their values may be
    /// parts. No byte is copied.
    pub fn draft(&self, more: usize, text: Bytes) -> Result<Draft, AllocError>
        ensures { IfOk result (λ draft. draft ≡ record { message = self.now; text = text }) }
    {
        Draft::new(
            self.pairs.alloc(),
            self.pri,
            self.sent,
            self.received,
            self.pairs.parts(more.saturating_add(1))?,
            self.tags.share()?,
            text,
        )
    }

    /// The facility times 8, plus the severity (RFC 5424, 6.2.1): 0 to 191.
    pub fn pri(&self) -> u8
        ensures value { result ≡ self.now.pri }
        ensures whole { IsMessage self.now }
    {
        self.pri
    }

    /// The message's own stamp.
    pub fn sent(&self) -> Stamp
        ensures { result ≡ self.now.sent }
    {
        self.sent
    }

    /// The stamp of its arrival.
    pub fn received(&self) -> Stamp
        ensures { result ≡ self.now.received }
    {
        self.received
    }

    /// The value of this name.
    pub fn get(&self, name: &[u8]) -> Option<&[u8]>
        ensures { option_copied result ≡ value_of name.now self.now.pairs }
    {
        self.pairs.get(name)
    }

    /// The number of pairs.
    pub fn pair_count(&self) -> usize
        ensures { result ≡ length self.now.pairs }
    {
        self.pairs.len()
    }

    /// The name and the value at this place of the pairs, which stand in ascending byte order of
    /// their names. None from the end on.
    pub fn pair(&self, place: usize) -> Option<(&[u8], &[u8])>
        ensures { option_map (λ pair. record { name = pair.0.now; value = pair.1.now }) result
            ≡ slice_get self.now.pairs place }
    {
        self.pairs.pair(place)
    }

    /// The tag at this place of the tags, which stand in the order set. None from the end on.
    pub fn tag(&self, place: usize) -> Option<&[u8]>
        ensures { option_copied result ≡ slice_get self.now.tags place }
    {
        self.tags.get(place)
    }

    /// Gives the name this value, in place of the one that it had. A refusal leaves the message as
    /// it was.
    pub fn set(&mut self, name: &[u8], value: &[u8]) -> Result<(), MsgRefusal>
        requires { (1 ≤ length name.now) × (length name.now ≤ 255) }
        ensures ok { OnOk result (self.new
            ≡ record self.old { pairs = with_pair name.now value.now self.old.pairs }) }
        ensures value { OnOk result (value_of name.now self.new.pairs ≡ Some value.now) }
        ensures others { OnOk result (KeepsOthers name.now self.old.pairs self.new.pairs) }
        ensures hard { (result ≡ Err MsgRefusal.HardMacro) ↔ (is_hard name.now ≡ true) }
        ensures err { OnErr result (self.new ≡ self.old) }
    {
        if is_hard(name) {
            return Err(MsgRefusal::HardMacro);
        }
        let value = Bytes::copy_from_slice(self.pairs.alloc(), value)?;
        self.pairs.set(name, value)?;
        Ok(())
    }

    /// As `set`, with a value whose memory is shared, as a slice of the record is.
    pub fn set_bytes(&mut self, name: &[u8], value: Bytes) -> Result<(), MsgRefusal>
        requires { (1 ≤ length name.now) × (length name.now ≤ 255) }
        ensures ok { OnOk result (self.new
            ≡ record self.old { pairs = with_pair name.now value self.old.pairs }) }
        ensures value { OnOk result (value_of name.now self.new.pairs ≡ Some value) }
        ensures others { OnOk result (KeepsOthers name.now self.old.pairs self.new.pairs) }
        ensures hard { (result ≡ Err MsgRefusal.HardMacro) ↔ (is_hard name.now ≡ true) }
        ensures err { OnErr result (self.new ≡ self.old) }
    {
        if is_hard(name) {
            return Err(MsgRefusal::HardMacro);
        }
        self.pairs.set(name, value)?;
        Ok(())
    }

    /// As `set_bytes`, with a name that is known to be no macro's, and whose memory is shared too. On an
    /// error the message is as it was.
    pub fn put(&mut self, name: &Bytes, value: Bytes) -> Result<(), AllocError>
        requires { IsPairName name.now }
        ensures ok { OnOk result (self.new
            ≡ record self.old { pairs = with_pair name.now value self.old.pairs }) }
        ensures value { OnOk result (value_of name.now self.new.pairs ≡ Some value) }
        ensures others { OnOk result (KeepsOthers name.now self.old.pairs self.new.pairs) }
        ensures err { OnErr result (self.new ≡ self.old) }
    {
        self.pairs.put(name, value)?;
        Ok(())
    }

    /// Takes the pair of this name out, where there is one. A refusal leaves the message as it was.
    pub fn unset(&mut self, name: &[u8]) -> Result<(), MsgRefusal>
        requires { (1 ≤ length name.now) × (length name.now ≤ 255) }
        ensures ok { OnOk result (self.new
            ≡ record self.old { pairs = without_pair name.now self.old.pairs }) }
        ensures value { OnOk result (value_of name.now self.new.pairs ≡ None) }
        ensures others { OnOk result (KeepsOthers name.now self.old.pairs self.new.pairs) }
        ensures hard { (result ≡ Err MsgRefusal.HardMacro) ↔ (is_hard name.now ≡ true) }
        ensures err { OnErr result (self.new ≡ self.old) }
    {
        if is_hard(name) {
            return Err(MsgRefusal::HardMacro);
        }
        self.remove(name)?;
        Ok(())
    }

    /// As `unset`, of a name that is known to be no macro's. On an error the message is as it was.
    pub fn remove(&mut self, name: &[u8]) -> Result<(), AllocError>
        requires { IsPairName name.now }
        ensures ok { OnOk result (self.new
            ≡ record self.old { pairs = without_pair name.now self.old.pairs }) }
        ensures value { OnOk result (value_of name.now self.new.pairs ≡ None) }
        ensures others { OnOk result (KeepsOthers name.now self.old.pairs self.new.pairs) }
        ensures err { OnErr result (self.new ≡ self.old) }
    {
        self.pairs.unset(name)?;
        Ok(())
    }

    /// Adds the tag at the end, where it isn't set. On an error the message is as it was.
    pub fn set_tag(&mut self, tag: &[u8]) -> Result<(), AllocError>
        ensures ok { OnOk result (self.new
            ≡ record self.old { tags = with_tag tag.now self.old.tags }) }
        ensures err { OnErr result (self.new ≡ self.old) }
    {
        self.tags.set(tag)?;
        Ok(())
    }

    /// Takes the tag out, where it is set. On an error the message is as it was.
    pub fn clear_tag(&mut self, tag: &[u8]) -> Result<(), AllocError>
        ensures ok { OnOk result (self.new
            ≡ record self.old { tags = without_tag tag.now self.old.tags }) }
        ensures err { OnErr result (self.new ≡ self.old) }
    {
        self.tags.clear(tag)?;
        Ok(())
    }
}
