// Messages made of many pairs at once.
ghost use Rattle.std.specs.Prelude.{◌≡◌, ◌≤◌, ◌++◌, [], ◌∷◌, length, IfOk, OnOk, OnErr, option_copied, slice_get, slice_range};
ghost use Rattle.sg_msg.specs.Message.{with_tag};
ghost use Rattle.sg_time.specs.Stamp.{IsValidStamp};
ghost use Rattle.sg_msg.specs.Build.{name_of, MayName, some_pair, built};
ghost use Rattle.sg_msg.specs.Parts.{KeepsName};

use crate::Message;
use crate::base::{Base, Pairs};
use crate::pair::{Name, Pair, Text};
use crate::sorting::in_order;
use crate::tags::Tags;
use crate::texts::{Texts, keep, keep_name, keep_part};
use bytes::Bytes;
use sg_time::Stamp;
use std::alloc::{AllocError, Global};
use std::marker::Model;

/// What a pair is called. The names that most records have take no memory.
#[derive(Drop)]
pub enum PairName {
    /// `HOST`
    Host,
    /// `PROGRAM`
    Program,
    /// `PID`
    Pid,
    /// `MSGID`
    MessageId,
    /// `MESSAGE`
    Message,
    /// Another name, of 1 to 255 bytes, which is no macro's (`is_hard`).
    Other(Bytes),
}

// Keeps what a pair is called.
fn keep_pair_name(own: &mut Vec<Bytes>, name: PairName) -> Result<Name, AllocError>
    ensures ok { IfOk result
        (λ kept. KeepsName own.old.items own.new.items kept (name_of name)) }
    ensures err { OnErr result (own.new.items ≡ own.old.items) }
{
    match name {
        PairName::Host => Ok(Name::Host),
        PairName::Program => Ok(Name::Program),
        PairName::Pid => Ok(Name::Pid),
        PairName::MessageId => Ok(Name::MessageId),
        PairName::Message => Ok(Name::Message),
        PairName::Other(name) => keep_name(own, name),
    }
}

/// A message that is being made. It says what the same `set_bytes` in the same order would make it
/// say, in time in proportion to the number of its pairs times its logarithm.
#[derive(Drop)]
pub struct MessageBuilder {
    alloc: Global,
    pri: u8,
    sent: Stamp,
    received: Stamp,
    texts: Texts,
    pairs: Vec<Pair>,
    tags: Tags,
}

impl Model for MessageBuilder {
    ghost use Rattle.std.specs.Prelude.{◌≤◌};
    ghost use Rattle.sg_time.specs.Stamp.{IsValidStamp};
    ghost use Rattle.sg_msg.specs.Message.{HaveNames, AreDistinct};
    ghost use Rattle.sg_msg.specs.Build.{Build};
    ghost use Rattle.sg_msg.specs.Parts.{pairs_of, AreInTexts};

    ghost Value = { Build };

    ghost view = { λ b. record {
      pri = b.pri;
      sent = b.sent;
      received = b.received;
      item = b.texts.item;
      put = pairs_of b.texts b.pairs.items;
      tags = b.tags;
    } };

    ghost invariant = { λ b. (b.pri ≤ 191) × IsValidStamp b.sent × IsValidStamp b.received
        × HaveNames (pairs_of b.texts b.pairs.items) × AreDistinct b.tags
        × AreInTexts b.texts b.pairs.items };
}

impl MessageBuilder {
    /// The builder of a message without pairs and tags. It takes no memory.
    pub fn new(alloc: Global, pri: u8, sent: Stamp, received: Stamp) -> MessageBuilder
        requires pri { pri ≤ 191 }
        requires sent { IsValidStamp sent }
        requires received { IsValidStamp received }
        ensures { result ≡ record {
          pri = pri;
          sent = sent;
          received = received;
          item = [];
          put = [];
          tags = [];
        } }
    {
        MessageBuilder::of_record(alloc, pri, sent, received, Bytes::new())
    }

    /// The same, for a message whose values may be parts of this record.
    pub fn of_record(
        alloc: Global,
        pri: u8,
        sent: Stamp,
        received: Stamp,
        item: Bytes,
    ) -> MessageBuilder
        requires pri { pri ≤ 191 }
        requires sent { IsValidStamp sent }
        requires received { IsValidStamp received }
        ensures { result ≡ record {
          pri = pri;
          sent = sent;
          received = received;
          item = item;
          put = [];
          tags = [];
        } }
    {
        MessageBuilder {
            alloc,
            pri,
            sent,
            received,
            texts: Texts {
                item,
                own: Vec::new(alloc),
            },
            pairs: Vec::new(alloc),
            tags: Tags::new(alloc),
        }
    }

    /// The record of which values may be parts.
    pub fn item(&self) -> &[u8]
        ensures { result.now ≡ self.now.item }
    {
        self.texts.item.as_slice()
    }

    /// Makes room for so many pairs more. On an error the builder is as it was.
    pub fn reserve(&mut self, pairs: usize) -> Result<(), AllocError>
        ensures { self.new ≡ self.old }
    {
        self.pairs.reserve_exact(pairs)
    }

    /// Gives the name this value, in place of the one that it was given before. The value's memory is
    /// shared. On an error the builder is as it was.
    pub fn put(&mut self, name: PairName, value: Bytes) -> Result<(), AllocError>
        requires { MayName name }
        ensures ok { OnOk result (self.new ≡ record self.old {
          put = self.old.put ++ (record { name = name_of name; value = value }) ∷ [];
        }) }
        ensures err { OnErr result (self.new ≡ self.old) }
    {
        let name = keep_pair_name(&mut self.texts.own, name)?;
        let value = Text::Own(keep(&mut self.texts.own, value)?);
        self.pairs.push(Pair { name, value })?;
        Ok(())
    }

    /// As `put`, with the part of the record between two places. It takes no memory but the pair's.
    pub fn put_part(&mut self, name: PairName, from: usize, to: usize) -> Result<(), AllocError>
        requires name { MayName name }
        requires part { (from ≤ to) × (to ≤ length self.old.item) }
        ensures ok { OnOk result (self.new ≡ record self.old {
          put = self.old.put
              ++ (record { name = name_of name; value = slice_range self.old.item from to }) ∷ [];
        }) }
        ensures err { OnErr result (self.new ≡ self.old) }
    {
        let name = keep_pair_name(&mut self.texts.own, name)?;
        let value = keep_part(&mut self.texts.own, &self.texts.item, from, to)?;
        self.pairs.push(Pair { name, value })?;
        Ok(())
    }

    /// As `put`, where there is a value.
    pub fn put_some(&mut self, name: PairName, value: Option<Bytes>) -> Result<(), AllocError>
        requires { MayName name }
        ensures ok { OnOk result (self.new ≡ record self.old {
          put = self.old.put ++ some_pair (name_of name) value;
        }) }
        ensures err { OnErr result (self.new ≡ self.old) }
    {
        match value {
            Some(value) => self.put(name, value),
            None => Ok(()),
        }
    }

    /// Adds the tag at the end, where it isn't set. On an error the builder is as it was.
    pub fn set_tag(&mut self, tag: &[u8]) -> Result<(), AllocError>
        ensures ok { OnOk result (self.new
            ≡ record self.old { tags = with_tag tag.now self.old.tags }) }
        ensures err { OnErr result (self.new ≡ self.old) }
    {
        self.tags.set(tag)?;
        Ok(())
    }

    /// The tag at this place of the tags, which stand in the order set. None from the end on.
    pub fn tag(&self, place: usize) -> Option<&[u8]>
        ensures { option_copied result ≡ slice_get self.now.tags place }
    {
        self.tags.get(place)
    }

    /// The message.
    pub fn message(self) -> Result<Message, AllocError>
        ensures { IfOk result (λ message. message ≡ built self) }
    {
        let MessageBuilder {
            alloc,
            pri,
            sent,
            received,
            texts,
            pairs,
            tags,
        } = self;
        let ordered = in_order(alloc, &texts, pairs)?;
        let shared = Pairs::of(alloc, Base::new(texts, ordered))?;
        Ok(Message::of(pri, sent, received, shared, tags))
    }
}
