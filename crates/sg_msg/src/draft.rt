// Messages whose names get parts of one text.
ghost use Rattle.std.specs.Prelude.{◌≡◌, ◌≤◌, ◌<◌, length, set, insert, get_or, IfOk, OnOk, OnErr, slice_range};
ghost use Rattle.sg_time.specs.Stamp.{IsValidStamp};
ghost use Rattle.sg_msg.specs.Message.{with_pair, IsAscending, IsPairName, IsMessage};
ghost use Rattle.sg_msg.specs.Parts.{own_text, value_in, pairs_of, AreInTexts, IsTextIn, Extends, KeepsPart};

use crate::Message;
use crate::base::{Base, Pairs, place_behind};
use crate::pair::{Pair, Text};
use crate::tags::Tags;
use crate::texts::{Texts, keep, keep_name, keep_own_part};
use bytes::Bytes;
use sg_time::Stamp;
use std::alloc::{AllocError, Global};
use std::marker::Model;

/// A message that is being changed. Its names may get parts of one text, which is held once.
#[derive(Drop)]
pub struct Draft {
    alloc: Global,
    pri: u8,
    sent: Stamp,
    received: Stamp,
    texts: Texts,
    pairs: Vec<Pair>,
    tags: Tags,
    text: u32,
    // where the last pair was put
    last: usize,
}

impl Model for Draft {
    ghost use Rattle.std.specs.Prelude.{◌<◌, length};
    ghost use Rattle.sg_msg.specs.Message.{IsMessage};
    ghost use Rattle.sg_msg.specs.Drafts.{Drafted};
    ghost use Rattle.sg_msg.specs.Parts.{own_text, pairs_of, AreInTexts};

    ghost Value = { Drafted };

    ghost view = { λ d. record {
      message = record {
        pri = d.pri;
        sent = d.sent;
        received = d.received;
        pairs = pairs_of d.texts d.pairs.items;
        tags = d.tags;
      };
      text = own_text d.texts.own.items d.text;
    } };

    ghost invariant = { λ d. IsMessage (record {
      pri = d.pri;
      sent = d.sent;
      received = d.received;
      pairs = pairs_of d.texts d.pairs.items;
      tags = d.tags;
    }) × AreInTexts d.texts d.pairs.items × (d.text < length d.texts.own.items) };
}

// Puts a pair at this place. Its value is one of the texts, or a part of one.
fn insert(
    texts: &mut Texts,
    pairs: &mut Vec<Pair>,
    place: usize,
    name: Bytes,
    value: Text,
) -> Result<usize, AllocError>
    requires within { AreInTexts texts.old pairs.old.items }
    requires value { IsTextIn texts.old.own.items value }
    requires place { place ≤ length pairs.old.items }
    ensures ok { OnOk result (pairs_of texts.new pairs.new.items
        ≡ insert (pairs_of texts.old pairs.old.items) place (record {
          name = name;
          value = value_in texts.old.item texts.old.own.items value;
        })) }
    ensures err { OnErr result (pairs_of texts.new pairs.new.items
        ≡ pairs_of texts.old pairs.old.items) }
    ensures within { AreInTexts texts.new pairs.new.items }
    ensures stays { Extends texts.old.own.items texts.new.own.items }
{
    let name = keep_name(&mut texts.own, name)?;
    pairs.insert(place, Pair { name, value })?;
    Ok(place)
}

// Gives the pair at this place the value.
fn replace(pairs: &mut Vec<Pair>, place: usize, value: Text)
    requires { place < length pairs.old.items }
    ensures { (d : Pair) → pairs.new.items ≡ set pairs.old.items place
        (record { name = (get_or pairs.old.items place d).name; value = value }) }
{
    let pair = pairs[place];
    pairs[place] = Pair {
        name: pair.name,
        value,
    };
}

// Gives the name the value, which is one of the texts or a part of one, and answers where the pair is.
fn set_pair(
    texts: &mut Texts,
    pairs: &mut Vec<Pair>,
    last: usize,
    name: &Bytes,
    value: Text,
) -> Result<usize, AllocError>
    requires ascending { IsAscending (pairs_of texts.old pairs.old.items) }
    requires within { AreInTexts texts.old pairs.old.items }
    requires value { IsTextIn texts.old.own.items value }
    ensures ok { OnOk result (pairs_of texts.new pairs.new.items
        ≡ with_pair name.now (value_in texts.old.item texts.old.own.items value)
        (pairs_of texts.old pairs.old.items)) }
    ensures err { OnErr result (pairs_of texts.new pairs.new.items
        ≡ pairs_of texts.old pairs.old.items) }
    ensures within { AreInTexts texts.new pairs.new.items }
    ensures stays { Extends texts.old.own.items texts.new.own.items }
{
    match place_behind(texts, pairs.as_slice(), last, name.as_slice()) {
        Ok(place) => {
            replace(pairs, place, value);
            Ok(place)
        }
        Err(place) => insert(texts, pairs, place, name.clone()?, value),
    }
}

impl Draft {
    pub(crate) fn new(
        alloc: Global,
        pri: u8,
        sent: Stamp,
        received: Stamp,
        parts: (Texts, Vec<Pair>),
        tags: Tags,
        text: Bytes,
    ) -> Result<Draft, AllocError>
        requires message { IsMessage (record {
          pri = pri;
          sent = sent;
          received = received;
          pairs = pairs_of parts.0 parts.1.items;
          tags = tags;
        }) }
        requires within { AreInTexts parts.0 parts.1.items }
        ensures { IfOk result (λ draft. draft ≡ record {
          message = record {
            pri = pri;
            sent = sent;
            received = received;
            pairs = pairs_of parts.0 parts.1.items;
            tags = tags;
          };
          text = text;
        }) }
    {
        let (mut texts, pairs) = parts;
        let text = keep(&mut texts.own, text)?;
        Ok(Draft {
            alloc,
            pri,
            sent,
            received,
            texts,
            pairs,
            tags,
            text,
            last: 0,
        })
    }

    /// Gives the name this value, in place of the one that it had. The memory of both is shared. On an
    /// error the draft is as it was.
    pub fn put(&mut self, name: &Bytes, value: Bytes) -> Result<(), AllocError>
        requires { IsPairName name.now }
        ensures ok { OnOk result (self.new ≡ record self.old {
          message = record self.old.message {
            pairs = with_pair name.now value self.old.message.pairs;
          };
        }) }
        ensures err { OnErr result (self.new ≡ self.old) }
    {
        let value = Text::Own(keep(&mut self.texts.own, value)?);
        let last = set_pair(&mut self.texts, &mut self.pairs, self.last, name, value)?;
        self.last = last;
        Ok(())
    }

    /// As `put`, with the part of the text between two places.
    pub fn put_part(&mut self, name: &Bytes, from: usize, to: usize) -> Result<(), AllocError>
        requires name { IsPairName name.now }
        requires part { (from ≤ to) × (to ≤ length self.old.text) }
        ensures ok { OnOk result (self.new ≡ record self.old {
          message = record self.old.message {
            pairs = with_pair name.now (slice_range self.old.text from to) self.old.message.pairs;
          };
        }) }
        ensures err { OnErr result (self.new ≡ self.old) }
    {
        let value = keep_own_part(&mut self.texts.own, self.text, from, to)?;
        let last = set_pair(&mut self.texts, &mut self.pairs, self.last, name, value)?;
        self.last = last;
        Ok(())
    }

    /// The message.
    pub fn message(self) -> Result<Message, AllocError>
        ensures { IfOk result (λ message. message ≡ self.message) }
    {
        let Draft {
            alloc,
            pri,
            sent,
            received,
            texts,
            pairs,
            tags,
            text: _text,
            last: _last,
        } = self;
        let shared = Pairs::of(alloc, Base::new(texts, pairs))?;
        Ok(Message::of(pri, sent, received, shared, tags))
    }
}
