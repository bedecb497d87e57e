// The texts of a message: its record, and those that aren't parts of it.
ghost use Rattle.std.specs.Prelude.{◌≡◌, ◌≤◌, ◌<◌, ◌++◌, ◌∷◌, [], length, bytes_eq, IfOk, OnOk, OnErr};
ghost use Rattle.sg_msg.specs.Message.{byte_order};
ghost use Rattle.sg_msg.specs.Parts.{own_text, part_text, name_in, value_in, KeepsText, KeepsName, KeepsPart, KeepsOwnPart};

use crate::is_same;
use crate::order::order;
use crate::pair::{Name, Text, known_name, rank};
use bytes::Bytes;
use std::alloc::AllocError;
use std::cmp::Ordering;

// So many texts of its own, and no longer record with parts by their places, has a message.
const MOST: usize = 0xffff_ffff;

/// The record, and texts that aren't parts of it.
#[derive(Drop)]
pub(crate) struct Texts {
    pub(crate) item: Bytes,
    pub(crate) own: Vec<Bytes>,
}

impl Clone for Texts {
    ghost is_clone = { λ texts copy. (copy.item ≡ texts.item)
        × (copy.own.items ≡ texts.own.items) };

    fn clone(&self) -> Result<Texts, AllocError> {
        Ok(Texts {
            item: self.item.clone()?,
            own: self.own.clone()?,
        })
    }
}

fn own_text(own: &[Bytes], place: u32) -> &[u8]
    ensures { result.now ≡ own_text own.now place }
{
    match own.get(place as usize) {
        Some(text) => text.as_slice(),
        None => &[],
    }
}

fn part_text(text: &[u8], from: u32, to: u32) -> &[u8]
    ensures { result.now ≡ part_text text.now from to }
{
    let from = from as usize;
    let to = to as usize;
    if from <= to && to <= text.len() {
        &text[from..to]
    } else {
        &[]
    }
}

impl Texts {
    /// The text of the name.
    pub(crate) fn name(&self, name: Name) -> &[u8]
        ensures { result.now ≡ name_in self.now.own.items name }
    {
        match name {
            Name::Host => b"HOST",
            Name::Message => b"MESSAGE",
            Name::MessageId => b"MSGID",
            Name::Pid => b"PID",
            Name::Program => b"PROGRAM",
            Name::Own(place) => own_text(self.own.as_slice(), place),
        }
    }

    /// The text of the value.
    pub(crate) fn value(&self, value: Text) -> &[u8]
        ensures { result.now ≡ value_in self.now.item self.now.own.items value }
    {
        match value {
            Text::Part(from, to) => part_text(self.item.as_slice(), from, to),
            Text::Own(place) => own_text(self.own.as_slice(), place),
            Text::OwnPart(place, from, to) => {
                part_text(own_text(self.own.as_slice(), place), from, to)
            }
        }
    }

    /// Which of two names stands before the other.
    pub(crate) fn order(&self, a: Name, b: Name) -> Ordering
        ensures { result
            ≡ byte_order (name_in self.now.own.items a) (name_in self.now.own.items b) }
    {
        if let (Some(first), Some(other)) = (rank(a), rank(b)) {
            return first.cmp(&other);
        }
        order(self.name(a), self.name(b))
    }

    /// Which of a name and a text stands before the other.
    pub(crate) fn order_text(&self, name: Name, text: &[u8]) -> Ordering
        ensures { result ≡ byte_order (name_in self.now.own.items name) text.now }
    {
        order(self.name(name), text)
    }

    /// Whether the name has this text.
    pub(crate) fn is_named(&self, name: Name, text: &[u8]) -> bool
        ensures { result ≡ bytes_eq (name_in self.now.own.items name) text.now }
    {
        is_same(self.name(name), text)
    }
}

/// Keeps one more text, and answers its number.
pub(crate) fn keep(own: &mut Vec<Bytes>, text: Bytes) -> Result<u32, AllocError>
    ensures ok { IfOk result (λ place. KeepsText own.old.items own.new.items place text) }
    ensures err { OnErr result (own.new.items ≡ own.old.items) }
{
    let place = own.len();
    if place >= MOST {
        return Err(AllocError);
    }
    own.push(text)?;
    Ok(place as u32)
}

/// Keeps a name, where it isn't one that most records have.
pub(crate) fn keep_name(own: &mut Vec<Bytes>, name: Bytes) -> Result<Name, AllocError>
    ensures ok { IfOk result (λ kept. KeepsName own.old.items own.new.items kept name) }
    ensures err { OnErr result (own.new.items ≡ own.old.items) }
{
    match known_name(name.as_slice()) {
        Some(known) => Ok(known),
        None => Ok(Name::Own(keep(own, name)?)),
    }
}

/// A part of the record, by its places where they are small.
pub(crate) fn keep_part(
    own: &mut Vec<Bytes>,
    item: &Bytes,
    from: usize,
    to: usize,
) -> Result<Text, AllocError>
    requires { (from ≤ to) × (to ≤ length item.now) }
    ensures ok { IfOk result
        (λ kept. KeepsPart item.now own.old.items own.new.items kept from to) }
    ensures err { OnErr result (own.new.items ≡ own.old.items) }
{
    if to <= MOST {
        return Ok(Text::Part(from as u32, to as u32));
    }
    Ok(Text::Own(keep(own, item.slice(from..to)?)?))
}

/// A part of one of the texts, by its places where they are small.
pub(crate) fn keep_own_part(
    own: &mut Vec<Bytes>,
    place: u32,
    from: usize,
    to: usize,
) -> Result<Text, AllocError>
    requires within { place < length own.old.items }
    requires part { (from ≤ to) × (to ≤ length (own_text own.old.items place)) }
    ensures ok { IfOk result
        (λ kept. KeepsOwnPart own.old.items own.new.items kept place from to) }
    ensures err { OnErr result (own.new.items ≡ own.old.items) }
{
    if to <= MOST {
        return Ok(Text::OwnPart(place, from as u32, to as u32));
    }
    let part = own[place as usize].slice(from..to)?;
    Ok(Text::Own(keep(own, part)?))
}
