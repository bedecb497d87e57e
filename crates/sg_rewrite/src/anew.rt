// Messages made anew, without a group of names.
ghost use Rattle.std.specs.Prelude.{◌≡◌, ◌+◌, ◌++◌, [], ◌∷◌, IfOk, OnOk};
ghost use Rattle.sg_msg.specs.Message.{IsPairName};
ghost use Rattle.sg_rewrite.specs.Rewritten.{unpicked, unset_each};

use crate::groups::is_picked;
use bytes::Bytes;
use sg_device::{Name, NoMemory};
use sg_msg::{Message, MessageBuilder, PairName};
use std::alloc::{AllocError, Global};

// Puts the pair behind the others, where no glob matches its name.
fn keep(
    alloc: Global,
    globs: &[Name],
    name: &[u8],
    value: &[u8],
    builder: &mut MessageBuilder,
) -> Result<(), NoMemory>
    requires { IsPairName name.now }
    ensures { OnOk result (builder.new ≡ record builder.old {
      put = builder.old.put ++ unpicked globs.now
          ((record { name = name.now; value = value.now }) ∷ []);
    }) }
{
    if is_picked(globs, name) {
        return Ok(());
    }
    let name = Bytes::copy_from_slice(alloc, name)?;
    let value = Bytes::copy_from_slice(alloc, value)?;
    builder.put(PairName::Other(name), value)?;
    Ok(())
}

fn keep_pairs(
    alloc: Global,
    globs: &[Name],
    message: &Message,
    builder: &mut MessageBuilder,
) -> Result<(), NoMemory>
    requires { builder.old.put ≡ [] }
    ensures { OnOk result
        (builder.new ≡ record builder.old { put = unpicked globs.now message.now.pairs }) }
{
    let _pri = message.pri();
    for place in 0..message.pair_count() {
        let Some((name, value)) = message.pair(place) else {
            unreachable!()
        };
        keep(alloc, globs, name, value, builder)?;
    }
    Ok(())
}

// No list is so long that it has no next place.
fn next_place(place: usize) -> Result<usize, NoMemory>
    ensures { IfOk result (λ next. next ≡ place + 1) }
{
    match place.checked_add(1) {
        Some(next) => Ok(next),
        None => Err(AllocError),
    }
}

fn keep_tags(message: &Message, builder: &mut MessageBuilder) -> Result<(), NoMemory>
    requires { builder.old.tags ≡ [] }
    ensures { OnOk result (builder.new ≡ record builder.old { tags = message.now.tags }) }
{
    let _pri = message.pri();
    let mut place: usize = 0;
    while let Some(tag) = message.tag(place) {
        builder.set_tag(tag)?;
        place = next_place(place)?;
    }
    Ok(())
}

// What is made anew, without pairs and tags.
fn empty(alloc: Global, message: &Message) -> MessageBuilder
    ensures { result ≡ record {
      pri = message.now.pri;
      sent = message.now.sent;
      received = message.now.received;
      item = [];
      put = [];
      tags = [];
    } }
{
    MessageBuilder::new(alloc, message.pri(), message.sent(), message.received())
}

/// The message without the names that a glob matches, made anew in time in proportion to its pairs.
pub(crate) fn without_group(
    alloc: Global,
    globs: &[Name],
    message: &Message,
) -> Result<Message, NoMemory>
    ensures { IfOk result (λ new. new ≡ unset_each globs.now message.now.pairs message.now) }
{
    let _pri = message.pri();
    let mut builder = empty(alloc, message);
    keep_pairs(alloc, globs, message, &mut builder)?;
    keep_tags(message, &mut builder)?;
    Ok(builder.message()?)
}
