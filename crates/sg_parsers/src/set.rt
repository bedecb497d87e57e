// Setting many pairs in time in proportion to them and to the message.
ghost use Rattle.std.specs.Prelude.{◌≡◌, ◌+◌, ◌++◌, [], ◌∷◌, IfOk, OnOk, OnErr};
ghost use Rattle.sg_msg.specs.Message.{IsPairName, with_all, with_pair};

use crate::found::Found;
use bytes::Bytes;
use sg_device::NoMemory;
use sg_msg::{Message, MessageBuilder, PairName};
use std::alloc::{AllocError, Global};

fn set_one(message: &mut Message, pair: &Found) -> Result<(), NoMemory>
    ensures { OnOk result (message.new ≡ record message.old {
      pairs = with_pair pair.now.name pair.now.value message.old.pairs;
    }) }
{
    message.put(pair.name(), pair.value()?)?;
    Ok(())
}

fn set_each(message: &mut Message, pairs: &[Found]) -> Result<(), NoMemory>
    ensures { OnOk result
        (message.new ≡ record message.old { pairs = with_all pairs.now message.old.pairs }) }
{
    for pair in pairs {
        set_one(message, pair)?;
    }
    Ok(())
}

fn keep(
    alloc: Global,
    name: &[u8],
    value: &[u8],
    builder: &mut MessageBuilder,
) -> Result<(), NoMemory>
    requires { IsPairName name.now }
    ensures { OnOk result (builder.new ≡ record builder.old {
      put = builder.old.put ++ (record { name = name.now; value = value.now }) ∷ [];
    }) }
{
    let name = Bytes::copy_from_slice(alloc, name)?;
    let value = Bytes::copy_from_slice(alloc, value)?;
    builder.put(PairName::Other(name), value)?;
    Ok(())
}

fn keep_pairs(
    alloc: Global,
    message: &Message,
    builder: &mut MessageBuilder,
) -> Result<(), NoMemory>
    requires { builder.old.put ≡ [] }
    ensures { OnOk result (builder.new ≡ record builder.old { put = message.now.pairs }) }
{
    let _pri = message.pri();
    for place in 0..message.pair_count() {
        let Some((name, value)) = message.pair(place) else {
            unreachable!()
        };
        keep(alloc, name, value, builder)?;
    }
    Ok(())
}

fn put_one(builder: &mut MessageBuilder, pair: &Found) -> Result<(), NoMemory>
    ensures { OnOk result
        (builder.new ≡ record builder.old { put = builder.old.put ++ pair.now ∷ [] }) }
{
    let name = pair.name().clone()?;
    builder.put(PairName::Other(name), pair.value()?)?;
    Ok(())
}

fn put_each(builder: &mut MessageBuilder, pairs: &[Found]) -> Result<(), NoMemory>
    ensures { OnOk result
        (builder.new ≡ record builder.old { put = builder.old.put ++ pairs.now }) }
{
    for pair in pairs {
        put_one(builder, pair)?;
    }
    Ok(())
}

// No list is so long that it has no next place.
fn next_place(place: usize) -> Result<usize, NoMemory>
    ensures { IfOk result (λ next. next ≡ place + 1) }
{
    match place.checked_add(1) {
        Some(next) => Ok(next),
        None => Err(AllocError),
    }
}

fn keep_tags(message: &Message, builder: &mut MessageBuilder) -> Result<(), NoMemory>
    requires { builder.old.tags ≡ [] }
    ensures { OnOk result (builder.new ≡ record builder.old { tags = message.now.tags }) }
{
    let _pri = message.pri();
    let mut place: usize = 0;
    while let Some(tag) = message.tag(place) {
        builder.set_tag(tag)?;
        place = next_place(place)?;
    }
    Ok(())
}

// What is made anew, without pairs and tags.
fn empty(alloc: Global, message: &Message) -> MessageBuilder
    ensures { result ≡ record {
      pri = message.now.pri;
      sent = message.now.sent;
      received = message.now.received;
      item = [];
      put = [];
      tags = [];
    } }
{
    MessageBuilder::new(alloc, message.pri(), message.sent(), message.received())
}

// The message with these pairs set, made anew.
fn made_anew(alloc: Global, message: &Message, pairs: &[Found]) -> Result<Message, NoMemory>
    ensures { IfOk result (λ made. made
        ≡ record message.now { pairs = with_all pairs.now message.now.pairs }) }
{
    let _pri = message.pri();
    let mut builder = empty(alloc, message);
    keep_pairs(alloc, message, &mut builder)?;
    put_each(&mut builder, pairs)?;
    keep_tags(message, &mut builder)?;
    Ok(builder.message()?)
}

/// Up to so many pairs, putting each in its place takes less than making the message anew.
pub(crate) const FEW: usize = 64;

/// Sets the pairs one after another. On an error the message is as it was.
pub(crate) fn set_all(alloc: Global, pairs: &[Found], message: &mut Message) -> Result<(), NoMemory>
    ensures ok { OnOk result
        (message.new ≡ record message.old { pairs = with_all pairs.now message.old.pairs }) }
    ensures err { OnErr result (message.new ≡ message.old) }
{
    if pairs.len() > FEW {
        *message = made_anew(alloc, message, pairs)?;
        return Ok(());
    }
    let mut changed = message.with_room(pairs.len())?;
    set_each(&mut changed, pairs)?;
    *message = changed;
    Ok(())
}
