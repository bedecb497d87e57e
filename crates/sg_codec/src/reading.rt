// Entries from bytes.
ghost use Rattle.std.specs.Prelude.{◌≡◌, ◌≤◌, ◌++◌, ◌∷◌, [], true, length, OnOk, IfOk, IsOkUnless, Ok};
ghost use Rattle.sg_msg.specs.Message.{IsAscending};
ghost use Rattle.sg_codec.specs.declared.kept.Kept.{Kept as Entry};
ghost use Rattle.sg_codec.specs.Spelling.{Spells};
ghost use Rattle.sg_codec.specs.Reading.{tags_at, tag_list_at, may_follow, last_name, pairs_at, pair_list_at, last_at, format1_at, format2_at, entry_at, reading};
ghost use Rattle.sg_codec.specs.Answers.{content_of, GivesField, Decodes};

use crate::fields::{take_head, take_name, take_stamp, take_text, take_u32};
use crate::kept::KeptPrefix;
use crate::refusal::DecodeStop;
use crate::{CodecRefusal, Kept};
use bytes::Bytes;
use sg_msg::{Message, MessageBuilder, PairName};
use std::alloc::Global;

fn take_tags(builder: &mut MessageBuilder, count: u32, rest: &mut Bytes) -> Result<(), DecodeStop>
    requires { builder.old.tags ≡ [] }
    ensures field { GivesField (λ _. (builder.new.tags, rest.new)) result
        (tags_at count [] rest.old) }
    ensures others { OnOk result (builder.new ≡ record builder.old { tags = builder.new.tags }) }
{
    for place in 0..count {
        let left = rest.len();
        let tag = take_text(rest)?;
        builder.set_tag(&tag)?;
        if builder.tag(place as usize).is_none() {
            return Err(DecodeStop::Damaged(left));
        }
    }
    Ok(())
}

#[tactic(auto, unfolding(crate::specs::Reading::tag_list_at))]
fn take_tag_list(builder: &mut MessageBuilder, rest: &mut Bytes) -> Result<(), DecodeStop>
    requires { builder.old.tags ≡ [] }
    ensures field { GivesField (λ _. (builder.new.tags, rest.new)) result (tag_list_at rest.old) }
    ensures others { OnOk result (builder.new ≡ record builder.old { tags = builder.new.tags }) }
{
    let count = take_u32(rest)?;
    take_tags(builder, count, rest)
}

// Puts a pair whose name may follow the last one.
fn append(builder: &mut MessageBuilder, name: &Bytes, value: Bytes) -> Result<(), DecodeStop>
    requires follows { may_follow (last_name builder.old.put) name.now ≡ true }
    requires size { (1 ≤ length name.now) × (length name.now ≤ 255) }
    ensures ok { OnOk result (builder.new ≡ record builder.old {
      put = builder.old.put ++ (record { name = name.now; value = value }) ∷ [];
    }) }
    ensures memory { IsOkUnless result DecodeStop.NoMemory }
{
    builder.put(PairName::Other(name.clone()?), value)?;
    Ok(())
}

fn take_pairs(builder: &mut MessageBuilder, count: u32, rest: &mut Bytes) -> Result<(), DecodeStop>
    requires { builder.old.put ≡ [] }
    ensures field { GivesField (λ _. (builder.new.put, rest.new)) result
        (pairs_at count [] rest.old) }
    ensures others { OnOk result (builder.new ≡ record builder.old { put = builder.new.put }) }
    ensures ascending { OnOk result (IsAscending builder.new.put) }
{
    let mut last = Bytes::new();
    for _ in 0..count {
        let name = take_name(&last, rest)?;
        let value = take_text(rest)?;
        append(builder, &name, value)?;
        last = name;
    }
    Ok(())
}

#[tactic(auto, unfolding(crate::specs::Reading::pair_list_at))]
fn take_pair_list(builder: &mut MessageBuilder, rest: &mut Bytes) -> Result<(), DecodeStop>
    requires { builder.old.put ≡ [] }
    ensures field { GivesField (λ _. (builder.new.put, rest.new)) result (pair_list_at rest.old) }
    ensures others { OnOk result (builder.new ≡ record builder.old { put = builder.new.put }) }
    ensures ascending { OnOk result (IsAscending builder.new.put) }
{
    let count = take_u32(rest)?;
    take_pairs(builder, count, rest)
}

// The message of pairs that stand in order.
fn in_order(builder: MessageBuilder) -> Result<Message, DecodeStop>
    requires { IsAscending builder.put }
    ensures ok { IfOk result (λ message. message ≡ content_of builder) }
    ensures memory { IsOkUnless result DecodeStop.NoMemory }
{
    Ok(builder.message()?)
}

// The entry with this head, whose message has all but its pairs.
#[tactic(auto, unfolding(crate::specs::Reading::last_at))]
fn read_last(
    head: KeptPrefix,
    mut builder: MessageBuilder,
    mut rest: Bytes,
) -> Result<Kept, DecodeStop>
    requires pri { builder.pri ≡ head.pri }
    requires sent { builder.sent ≡ head.sent }
    requires pairs { builder.put ≡ [] }
    ensures { GivesField (λ kept. kept) result (last_at head builder.received builder.tags rest) }
{
    take_pair_list(&mut builder, &mut rest)?;
    if !rest.is_empty() {
        return Err(DecodeStop::Damaged(rest.len()));
    }
    Ok(Kept {
        source: head.source,
        end: head.end,
        flow: head.flow,
        message: in_order(builder)?,
    })
}

#[tactic(auto, unfolding(crate::specs::Reading::format1_at))]
fn read_format1(alloc: Global, bytes: &[u8]) -> Result<Kept, DecodeStop>
    ensures { GivesField (λ kept. kept) result (format1_at bytes.now) }
{
    let mut rest = Bytes::copy_from_slice(alloc, bytes)?;
    let head = take_head(&mut rest)?;
    let builder = MessageBuilder::new(alloc, head.pri, head.sent, head.sent);
    read_last(head, builder, rest)
}

#[tactic(auto, unfolding(crate::specs::Reading::format2_at))]
fn read_format2(alloc: Global, bytes: &[u8]) -> Result<Kept, DecodeStop>
    ensures { GivesField (λ kept. kept) result (format2_at bytes.now) }
{
    let mut rest = Bytes::copy_from_slice(alloc, bytes)?;
    let head = take_head(&mut rest)?;
    let received = take_stamp(&mut rest)?;
    let mut builder = MessageBuilder::new(alloc, head.pri, head.sent, received);
    take_tag_list(&mut builder, &mut rest)?;
    read_last(head, builder, rest)
}

#[tactic(auto, unfolding(crate::specs::Reading::entry_at))]
fn read_entry(alloc: Global, bytes: &[u8]) -> Result<Kept, DecodeStop>
    ensures { GivesField (λ kept. kept) result (entry_at bytes.now) }
{
    match bytes {
        [] => Err(DecodeStop::Damaged(0)),
        [1, rest @ ..] => read_format1(alloc, rest),
        [2, rest @ ..] => read_format2(alloc, rest),
        [_, ..] => Err(DecodeStop::Damaged(bytes.len())),
    }
}

/// The entry that the bytes spell, in format 1 or 2. What a tag holds is copied; names and values share
/// one copy of the bytes.
pub fn decode(alloc: Global, bytes: &[u8]) -> Result<Kept, CodecRefusal>
    // What is read is spelled so.
    ensures found { IfOk result (λ kept. Spells kept bytes.now) }

    // What is spelled so is read, unless memory runs out.
    ensures only { (kept : Entry) → Spells kept bytes.now → Decodes result (Ok kept) }

    // Other bytes are damaged, and the place is that of the first damaged byte.
    ensures exact { Decodes result (reading bytes.now) }
{
    match read_entry(alloc, bytes) {
        Ok(kept) => Ok(kept),
        Err(DecodeStop::Damaged(left)) => Err(CodecRefusal::Damage(
            bytes.len().saturating_sub(left) as u64,
        )),
        Err(DecodeStop::NoMemory) => Err(CodecRefusal::NoMemory),
    }
}
