// Entries in format 2.
ghost use Rattle.std.specs.Prelude.{◌≡◌, ◌<◌, ◌≤◌, ◌+◌, ◌^◌, ◌∷◌, [], ◌++◌, length, OnOk, IfOk, vec_len};
ghost use Rattle.std.specs.Int.{w16, w32, w64};
ghost use Rattle.sg_msg.specs.Message.{HaveNames, IsMessage};
ghost use Rattle.sg_msg.specs.Length.{encoded_len};
ghost use Rattle.sg_codec.specs.Spelling.{number_bytes, flag_bytes, stamp_bytes, text_bytes, tags_bytes, pairs_bytes, head_bytes, AreTexts, HaveValues, Spells2};

use crate::{Kept, encoded_len};
use sg_msg::Message;
use sg_time::Stamp;
use std::alloc::{AllocError, Global};

#[tactic(auto, unfolding(crate::specs::Spelling::number_bytes))]
fn put_u16(out: &mut Vec<u8>, number: u16) -> Result<(), AllocError>
    ensures { OnOk result (out.new.items ≡ out.old.items ++ number_bytes w16 number) }
{
    out.extend_from_slice(&number.to_be_bytes())
}

#[tactic(auto, unfolding(crate::specs::Spelling::number_bytes))]
fn put_u32(out: &mut Vec<u8>, number: u32) -> Result<(), AllocError>
    ensures { OnOk result (out.new.items ≡ out.old.items ++ number_bytes w32 number) }
{
    out.extend_from_slice(&number.to_be_bytes())
}

#[tactic(auto, unfolding(crate::specs::Spelling::number_bytes))]
fn put_u64(out: &mut Vec<u8>, number: u64) -> Result<(), AllocError>
    ensures { OnOk result (out.new.items ≡ out.old.items ++ number_bytes w64 number) }
{
    out.extend_from_slice(&number.to_be_bytes())
}

fn put_flag(out: &mut Vec<u8>, flow: bool) -> Result<(), AllocError>
    ensures { OnOk result (out.new.items ≡ out.old.items ++ flag_bytes flow) }
{
    out.push(if flow { 1 } else { 0 })?;
    Ok(())
}

fn put_stamp(out: &mut Vec<u8>, stamp: Stamp) -> Result<(), AllocError>
    ensures { OnOk result (out.new.items ≡ out.old.items ++ stamp_bytes stamp) }
{
    put_u64(out, stamp.at.cast_unsigned())?;
    put_u16(out, stamp.offset.cast_unsigned())
}

fn put_text(out: &mut Vec<u8>, text: &[u8]) -> Result<(), AllocError>
    requires { length text.now < 2 ^ 32 }
    ensures { OnOk result (out.new.items ≡ out.old.items ++ text_bytes text.now) }
{
    put_u32(out, text.len() as u32)?;
    out.extend_from_slice(text)
}

fn put_head(out: &mut Vec<u8>, kept: &Kept) -> Result<(), AllocError>
    ensures written { OnOk result (out.new.items ≡ out.old.items ++ head_bytes kept.now) }
    ensures source { OnOk result (kept.now.source < 2 ^ 32) }
    ensures message { OnOk result (IsMessage kept.now.message) }
{
    put_flag(out, kept.flow)?;
    put_u32(out, kept.source)?;
    put_u64(out, kept.end)?;
    out.push(kept.message.pri())?;
    put_stamp(out, kept.message.sent())
}

fn tag_count(message: &Message) -> u32
    requires { length message.now.tags < 2 ^ 32 }
    ensures { result ≡ length message.now.tags }
{
    let mut count = 0;
    while message.tag(count as usize).is_some() {
        count += 1;
    }
    count
}

fn pair_count(message: &Message) -> u32
    requires { length message.now.pairs < 2 ^ 32 }
    ensures { result ≡ length message.now.pairs }
{
    message.pair_count() as u32
}

fn put_tags(out: &mut Vec<u8>, message: &Message) -> Result<(), AllocError>
    requires count { length message.now.tags < 2 ^ 32 }
    requires texts { AreTexts message.now.tags }
    ensures { OnOk result (out.new.items ≡ out.old.items ++ tags_bytes message.now.tags) }
{
    let mut place = 0;
    while let Some(tag) = message.tag(place) {
        put_text(out, tag)?;
        place += 1;
    }
    Ok(())
}

fn put_pairs(out: &mut Vec<u8>, message: &Message) -> Result<(), AllocError>
    requires count { length message.now.pairs < 2 ^ 32 }
    requires names { HaveNames message.now.pairs }
    requires values { HaveValues message.now.pairs }
    ensures { OnOk result (out.new.items ≡ out.old.items ++ pairs_bytes message.now.pairs) }
{
    let mut place = 0;
    while let Some((name, value)) = message.pair(place) {
        put_text(out, name)?;
        put_text(out, value)?;
        place += 1;
    }
    Ok(())
}

/// The spelling of the entry in format 2, in one allocation.
pub fn encode(alloc: Global, kept: &Kept) -> Result<Vec<u8>, AllocError>
    requires len { encoded_len kept.now.message ≤ 2 ^ 30 + 64 }
    requires end { kept.now.end < 2 ^ 63 }
    ensures spelling { IfOk result (λ bytes. Spells2 kept.now bytes.items) }
    ensures len { IfOk result (λ bytes. vec_len bytes ≡ encoded_len kept.now.message) }
{
    let mut out = Vec::with_capacity(alloc, encoded_len(kept) as usize)?;
    out.push(2)?;
    put_head(&mut out, kept)?;
    put_stamp(&mut out, kept.message.received())?;
    put_u32(&mut out, tag_count(&kept.message))?;
    put_tags(&mut out, &kept.message)?;
    put_u32(&mut out, pair_count(&kept.message))?;
    put_pairs(&mut out, &kept.message)?;
    Ok(out)
}
