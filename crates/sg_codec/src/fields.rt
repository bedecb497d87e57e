// Fields at the front of bytes, which are taken off.
ghost use Rattle.std.specs.Prelude.{◌≡◌, ◌≤◌, true, length, IfOk};
ghost use Rattle.std.specs.Int.{w16, w32, w64};
ghost use Rattle.sg_time.specs.Stamp.{IsValidStamp};
ghost use Rattle.sg_codec.specs.Reading.{bytes_at, number_at, flag_at, end_at, pri_at, stamp_at, text_at, name_size_at, may_follow, name_at, head_at};
ghost use Rattle.sg_codec.specs.Answers.{GivesField};

use crate::kept::KeptPrefix;
use crate::refusal::DecodeStop;
use bytes::{Buf, Bytes};
use sg_msg::is_hard;
use sg_time::Stamp;

#[tactic(auto, unfolding(crate::specs::Reading::number_at))]
fn take_u16(rest: &mut Bytes) -> Result<u16, DecodeStop>
    ensures { GivesField (λ number. (number, rest.new)) result (number_at w16 rest.old) }
{
    match rest.try_get_u16() {
        Ok(number) => Ok(number),
        Err(_) => Err(DecodeStop::Damaged(rest.len())),
    }
}

#[tactic(auto, unfolding(crate::specs::Reading::number_at))]
pub(crate) fn take_u32(rest: &mut Bytes) -> Result<u32, DecodeStop>
    ensures { GivesField (λ number. (number, rest.new)) result (number_at w32 rest.old) }
{
    match rest.try_get_u32() {
        Ok(number) => Ok(number),
        Err(_) => Err(DecodeStop::Damaged(rest.len())),
    }
}

#[tactic(auto, unfolding(crate::specs::Reading::number_at))]
fn take_u64(rest: &mut Bytes) -> Result<u64, DecodeStop>
    ensures { GivesField (λ number. (number, rest.new)) result (number_at w64 rest.old) }
{
    match rest.try_get_u64() {
        Ok(number) => Ok(number),
        Err(_) => Err(DecodeStop::Damaged(rest.len())),
    }
}

// So many bytes, which share the memory of the rest.
#[tactic(auto, unfolding(crate::specs::Reading::bytes_at))]
fn take_bytes(rest: &mut Bytes, count: usize) -> Result<Bytes, DecodeStop>
    ensures field { GivesField (λ bytes. (bytes, rest.new)) result (bytes_at count rest.old) }
    ensures len { IfOk result (λ bytes. length bytes ≡ count) }
{
    if rest.len() < count {
        return Err(DecodeStop::Damaged(rest.len()));
    }
    Ok(rest.split_to(count)?)
}

#[tactic(auto, unfolding(crate::specs::Reading::flag_at))]
fn take_flag(rest: &mut Bytes) -> Result<bool, DecodeStop>
    ensures { GivesField (λ flag. (flag, rest.new)) result (flag_at rest.old) }
{
    let flag = match rest.as_slice() {
        [] => return Err(DecodeStop::Damaged(0)),
        [0, ..] => false,
        [1, ..] => true,
        [_, ..] => return Err(DecodeStop::Damaged(rest.len())),
    };
    rest.advance(1);
    Ok(flag)
}

#[tactic(auto, unfolding(crate::specs::Reading::end_at))]
fn take_end(rest: &mut Bytes) -> Result<u64, DecodeStop>
    ensures { GivesField (λ end. (end, rest.new)) result (end_at rest.old) }
{
    let left = rest.len();
    let end = take_u64(rest)?;
    if end >= 1 << 63 {
        return Err(DecodeStop::Damaged(left));
    }
    Ok(end)
}

#[tactic(auto, unfolding(crate::specs::Reading::pri_at))]
fn take_pri(rest: &mut Bytes) -> Result<u8, DecodeStop>
    ensures field { GivesField (λ pri. (pri, rest.new)) result (pri_at rest.old) }
    ensures range { IfOk result (λ pri. pri ≤ 191) }
{
    let pri = match rest.as_slice() {
        [] => return Err(DecodeStop::Damaged(0)),
        [pri, ..] => *pri,
    };
    if pri > 191 {
        return Err(DecodeStop::Damaged(rest.len()));
    }
    rest.advance(1);
    Ok(pri)
}

#[tactic(auto, unfolding(crate::specs::Reading::stamp_at))]
pub(crate) fn take_stamp(rest: &mut Bytes) -> Result<Stamp, DecodeStop>
    ensures field { GivesField (λ stamp. (stamp, rest.new)) result (stamp_at rest.old) }
    ensures valid { IfOk result (λ stamp. IsValidStamp stamp) }
{
    let at = take_u64(rest)?.cast_signed();
    let left = rest.len();
    let offset = take_u16(rest)?.cast_signed();
    let stamp = Stamp { at, offset };
    if !stamp.is_valid() {
        return Err(DecodeStop::Damaged(left));
    }
    Ok(stamp)
}

#[tactic(auto, unfolding(crate::specs::Reading::text_at))]
pub(crate) fn take_text(rest: &mut Bytes) -> Result<Bytes, DecodeStop>
    ensures { GivesField (λ text. (text, rest.new)) result (text_at rest.old) }
{
    let size = take_u32(rest)?;
    take_bytes(rest, size as usize)
}

#[tactic(auto, unfolding(crate::specs::Reading::name_size_at))]
fn take_name_size(rest: &mut Bytes) -> Result<u32, DecodeStop>
    ensures field { GivesField (λ size. (size, rest.new)) result (name_size_at rest.old) }
    ensures range { IfOk result (λ size. (1 ≤ size) × (size ≤ 255)) }
{
    let left = rest.len();
    let size = take_u32(rest)?;
    if size < 1 || size > 255 {
        return Err(DecodeStop::Damaged(left));
    }
    Ok(size)
}

// Whether the name is greater than the last one, and isn't a macro's.
fn may_follow(last: &[u8], name: &[u8]) -> bool
    ensures { result ≡ may_follow last.now name.now }
{
    last.cmp(name).is_lt() && !is_hard(name)
}

// The name of a pair behind the one with the last name.
#[tactic(auto, unfolding(crate::specs::Reading::name_at))]
pub(crate) fn take_name(last: &[u8], rest: &mut Bytes) -> Result<Bytes, DecodeStop>
    ensures field { GivesField (λ name. (name, rest.new)) result (name_at last.now rest.old) }
    ensures size { IfOk result (λ name. (1 ≤ length name) × (length name ≤ 255)) }
    ensures follows { IfOk result (λ name. may_follow last.now name ≡ true) }
{
    let size = take_name_size(rest)?;
    let left = rest.len();
    let name = take_bytes(rest, size as usize)?;
    if !may_follow(last, &name) {
        return Err(DecodeStop::Damaged(left));
    }
    Ok(name)
}

#[tactic(auto, unfolding(crate::specs::Reading::head_at))]
pub(crate) fn take_head(rest: &mut Bytes) -> Result<KeptPrefix, DecodeStop>
    ensures field { GivesField (λ head. (head, rest.new)) result (head_at rest.old) }
    ensures pri { IfOk result (λ head. head.pri ≤ 191) }
    ensures sent { IfOk result (λ head. IsValidStamp head.sent) }
{
    Ok(KeptPrefix {
        flow: take_flag(rest)?,
        source: take_u32(rest)?,
        end: take_end(rest)?,
        pri: take_pri(rest)?,
        sent: take_stamp(rest)?,
    })
}
