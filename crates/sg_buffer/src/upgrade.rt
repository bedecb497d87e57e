// Entries of format 1 in format 2.
ghost use Rattle.std.specs.Prelude.{◌≡◌, ◌≤◌, ◌^◌, true, List, ℕ, length, IfOk};
ghost use Rattle.sg_codec.specs.declared.kept.Kept.{Kept as Entry};
ghost use Rattle.sg_codec.specs.Spelling.{Spells, Spells1, Spells2};
ghost use Rattle.sg_buffer.specs.Formats.{is_format1, is_older, upgraded, upgraded-fits};

use sg_codec::{CodecRefusal, decode, encode};
use sg_device::NoMemory;
use sg_spool::Recode;
use std::alloc::{AllocError, Global};

// An entry of format 1 in a store has at most so many bytes.
pub(crate) const LONGEST: usize = 1 << 30;

/// Spells each entry of format 1, of at most 2^30 bytes, in format 2. Every other payload stays as it is.
#[derive(Clone, Copy, Drop)]
pub struct Upgrade;

impl Recode for Upgrade {
    ghost meaning = { λ _ payload. upgraded payload };

    fn recode(&mut self, alloc: Global, payload: &[u8]) -> Result<Vec<u8>, NoMemory>
        ensures payload { IfOk result (λ spelled. spelled.items ≡ upgraded payload.now) }
        ensures stays { (bytes : List ℕ) → upgraded bytes ≡ upgraded bytes }

        // An entry of format 1 is the same entry in format 2.
        ensures upgraded { (kept : Entry) → Spells1 kept payload.now → length payload.now ≤ 2 ^ 30
            → IfOk result (λ spelled. Spells2 kept spelled.items) }

        // Every other payload stays.
        ensures others { ((kept : Entry) → Spells1 kept payload.now
            → length payload.now ≤ 2 ^ 30 → ⊥)
            → IfOk result (λ spelled. spelled.items ≡ payload.now) }
    {
        if is_older(payload) {
            return spell_anew(alloc, payload);
        }
        Ok(payload.to_vec(alloc)?)
    }

    ghost fits = { λ _ payload fits. upgraded-fits payload fits };
}

// Whether the bytes begin as an entry of format 1 does.
pub(crate) fn is_format1(payload: &[u8]) -> bool
    ensures { result ≡ is_format1 payload.now }
{
    matches!(payload, [1, ..])
}

// Whether they are no more than such an entry has, too.
fn is_older(payload: &[u8]) -> bool
    ensures { result ≡ is_older payload.now }
{
    is_format1(payload) && payload.len() <= LONGEST
}

// The entry in format 2. Bytes that are no entry stay.
fn spell_anew(alloc: Global, payload: &[u8]) -> Result<Vec<u8>, NoMemory>
    requires { is_older payload.now ≡ true }
    ensures payload { IfOk result (λ spelled. spelled.items ≡ upgraded payload.now) }
    ensures read { (kept : Entry) → Spells kept payload.now
        → IfOk result (λ spelled. Spells2 kept spelled.items) }
    ensures others { ((kept : Entry) → Spells kept payload.now → ⊥)
        → IfOk result (λ spelled. spelled.items ≡ payload.now) }
{
    match decode(alloc, payload) {
        Ok(kept) => Ok(encode(alloc, &kept)?),
        Err(CodecRefusal::Damage(_)) => Ok(payload.to_vec(alloc)?),
        Err(CodecRefusal::NoMemory) => Err(AllocError),
    }
}
