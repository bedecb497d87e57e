// What holds of all spellings.
ghost use Rattle.std.specs.Prelude.{◌≡◌, ℕ, List, Ok};
ghost use Rattle.sg_codec.specs.declared.kept.Kept.{Kept as Entry};
ghost use Rattle.sg_codec.specs.Spelling.{spelling2, IsSpellable, Spells};
ghost use Rattle.sg_codec.specs.Reading.{reading};

/// Each spelling of an entry is read as that entry. So what is written is read again, and no bytes
/// spell two entries.
pub fn spellings_are_read()
    ensures read { (kept : Entry) (bytes : List ℕ) → Spells kept bytes → reading bytes ≡ Ok kept }
    ensures again { (kept : Entry) → IsSpellable kept → reading (spelling2 kept) ≡ Ok kept }
    ensures one { (a b : Entry) (bytes : List ℕ) → Spells a bytes → Spells b bytes → a ≡ b }
{}
