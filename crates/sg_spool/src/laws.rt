// What the meaning of a store's bytes rests on.
ghost use Rattle.std.specs.Prelude.{◌≡◌, ℕ, List, replicate};
ghost use Rattle.sg_spool.specs.Opening.{IsRingDamagedAt};
ghost use Rattle.sg_spool.specs.Ring.{Entries, IsList};
ghost use Rattle.sg_spool.specs.View.{IsCompactIn};

/// Bytes stand for one list, or they are damaged at one place, and never both. A fresh store, 128 zero
/// bytes, is within the bound of every capacity.
pub fn bytes_have_one_meaning()
    ensures one { (entries others : Entries) (bytes : List ℕ) → IsList entries bytes
        → IsList others bytes → entries ≡ others }
    ensures whole { (entries : Entries) (at : ℕ) (bytes : List ℕ) → IsList entries bytes
        → IsRingDamagedAt at bytes → ⊥ }
    ensures place { (at other : ℕ) (bytes : List ℕ) → IsRingDamagedAt at bytes
        → IsRingDamagedAt other bytes
        → at ≡ other }
    ensures fresh { (capacity : ℕ) → IsCompactIn capacity (replicate 128 0) }
{}
