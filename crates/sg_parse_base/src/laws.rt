// Laws.
ghost use Rattle.std.specs.Prelude.{◌≡◌, List, Ok};
ghost use Rattle.sg_parse_base.specs.declared.spot.Spot.{Spot};
ghost use Rattle.sg_parse_base.specs.Skipping.{skipped as skipped_at};
ghost use Rattle.sg_parse_base.specs.Grammar.{Skipped};

/// What is passed over is parentheses with balanced tokens in them, and such parentheses are passed
/// over.
pub fn skipped_tokens_are_balanced()
    ensures read { (s r : List Spot) → skipped_at s ≡ Ok (tt, r) → Skipped s r }
    ensures again { (s r : List Spot) → Skipped s r → skipped_at s ≡ Ok (tt, r) }
{}
