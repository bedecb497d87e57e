// Laws.
ghost use Rattle.std.specs.Prelude.{◌≡◌, ℕ, List, Ok};
ghost use Rattle.sg_parse_base.specs.declared.spot.Spot.{Spot};
ghost use Rattle.sg_parse_path.specs.declared.tree.RawLog.{RawLog as Tree};
ghost use Rattle.sg_parse_path.specs.Paths.{log_in};
ghost use Rattle.sg_parse_path.specs.Grammar.{IsLog};

/// What is read is of the grammar, and what is of the grammar is read: so at most one log statement
/// stands at a place.
pub fn log_statements_are_of_the_grammar()
    ensures read { (depth : ℕ) (s r : List Spot) (x : Tree) → log_in depth s ≡ Ok (x, r)
        → IsLog depth s x r }
    ensures again { (depth : ℕ) (s r : List Spot) (x : Tree) → IsLog depth s x r
        → log_in depth s ≡ Ok (x, r) }
{}
