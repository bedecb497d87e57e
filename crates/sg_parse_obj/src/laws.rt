// Laws.
ghost use Rattle.std.specs.Prelude.{◌≡◌, ℕ, List, Ok};
ghost use Rattle.sg_parse_base.specs.declared.spot.Spot.{Spot};
ghost use Rattle.sg_parse_obj.specs.declared.object.Object.{Object};
ghost use Rattle.sg_parse_obj.specs.Objects.{object_in};
ghost use Rattle.sg_parse_obj.specs.Grammar.{IsObject};

/// What is read is of the grammar, and what is of the grammar is read: so at most one statement stands
/// at a place.
pub fn statements_are_of_the_grammar()
    ensures read { (depth : ℕ) (s r : List Spot) (x : Object) → object_in depth s ≡ Ok (x, r)
        → IsObject depth s x r }
    ensures again { (depth : ℕ) (s r : List Spot) (x : Object) → IsObject depth s x r
        → object_in depth s ≡ Ok (x, r) }
{}
