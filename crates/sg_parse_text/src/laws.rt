// Laws.
ghost use Rattle.std.specs.Prelude.{◌≡◌, [], List, Ok};
ghost use Rattle.sg_parse_base.specs.declared.spot.Spot.{Spot};
ghost use Rattle.sg_parse_text.specs.declared.statement.Statement.{Statement};
ghost use Rattle.sg_parse_text.specs.Texts.{text_at};
ghost use Rattle.sg_parse_text.specs.Grammar.{IsConfigText};

/// What is read is of the grammar, and what is of the grammar is read: so tokens are one configuration at
/// most.
pub fn texts_are_of_the_grammar()
    ensures read { (s : List Spot) (xs : List Statement) → text_at s ≡ Ok (xs, [])
        → IsConfigText s xs }
    ensures again { (s : List Spot) (xs : List Statement) → IsConfigText s xs
        → text_at s ≡ Ok (xs, []) }
{}
