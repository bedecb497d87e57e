// Laws of what is said. The function here does nothing: its contract is laws.
ghost use Rattle.std.specs.Prelude.{List, ℕ, ◌++◌};
ghost use Rattle.sg_outside.specs.World.{WorldState};
ghost use Rattle.sg_output.specs.Saying.{OnlySays, SaidText, SaidSome};

/// Of two calls that only say something, one behind the other, the first text is said in front of the second.
pub fn what_is_said_adds_up()
    ensures only { (a b c : WorldState) → OnlySays a b → OnlySays b c → OnlySays a c }
    ensures text { (a b c : WorldState) (s t : List ℕ) → SaidText a b s → SaidText b c t
        → SaidText a c (s ++ t) }
    ensures some { (a b c : WorldState) (all text rest : List ℕ) → SaidSome a b all text
        → SaidSome b c text rest → SaidSome a c all rest }
{}
