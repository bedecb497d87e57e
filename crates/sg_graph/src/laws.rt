// Laws.
ghost use Rattle.std.specs.Prelude.{◌≡◌, ℕ, List, Option};
ghost use Rattle.sg_graph.specs.Graph.{IsFirstOnCycle};

/// At most one node is the first that names itself through others.
pub fn cycles_have_one_first()
    ensures { (links : List (List ℕ)) (first other : Option ℕ) → IsFirstOnCycle links first
        → IsFirstOnCycle links other → first ≡ other }
{}
