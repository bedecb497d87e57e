// Laws.
ghost use Rattle.std.specs.Prelude.{◌≡◌, List, Option};
ghost use Rattle.sg_fault.specs.declared.placed.Placed.{Placed};
ghost use Rattle.sg_parse_text.specs.declared.statement.Statement.{Statement};
ghost use Rattle.sg_names.specs.Faults.{IsNamesFault};

/// What is wrong with the names of a configuration is one thing at most.
pub fn names_have_one_fault()
    ensures { (statements : List Statement) (fault other : Option Placed)
        → IsNamesFault statements fault → IsNamesFault statements other → fault ≡ other }
{}
