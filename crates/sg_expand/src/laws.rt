// What holds of every expansion. The functions here do nothing: their contracts are laws.
ghost use Rattle.std.specs.Prelude.{◌≡◌, ℕ, List, Some, true};
ghost use Rattle.sg_outside.specs.World.{WorldState, Files};
ghost use Rattle.sg_lex.specs.declared.token.Token.{Token};
ghost use Rattle.sg_expand.specs.Expansion.{ExpansionOutcome, Tokens, RunsJob, RunsMain, first_context, first_state};
ghost use Rattle.sg_expand.specs.One.{AreAlikeOutcomes};
ghost use Rattle.sg_expand.specs.Bounded.{StaysWithin};

/// Where the machine tells its files, the same text comes to the same tokens and names of files, or to
/// the same fault, kind, file and line: only a reading that fails ends otherwise.
pub fn expansions_are_one()
    ensures { (name text : List ℕ) (files : Files) (world again : WorldState)
        (one other : ExpansionOutcome)
        → world.files ≡ Some files → again.files ≡ Some files
        → RunsMain name text world one → RunsMain name text again other
        → AreAlikeOutcomes one other }
{}

/// In each state that an expansion comes by, the tokens of the list, of the values that are expanded
/// and of those that are bound in uses under way are together at most 1,048,576.
pub fn expansions_stay_within()
    ensures { (tokens : List Token) (name : List ℕ) (world : WorldState)
        (outcome : ExpansionOutcome)
        (runs : RunsJob (Tokens first_context true tokens) (first_state name) world outcome)
        → StaysWithin 0 (Tokens first_context true tokens) (first_state name) world outcome runs }
{}
