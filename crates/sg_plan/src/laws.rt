// Laws. The functions here do nothing: their contracts are laws.
ghost use Rattle.std.specs.Prelude.{List, None};
ghost use Rattle.sg_parse_text.specs.declared.statement.Statement.{Statement};
ghost use Rattle.sg_resolve.specs.First.{IsFirstFault};
ghost use Rattle.sg_plan.specs.declared.plan.Plan.{Plan};
ghost use Rattle.sg_plan.specs.Plans.{IsPlan, AreAlikePlans};
ghost use Rattle.sg_plan.specs.Owners.{NumbersAreWithin};
ghost use Rattle.sg_plan.specs.Limits.{IsPlanWithin};

/// The drivers of statements come to one plan.
pub fn plans_are_one()
    ensures { (statements : List Statement) (a b : Plan) → IsPlan statements a → IsPlan statements b
        → AreAlikePlans a b }
{}

/// Where nothing is wrong with statements, their plan is within the limits, and each store is used once.
pub fn plans_are_within()
    ensures { (statements : List Statement) (plan : Plan) → IsFirstFault statements None
        → IsPlan statements plan → IsPlanWithin plan }
{}

/// Each number is that of one of them.
pub fn numbers_are_within()
    ensures { NumbersAreWithin }
{}
