// Laws.
ghost use Rattle.std.specs.Prelude.{◌≡◌, ℕ, List, Ok};
ghost use Rattle.sg_parse_base.specs.declared.spot.Spot.{Spot};
ghost use Rattle.sg_parse_expr.specs.declared.tree.Call.{Call};
ghost use Rattle.sg_parse_expr.specs.declared.tree.RawExpr.{RawExpr};
ghost use Rattle.sg_parse_expr.specs.Expr.{expr as expr_at};
ghost use Rattle.sg_parse_expr.specs.Rewrites.{rewrite_call as rewrite_at};
ghost use Rattle.sg_parse_expr.specs.Grammar.{Expression, RewriteCall};
ghost use Rattle.sg_parse_expr.specs.Ends.{EndsExpression};

/// What is read as an expression is of the grammar, and what is of the grammar is read where neither
/// `and` nor `or` stands behind it.
pub fn expressions_are_of_the_grammar()
    ensures read { (depth : ℕ) (s r : List Spot) (x : RawExpr) → expr_at depth s ≡ Ok (x, r)
        → Expression depth s x r }
    ensures again { (depth : ℕ) (s r : List Spot) (x : RawExpr) → Expression depth s x r
        → EndsExpression r
        → expr_at depth s ≡ Ok (x, r) }
{}

/// What is read as a rewrite is of the grammar, and what is of the grammar is read.
pub fn rewrites_are_of_the_grammar()
    ensures read { (depth : ℕ) (s r : List Spot) (x : Call) → rewrite_at depth s ≡ Ok (x, r)
        → RewriteCall depth s x r }
    ensures again { (depth : ℕ) (s r : List Spot) (x : Call) → RewriteCall depth s x r
        → rewrite_at depth s ≡ Ok (x, r) }
{}
