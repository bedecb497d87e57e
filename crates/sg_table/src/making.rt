// Filters and rewrites, made of what a configuration writes.
ghost use Rattle.std.specs.Prelude.{◌≡◌, true, IfOk};
ghost use Rattle.sg_outside.specs.World.{OnlyBuilds};
ghost use Rattle.sg_filter.specs.Decisions.{decision_of};
ghost use Rattle.sg_filter.specs.Patterns.{patterns_of};
ghost use Rattle.sg_rewrite.specs.Ops.{change_of};
ghost use Rattle.sg_tree.specs.Rules.{condition_of, rule_of};
ghost use Rattle.sg_tree.specs.Sound.{op_sound};
ghost use Rattle.sg_table.specs.Patterns.{MakesPatterns, condition_patterns, op_patterns, rule_patterns};

use sg_filter::{Expr, Filter};
use sg_pattern::Builder;
use sg_rewrite::{Op, Rewrite};
use sg_tree::{PathRefusal, RewriteRule};
use std::alloc::Global;

pub(crate) fn make_filter<B: Builder>(
    alloc: Global,
    builder: &mut B,
    named: &[Expr],
    expr: &Expr,
) -> Result<Filter, PathRefusal>
    ensures made { IfOk result (λ filter. filter ≡ decision_of named.now expr.now) }
    ensures makes { MakesPatterns (B.state builder.old) (B.state builder.new)
        (patterns_of named.now expr.now) result }
    ensures only { OnlyBuilds (B.state builder.old) (B.state builder.new) }
{
    match Filter::new(alloc, builder, expr, named) {
        Ok(filter) => Ok(filter),
        Err(refusal) => Err(PathRefusal::from(refusal)),
    }
}

fn make_condition<B: Builder>(
    alloc: Global,
    builder: &mut B,
    named: &[Expr],
    condition: &Option<Expr>,
) -> Result<Option<Filter>, PathRefusal>
    ensures made { IfOk result (λ filter. filter ≡ condition_of named.now condition.now) }
    ensures makes { MakesPatterns (B.state builder.old) (B.state builder.new)
        (condition_patterns named.now condition.now) result }
    ensures only { OnlyBuilds (B.state builder.old) (B.state builder.new) }
{
    match condition {
        Some(expr) => match make_filter(alloc, builder, named, expr) {
            Ok(filter) => Ok(Some(filter)),
            Err(refusal) => Err(refusal),
        },
        None => Ok(None),
    }
}

fn make_rewrite<B: Builder>(alloc: Global, builder: &mut B, op: &Op) -> Result<Rewrite, PathRefusal>
    requires { op_sound op.now ≡ true }
    ensures made { IfOk result (λ rewrite. rewrite ≡ change_of op.now) }
    ensures makes { MakesPatterns (B.state builder.old) (B.state builder.new)
        (op_patterns op.now) result }
    ensures only { OnlyBuilds (B.state builder.old) (B.state builder.new) }
{
    match Rewrite::new(alloc, builder, op) {
        Ok(rewrite) => Ok(rewrite),
        Err(refusal) => Err(PathRefusal::from(refusal)),
    }
}

/// The condition of a rule, and its rewrite.
pub(crate) fn make_rule<B: Builder>(
    alloc: Global,
    builder: &mut B,
    named: &[Expr],
    rule: &RewriteRule,
) -> Result<(Option<Filter>, Rewrite), PathRefusal>
    ensures made { IfOk result
        (λ made. record { condition = made.0; change = made.1 } ≡ rule_of named.now rule.now) }
    ensures makes { MakesPatterns (B.state builder.old) (B.state builder.new)
        (rule_patterns named.now rule.now) result }
    ensures only { OnlyBuilds (B.state builder.old) (B.state builder.new) }
{
    let condition = match make_condition(alloc, builder, named, &rule.condition) {
        Ok(condition) => condition,
        Err(refusal) => return Err(refusal),
    };
    match make_rewrite(alloc, builder, &rule.op) {
        Ok(rewrite) => Ok((condition, rewrite)),
        Err(refusal) => Err(refusal),
    }
}
