// Filters and rewrites of a tree, each made for one message.
ghost use Rattle.std.specs.Prelude.{◌≡◌, true, IfOk, OnOk};
ghost use Rattle.sg_filter.specs.Decisions.{decides, decision_of};
ghost use Rattle.sg_rewrite.specs.Ops.{change_of};
ghost use Rattle.sg_rewrite.specs.Rewritten.{rewritten};
ghost use Rattle.sg_tree.specs.Sound.{op_sound};
ghost use Rattle.sg_tree.specs.Rules.{condition_of, passes, rewritten_by, rule_of};

use sg_filter::{Expr, Filter};
use sg_msg::Message;
use sg_pattern::Builder;
use sg_rewrite::{Op, Rewrite};
use sg_tree::{PathRefusal, RewriteRule};
use std::alloc::Global;

/// Whether the filter holds, in which a name means the expression at its place of `named`.
pub(crate) fn holds<B: Builder>(
    alloc: Global,
    builder: &mut B,
    expr: &Expr,
    named: &[Expr],
    message: &Message,
) -> Result<bool, PathRefusal>
    ensures { IfOk result (λ yes. yes ≡ decides (decision_of named.now expr.now) message.now) }
{
    let mut filter = Filter::new(alloc, builder, expr, named)?;
    Ok(filter.holds(message)?)
}

fn is_met<B: Builder>(
    alloc: Global,
    builder: &mut B,
    condition: &Option<Expr>,
    named: &[Expr],
    message: &Message,
) -> Result<bool, PathRefusal>
    ensures { IfOk result (λ yes. yes ≡ passes (condition_of named.now condition.now) message.now) }
{
    match condition {
        Some(expr) => holds(alloc, builder, expr, named, message),
        None => Ok(true),
    }
}

fn change<B: Builder>(
    alloc: Global,
    builder: &mut B,
    op: &Op,
    message: &mut Message,
) -> Result<(), PathRefusal>
    requires { op_sound op.now ≡ true }
    ensures { OnOk result (message.new ≡ rewritten (change_of op.now) message.old) }
{
    let mut rewrite = Rewrite::new(alloc, builder, op)?;
    rewrite.apply(alloc, message)?;
    Ok(())
}

/// Changes the message, where the rule's condition holds.
pub(crate) fn rewrite<B: Builder>(
    alloc: Global,
    builder: &mut B,
    rule: &RewriteRule,
    named: &[Expr],
    message: &mut Message,
) -> Result<(), PathRefusal>
    ensures { OnOk result (message.new ≡ rewritten_by (rule_of named.now rule.now) message.old) }
{
    if is_met(alloc, builder, &rule.condition, named, message)? {
        change(alloc, builder, &rule.op, message)?;
    }
    Ok(())
}
