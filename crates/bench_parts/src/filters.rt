// A filter and a rewrite over a message. A refusal counts as want of memory.
ghost use Rattle.std.specs.Prelude.{IfOk};
ghost use Rattle.sg_rewrite.specs.Ops.{IsOp};

use crate::record::{message, pattern};
use sg_device::Name;
use sg_filter::{Expr, Filter};
use sg_msg::Message;
use sg_pattern::{Kind, Patterns};
use sg_rewrite::{Op, Rewrite};
use sg_template::Template;
use std::alloc::{AllocError, Global};

// A filter with `match("error|fail")`.
fn filter(alloc: Global) -> Result<Filter, AllocError> {
    let expr = Expr::Field {
        name: Name::new(alloc, b"MESSAGE")?,
        pattern: pattern(alloc, Kind::Regex, b"error|fail")?,
    };
    let mut patterns = Patterns::new(alloc);
    match Filter::new(alloc, &mut patterns, &expr, &[]) {
        Ok(filter) => Ok(filter),
        Err(_) => Err(AllocError),
    }
}

// Asks so many times whether the message passes.
fn matched(alloc: Global, turns: u64) -> Result<bool, AllocError> {
    let mut filter = filter(alloc)?;
    let message = message(alloc)?;
    for _ in 0..turns {
        filter.holds(&message)?;
    }
    Ok(true)
}

// A `subst()` with one match.
fn op(alloc: Global) -> Result<Op, AllocError>
    ensures { IfOk result IsOp }
{
    let name = Name::new(alloc, b"MESSAGE")?;
    let pattern = pattern(alloc, Kind::Regex, b"timed out")?;
    let Ok(text) = Template::read(alloc, b"T") else {
        return Err(AllocError);
    };
    Ok(Op::Subst {
        name,
        pattern,
        text,
    })
}

// Rewrites so many other handles of the message.
fn apply(
    alloc: Global,
    rewrite: &mut Rewrite,
    message: &Message,
    turns: u64,
) -> Result<bool, AllocError> {
    for _ in 0..turns {
        let mut other = message.share()?;
        rewrite.apply(alloc, &mut other)?;
    }
    Ok(true)
}

fn rewrite(alloc: Global, op: &Op, message: &Message, turns: u64) -> Result<bool, AllocError>
    requires { IsOp op.now }
{
    let mut patterns = Patterns::new(alloc);
    let mut made = Rewrite::new(alloc, &mut patterns, op);
    match &mut made {
        Ok(rewrite) => apply(alloc, rewrite, message, turns),
        Err(_) => Err(AllocError),
    }
}

fn subst(alloc: Global, turns: u64) -> Result<bool, AllocError> {
    let message = message(alloc)?;
    let made = op(alloc);
    match &made {
        Ok(op) => rewrite(alloc, op, &message, turns),
        Err(_) => Err(AllocError),
    }
}

/// Does this so many times. Whether it was done.
pub(crate) fn run(alloc: Global, what: &str, turns: u64) -> Result<bool, AllocError> {
    match what {
        "match" => matched(alloc, turns),
        "subst" => subst(alloc, turns),
        _ => Ok(false),
    }
}
