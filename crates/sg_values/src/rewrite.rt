// Rewrites.
ghost use Rattle.std.specs.Prelude.{◌≡◌};
ghost use Rattle.std.specs.List.{flat_map};
ghost use Rattle.sg_fault.specs.Faults.{least};
ghost use Rattle.sg_values.specs.Calls.{named_faults, subst_faults, group_faults, own_faults};
ghost use Rattle.sg_values.specs.Conditions.{test_faults, condition_faults, rewrite_faults};

use crate::expression::expression_fault;
use crate::pattern::pattern_fault;
use crate::setting::{globs_fault, hards_fault, missing, names_fault};
use sg_fault::{Placed, earlier};
use sg_options::{args_of, is_called, nested_of};
use sg_parse_expr::{Arg, Call};

#[tactic(auto, using(sg_fault::proofs::Least::least_append), unfolding(sg_options::specs::Settings::word_of))]
fn named_fault(call: &Call) -> Option<Placed>
    ensures { result ≡ least (named_faults call.now) }
{
    let value = earlier(missing(b"value", call), names_fault(args_of(call)));
    earlier(value, hards_fault(&call.word, args_of(call)))
}

#[tactic(auto, using(sg_fault::proofs::Least::least_append))]
fn subst_fault(call: &Call) -> Option<Placed>
    ensures { result ≡ least (subst_faults call.now) }
{
    earlier(named_fault(call), pattern_fault(args_of(call)))
}

#[tactic(auto, using(sg_fault::proofs::Least::least_append))]
fn group_fault(call: &Call) -> Option<Placed>
    ensures { result ≡ least (group_faults call.now) }
{
    earlier(missing(b"values", call), globs_fault(args_of(call)))
}

#[tactic(auto, unfolding(crate::specs::Calls::own_faults))]
fn own_fault(call: &Call) -> Option<Placed>
    ensures { result ≡ least (own_faults call.now) }
{
    if is_called(&[b"set", b"unset"], call) {
        return named_fault(call);
    }
    if is_called(&[b"subst"], call) {
        return subst_fault(call);
    }
    if is_called(&[b"groupset", b"groupunset"], call) {
        return group_fault(call);
    }
    None
}

#[tactic(auto, unfolding(crate::specs::Conditions::test_faults))]
fn test_fault(arg: &Arg) -> Option<Placed>
    ensures { result ≡ least (test_faults arg.now) }
{
    match arg {
        Arg::Test(expr) => expression_fault(expr),
        _ => None,
    }
}

fn tests_fault(args: &[Arg]) -> Option<Placed>
    ensures { result ≡ least (flat_map test_faults args.now) }
{
    let mut first = None;
    for arg in args {
        first = earlier(first, test_fault(arg));
    }
    first
}

fn condition_fault(arg: &Arg) -> Option<Placed>
    ensures { result ≡ least (condition_faults arg.now) }
{
    match nested_of(arg) {
        Some(option) => tests_fault(args_of(option)),
        None => None,
    }
}

fn conditions_fault(args: &[Arg]) -> Option<Placed>
    ensures { result ≡ least (flat_map condition_faults args.now) }
{
    let mut first = None;
    for arg in args {
        first = earlier(first, condition_fault(arg));
    }
    first
}

/// The first fault of a rewrite's values: `MissingOption` and `HardMacro` at the rewrite where `value` or
/// `values` is missing or a name is a macro's; `BadValue` at a name that hasn't 1 to 255 bytes, at a pattern or a
/// glob of more than 1,000 bytes, and as `filter_fault` says in its conditions and of its pattern.
#[tactic(auto, using(sg_fault::proofs::Least::least_append), unfolding(crate::specs::Conditions::rewrite_faults))]
pub fn rewrite_fault(call: &Call) -> Option<Placed>
    ensures { result ≡ least (rewrite_faults call.now) }
{
    earlier(own_fault(call), conditions_fault(args_of(call)))
}
