// Filters.
ghost use Rattle.std.specs.Prelude.{◌≡◌};
ghost use Rattle.sg_fault.specs.Faults.{least};
ghost use Rattle.sg_values.specs.Calls.{match_faults, filter_faults};

use crate::pattern::pattern_fault;
use crate::range::{Scale, ranges_fault};
use crate::setting::{missing, names_fault};
use sg_fault::{Placed, earlier};
use sg_options::{args_of, is_called};
use sg_parse_expr::Call;

#[tactic(auto, using(sg_fault::proofs::Least::least_append))]
fn match_fault(call: &Call) -> Option<Placed>
    ensures { result ≡ least (match_faults call.now) }
{
    let value = earlier(missing(b"value", call), names_fault(args_of(call)));
    earlier(value, pattern_fault(args_of(call)))
}

/// The first fault of a filter's values: `BadValue` at a facility or severity that there isn't, at a pattern
/// of more than 1,000 bytes or an empty one of type `string`, at the flag `ignore-case` of a glob, at a name in
/// `value` that hasn't 1 to 255 bytes; `MissingOption` at a `match` without `value`.
#[tactic(auto, unfolding(crate::specs::Calls::filter_faults))]
pub fn filter_fault(call: &Call) -> Option<Placed>
    ensures { result ≡ least (filter_faults call.now) }
{
    if is_called(&[b"facility"], call) {
        return ranges_fault(Scale::Facility, args_of(call));
    }
    if is_called(&[b"level", b"severity", b"priority"], call) {
        return ranges_fault(Scale::Level, args_of(call));
    }
    if is_called(&[b"program", b"host", b"message"], call) {
        return pattern_fault(args_of(call));
    }
    if is_called(&[b"match"], call) {
        return match_fault(call);
    }
    None
}
