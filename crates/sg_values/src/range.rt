// Facilities and severities.
ghost use Rattle.std.specs.Prelude.{◌≡◌};
ghost use Rattle.std.specs.List.{flat_map};
ghost use Rattle.sg_fault.specs.Faults.{least};
ghost use Rattle.sg_values.specs.Ranges.{has, number_faults, range_faults};

use sg_fault::{Placed, earlier};
use sg_options::{bad_value, facility_number, level_number};
use sg_parse_base::Spot;
use sg_parse_expr::Arg;

/// What numbers are of.
#[derive(Clone, Copy, Drop)]
pub enum Scale {
    Facility,
    /// A severity.
    Level,
}

fn has(scale: Scale, text: &[u8]) -> bool
    ensures { result ≡ has scale text.now }
{
    match scale {
        Scale::Facility => facility_number(text).is_some(),
        Scale::Level => level_number(text).is_some(),
    }
}

fn number_fault(scale: Scale, spot: &Spot) -> Option<Placed>
    ensures { result ≡ least (number_faults scale spot.now) }
{
    if has(scale, spot.token.text.bytes()) {
        return None;
    }
    Some(bad_value(spot))
}

#[tactic(auto, using(sg_fault::proofs::Least::least_append), unfolding(crate::specs::Ranges::range_faults))]
fn range_fault(scale: Scale, arg: &Arg) -> Option<Placed>
    ensures { result ≡ least (range_faults scale arg.now) }
{
    match arg {
        Arg::Item(spot) => number_fault(scale, spot),
        Arg::Range(low, high) => earlier(number_fault(scale, low), number_fault(scale, high)),
        _ => None,
    }
}

/// The first number that the scale doesn't have.
pub fn ranges_fault(scale: Scale, args: &[Arg]) -> Option<Placed>
    ensures { result ≡ least (flat_map (range_faults scale) args.now) }
{
    let mut first = None;
    for arg in args {
        first = earlier(first, range_fault(scale, arg));
    }
    first
}
