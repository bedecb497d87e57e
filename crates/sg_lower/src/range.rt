// Facilities and severities.
ghost use Rattle.std.specs.Prelude.{◌≡◌, ◌++◌, unwrap_or, IfOk, OnOk};
ghost use Rattle.std.specs.List.{flat_map};
ghost use Rattle.sg_lower.specs.Ranges.{number_of, range_of, ranges_in};

use sg_device::NoMemory;
use sg_options::{facility_number, level_number};
use sg_parse_expr::Arg;
use sqlite_items::Items;
use std::alloc::Global;

/// What numbers are of.
#[derive(Clone, Copy, Drop)]
pub enum PriorityScale {
    Facility,
    /// A severity.
    Level,
}

fn found(number: Option<u8>) -> u8
    ensures { result ≡ unwrap_or number 0 }
{
    match number {
        Some(number) => number,
        None => 0,
    }
}

fn number_of(scale: PriorityScale, text: &[u8]) -> u8
    ensures { result ≡ number_of scale text.now }
{
    match scale {
        PriorityScale::Facility => found(facility_number(text)),
        PriorityScale::Level => found(level_number(text)),
    }
}

fn range_of(one: u8, other: u8) -> (u8, u8)
    ensures { result ≡ range_of one other }
{
    (one.min(other), one.max(other))
}

#[tactic(auto, unfolding(crate::specs::Ranges::ranges_in))]
fn push_range(scale: PriorityScale, arg: &Arg, ranges: &mut Items<(u8, u8)>) -> Result<(), NoMemory>
    ensures { OnOk result (ranges.new ≡ ranges.old ++ ranges_in scale arg.now) }
{
    match arg {
        Arg::Item(spot) => {
            let number = number_of(scale, spot.token.text.bytes());
            ranges.push((number, number))?;
            Ok(())
        }
        Arg::Range(low, high) => {
            let one = number_of(scale, low.token.text.bytes());
            let other = number_of(scale, high.token.text.bytes());
            ranges.push(range_of(one, other))?;
            Ok(())
        }
        _ => Ok(()),
    }
}

/// The ranges of numbers that arguments say.
pub fn ranges_of(
    alloc: Global,
    scale: PriorityScale,
    args: &[Arg],
) -> Result<Items<(u8, u8)>, NoMemory>
    ensures { IfOk result (λ ranges. ranges ≡ flat_map (ranges_in scale) args.now) }
{
    let mut ranges = Items::new(alloc);
    for arg in args {
        push_range(scale, arg, &mut ranges)?;
    }
    Ok(ranges)
}
