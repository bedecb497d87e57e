// The first fault of all.
ghost use Rattle.std.specs.Prelude.{◌≡◌, ◌<◌, ◌^◌, length, IfOk};
ghost use Rattle.sg_resolve.specs.First.{IsFirstFault};

use crate::drivers::count_drivers;
use crate::options::globals_fault;
use crate::place::places_fault;
use crate::templates::templates_of;
use sg_device::NoMemory;
use sg_fault::{Placed, earlier};
use sg_names::check_names;
use sg_parse_text::Statement;
use sg_values::values_fault;
use std::alloc::Global;

/// The first thing that is wrong with the statements of a configuration, by its place and then by its kind:
/// what `sg_names::check_names`, `sg_values::values_fault`, `sg_driver::options_fault`, `sg_source::source_fault`
/// and `sg_destination::destination_fault` say, too many drivers or two with one store, and what stands where it may
/// stand in a top-level log statement alone.
pub fn first_fault(alloc: Global, statements: &[Statement]) -> Result<Option<Placed>, NoMemory>
    requires { length statements.now < 2 ^ 32 }
    ensures { IfOk result (IsFirstFault statements.now) }
{
    let (_, names) = check_names(alloc, statements)?;
    let texts = templates_of(alloc, statements)?;
    let count = count_drivers(alloc, &texts, statements)?;
    let values = earlier(values_fault(statements), globals_fault(statements));
    let rest = earlier(count.first, places_fault(statements));
    Ok(earlier(names, earlier(values, rest)))
}
