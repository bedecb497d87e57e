// What is wrong with the names of a configuration.
ghost use Rattle.std.specs.Prelude.{◌≡◌, ◌<◌, ◌^◌, length, slice_get, IfOk};
ghost use Rattle.sg_names.specs.Registers.{names_of};
ghost use Rattle.sg_names.specs.Faults.{IsNamesRest, IsNamesFault, cycle_at, limits};

use crate::filters::{Filters, filters_of};
use crate::limit::{large_expression, large_total};
use crate::names::{Names, names_of};
use crate::part::NameUse;
use crate::paths::parts_of;
use crate::size::{MOST, parser_sizes, rewrite_sizes};
use crate::unknown::unknown_fault;
use sg_fault::{Placed, earlier};
use sg_graph::{first_on_cycle, sizes};
use sg_lex::ConfigKind;
use sg_parse_text::Statement;
use std::alloc::{AllocError, Global};

fn cycle_at(filters: &Filters, place: u32) -> Option<Placed>
    ensures { result ≡ cycle_at (slice_get filters.now.lines place) }
{
    match filters.lines.get(place as usize) {
        Some(line) => Some(Placed {
            kind: ConfigKind::FilterCycle,
            line: *line,
        }),
        None => None,
    }
}

/// The first expression that is too large, or with which all become so.
fn limits_fault(
    alloc: Global,
    names: &Names,
    sizes: &[u64],
    statements: &[Statement],
    parts: &[NameUse],
) -> Result<Option<Placed>, AllocError>
    ensures { IfOk result (λ fault. fault ≡ limits names.now sizes.now statements.now parts.now) }
{
    let rewrites = rewrite_sizes(alloc, names, sizes, statements)?;
    let one = large_expression(sizes, parts);
    let parsers = parser_sizes(alloc, statements)?;
    let all = large_total(sizes, rewrites.as_slice(), parsers.as_slice(), parts);
    Ok(earlier(one, all))
}

/// The first filter statement that refers to itself, or else what is wrong with the sizes.
fn rest_fault(
    alloc: Global,
    names: &Names,
    filters: &Filters,
    statements: &[Statement],
    parts: &[NameUse],
) -> Result<Option<Placed>, AllocError>
    requires count { length filters.now.links < 2 ^ 32 }
    requires own { length filters.now.own ≡ length filters.now.links }
    ensures { IfOk result (IsNamesRest names.now filters.now statements.now parts.now) }
{
    match first_on_cycle(alloc, filters.links.as_slice())? {
        Some(place) => Ok(cycle_at(filters, place)),
        None => {
            let sizes = sizes(
                alloc,
                filters.links.as_slice(),
                filters.own.as_slice(),
                MOST,
            )?;
            limits_fault(alloc, names, &sizes, statements, parts)
        }
    }
}

/// The names of a configuration, and the first fault of them: `DuplicateName` at the name of a statement that
/// one of its kind before has too; `UnknownName` where a name is referred to that no statement of its kind
/// has; `FilterCycle` at the name of the first filter statement that refers to itself, directly or through
/// others; else `Limit` where an expression begins that has more than 4,096 calls and comparisons, those of
/// the filters that it names among them, or at the part with which all expressions have more than 65,536.
pub fn check_names(
    alloc: Global,
    statements: &[Statement],
) -> Result<(Names, Option<Placed>), AllocError>
    requires { length statements.now < 2 ^ 32 }
    ensures names { IfOk result (λ x. x.0 ≡ names_of statements.now) }
    ensures fault { IfOk result (λ x. IsNamesFault statements.now x.1) }
{
    let (names, repeated) = names_of(alloc, statements)?;
    let parts = parts_of(alloc, &names, statements)?;
    let filters = filters_of(alloc, &names, statements)?;
    let unknown = unknown_fault(parts.as_slice());
    let rest = rest_fault(alloc, &names, &filters, statements, parts.as_slice())?;
    Ok((names, earlier(earlier(repeated, unknown), rest)))
}
