// One filter.
ghost use Rattle.std.specs.Prelude.{◌≡◌, IfOk};
ghost use Rattle.std.specs.Option.{option_copied};
ghost use Rattle.sg_options.specs.Settings.{first_item};
ghost use Rattle.sg_lower.specs.Filters.{field, field_name, field_expr, named, filter_expr};

use crate::pattern::pattern_of;
use crate::range::{PriorityScale, ranges_of};
use crate::value::{texts_of, value_name};
use sg_device::{Name, NoMemory};
use sg_filter::Expr;
use sg_names::{NameKind, Names};
use sg_options::{args_of, is_called, item_of, text_of};
use sg_parse_base::Spot;
use sg_parse_expr::{Arg, Call};
use sqlite_items::Items;
use std::alloc::Global;

/// The first argument.
pub fn first_item(args: &[Arg]) -> Option<&Spot>
    ensures { option_copied result ≡ first_item args.now }
{
    match args {
        [first, ..] => item_of(first),
        [] => None,
    }
}

fn field(alloc: Global, name: Name, args: &[Arg]) -> Result<Expr, NoMemory>
    ensures { IfOk result (λ expr. expr ≡ field name args.now) }
{
    Ok(Expr::Field {
        name,
        pattern: pattern_of(alloc, first_item(args), args)?,
    })
}

/// The filter statement that the argument names: nothing passes where there is none.
fn named(alloc: Global, names: &Names, args: &[Arg]) -> Expr
    ensures { result ≡ named names.now args.now }
{
    match names.place(NameKind::Filter, text_of(first_item(args))) {
        Some(place) => Expr::Named(place),
        None => Expr::Or(Items::new(alloc)),
    }
}

/// What a filter asks of a message.
#[tactic(auto, unfolding(crate::specs::Filters::filter_expr))]
pub fn filter_expr(alloc: Global, names: &Names, call: &Call) -> Result<Expr, NoMemory>
    ensures { IfOk result (λ expr. expr ≡ filter_expr names.now call.now) }
{
    if is_called(&[b"facility"], call) {
        let ranges = ranges_of(alloc, PriorityScale::Facility, args_of(call))?;
        return Ok(Expr::Facility(ranges));
    }
    if is_called(&[b"level", b"severity", b"priority"], call) {
        let ranges = ranges_of(alloc, PriorityScale::Level, args_of(call))?;
        return Ok(Expr::Level(ranges));
    }
    if is_called(&[b"tags"], call) {
        let tags = texts_of(alloc, args_of(call))?;
        return Ok(Expr::Tags(tags));
    }
    if is_called(&[b"filter"], call) {
        return Ok(named(alloc, names, args_of(call)));
    }
    field_expr(alloc, call)
}

/// A filter with a pattern.
fn field_expr(alloc: Global, call: &Call) -> Result<Expr, NoMemory>
    ensures { IfOk result (λ expr. expr ≡ field_expr call.now) }
{
    let name = field_name(alloc, call)?;
    Ok(field(alloc, name, args_of(call))?)
}

/// The name whose value it looks at.
fn field_name(alloc: Global, call: &Call) -> Result<Name, NoMemory>
    ensures { IfOk result (λ name. name ≡ field_name call.now) }
{
    if is_called(&[b"program"], call) {
        return Name::new(alloc, b"PROGRAM");
    }
    if is_called(&[b"host"], call) {
        return Name::new(alloc, b"HOST");
    }
    if is_called(&[b"message"], call) {
        return Name::new(alloc, b"MESSAGE");
    }
    value_name(alloc, args_of(call))
}
