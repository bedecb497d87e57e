// Filters.
ghost use Rattle.std.specs.Prelude.{◌≡◌};
ghost use Rattle.sg_parse_base.specs.Input.{ReadsTokens};
ghost use Rattle.sg_parse_expr.specs.Filters as spec;

use crate::args::{call_of, flat_args, named};
use crate::class::Class;
use crate::form::{FilterForm, FilterTable, filter_form, filter_option};
use crate::tree::{Arg, Call};
use sg_parse_base::{Cursor, ItemRule, ParseStop, unsupported, word};
use sqlite_items::Items;
use std::alloc::Global;

#[tactic(auto, unfolding(crate::specs::Filters::filter_option, crate::specs::Args::nested, crate::specs::Args::called))]
fn read_option(alloc: Global, cursor: &mut Cursor<'_>, table: FilterTable) -> Result<Arg, ParseStop>
    ensures { ReadsTokens (spec.filter_option table cursor.old) result cursor.new }
{
    let spot = word(cursor)?;
    let Some(form) = filter_option(table, spot.token.text.bytes()) else {
        return Err(unsupported(&spot));
    };
    let args = flat_args(alloc, cursor, form)?;
    Ok(Arg::Nested(call_of(spot, args)))
}

#[derive(Drop)]
struct FilterOption {
    table: FilterTable,
}

impl ItemRule for FilterOption {
    type Item = Arg;

    ghost parser = { λ rule. spec.filter_option rule.table };

    fn read(&self, alloc: Global, cursor: &mut Cursor<'_>) -> Result<Arg, ParseStop> {
        read_option(alloc, cursor, self.table)
    }
}

#[tactic(auto, unfolding(crate::specs::Filters::filter_args))]
fn filter_args(
    alloc: Global,
    cursor: &mut Cursor<'_>,
    form: FilterForm,
) -> Result<Items<Arg>, ParseStop>
    ensures { ReadsTokens (spec.filter_args form cursor.old) result cursor.new }
{
    match form {
        FilterForm::Flat(flat) => flat_args(alloc, cursor, flat),
        FilterForm::Pattern(table) => named(alloc, cursor, Class::Name, &FilterOption { table }),
    }
}

/// A filter: its word and its arguments.
#[tactic(auto, unfolding(crate::specs::Filters::filter_call, crate::specs::Args::called))]
pub fn filter_call(alloc: Global, cursor: &mut Cursor<'_>) -> Result<Call, ParseStop>
    ensures { ReadsTokens (spec.filter_call cursor.old) result cursor.new }
{
    let spot = word(cursor)?;
    let Some(form) = filter_form(spot.token.text.bytes()) else {
        return Err(unsupported(&spot));
    };
    let args = filter_args(alloc, cursor, form)?;
    Ok(call_of(spot, args))
}
