// Rewrites.
ghost use Rattle.std.specs.Prelude.{◌≡◌};
ghost use Rattle.sg_parse_base.specs.Input.{ReadsTokens};
ghost use Rattle.sg_parse_expr.specs.Rewrites as spec;

use crate::args::{call_of, flat_args, named, paired};
use crate::class::Class;
use crate::expr::expression;
use crate::form::{RewriteForm, RewriteOption, RewriteTable, rewrite_form, rewrite_option};
use crate::tree::{Arg, Call};
use sg_parse_base::{Cursor, ItemRule, ParseStop, many, symbol, unsupported, word};
use sqlite_items::Items;
use std::alloc::Global;

#[tactic(auto, unfolding(crate::specs::Rewrites::condition))]
fn condition(alloc: Global, cursor: &mut Cursor<'_>, depth: usize) -> Result<Items<Arg>, ParseStop>
    ensures { ReadsTokens (spec.condition depth cursor.old) result cursor.new }
{
    let mut found = Items::new(alloc);
    symbol(cursor, b'(')?;
    found.push(Arg::Test(expression(alloc, cursor, depth)?))?;
    symbol(cursor, b')')?;
    Ok(found)
}

#[tactic(auto, unfolding(crate::specs::Rewrites::option_args))]
fn option_args(
    alloc: Global,
    cursor: &mut Cursor<'_>,
    form: RewriteOption,
    depth: usize,
) -> Result<Items<Arg>, ParseStop>
    ensures { ReadsTokens (spec.option_args depth form cursor.old) result cursor.new }
{
    match form {
        RewriteOption::Flat(flat) => flat_args(alloc, cursor, flat),
        RewriteOption::Condition => condition(alloc, cursor, depth),
    }
}

#[tactic(auto, unfolding(crate::specs::Rewrites::rewrite_option, crate::specs::Args::nested, crate::specs::Args::called))]
fn read_option(
    alloc: Global,
    cursor: &mut Cursor<'_>,
    table: RewriteTable,
    depth: usize,
) -> Result<Arg, ParseStop>
    ensures { ReadsTokens (spec.rewrite_option depth table cursor.old) result cursor.new }
{
    let spot = word(cursor)?;
    let Some(form) = rewrite_option(table, spot.token.text.bytes()) else {
        return Err(unsupported(&spot));
    };
    let args = option_args(alloc, cursor, form, depth)?;
    Ok(Arg::Nested(call_of(spot, args)))
}

#[derive(Drop)]
struct RewriteChoices {
    table: RewriteTable,
    depth: usize,
}

impl ItemRule for RewriteChoices {
    type Item = Arg;

    ghost parser = { λ rule. spec.rewrite_option rule.depth rule.table };

    fn read(&self, alloc: Global, cursor: &mut Cursor<'_>) -> Result<Arg, ParseStop> {
        read_option(alloc, cursor, self.table, self.depth)
    }
}

#[tactic(auto, unfolding(crate::specs::Rewrites::rewrite_args))]
fn rewrite_args(
    alloc: Global,
    cursor: &mut Cursor<'_>,
    form: RewriteForm,
    depth: usize,
) -> Result<Items<Arg>, ParseStop>
    ensures { ReadsTokens (spec.rewrite_args depth form cursor.old) result cursor.new }
{
    match form {
        RewriteForm::Options(table) => many(alloc, cursor, &RewriteChoices { table, depth }),
        RewriteForm::Named(class, table) => named(
            alloc,
            cursor,
            class,
            &RewriteChoices { table, depth },
        ),
        RewriteForm::Pattern(table) => {
            let classes = (Class::Name, Class::Template);
            paired(alloc, cursor, classes, &RewriteChoices { table, depth })
        }
    }
}

/// A rewrite: its word and its arguments. Groups in its condition may be nested so deep.
#[tactic(auto, unfolding(crate::specs::Rewrites::rewrite_call, crate::specs::Args::called))]
pub fn rewrite_call(alloc: Global, cursor: &mut Cursor<'_>, depth: usize) -> Result<Call, ParseStop>
    ensures { ReadsTokens (spec.rewrite_call depth cursor.old) result cursor.new }
{
    let spot = word(cursor)?;
    let Some(form) = rewrite_form(spot.token.text.bytes()) else {
        return Err(unsupported(&spot));
    };
    let args = rewrite_args(alloc, cursor, form, depth)?;
    Ok(call_of(spot, args))
}
