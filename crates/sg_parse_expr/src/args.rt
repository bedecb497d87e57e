// Arguments in parentheses.
ghost use Rattle.std.specs.Prelude.{◌≡◌};
ghost use Rattle.sg_parse_base.specs.Input.{ReadsTokens};
ghost use Rattle.sg_parse_expr.specs.Args as spec;

use crate::class::Class;
use crate::form::Flat;
use crate::tree::{Arg, Call};
use crate::values::value;
use sg_parse_base::{
    Cursor, ItemRule, ParseStop, Spot, gap, items, many, next_is_dots, single, skipped, symbol,
};
use sqlite_items::Items;
use std::alloc::Global;

/// A call of a word with these arguments.
#[tactic(auto, unfolding(crate::specs::Args::call_of))]
pub fn call_of(word: Spot, args: Items<Arg>) -> Call
    ensures { result ≡ spec.call_of word args }
{
    Call { word, args }
}

#[tactic(auto, unfolding(crate::specs::Args::range, sg_parse_base::specs::Input::sees_dots))]
fn range(alloc: Global, cursor: &mut Cursor<'_>, class: Class) -> Result<Arg, ParseStop>
    ensures { ReadsTokens (spec.range class cursor.old) result cursor.new }
{
    let low = value(alloc, cursor, class)?;
    if !next_is_dots(cursor) {
        return Ok(Arg::Item(low));
    }
    cursor.skip();
    let high = value(alloc, cursor, class)?;
    Ok(Arg::Range(low, high))
}

#[derive(Drop)]
struct Value {
    class: Class,
}

impl ItemRule for Value {
    type Item = Arg;

    ghost parser = { λ rule. spec.item rule.class };

    #[tactic(auto, unfolding(crate::specs::Args::item))]
    fn read(&self, alloc: Global, cursor: &mut Cursor<'_>) -> Result<Arg, ParseStop> {
        Ok(Arg::Item(value(alloc, cursor, self.class)?))
    }
}

#[derive(Drop)]
struct SpanRule {
    class: Class,
}

impl ItemRule for SpanRule {
    type Item = Arg;

    ghost parser = { λ rule. spec.range rule.class };

    fn read(&self, alloc: Global, cursor: &mut Cursor<'_>) -> Result<Arg, ParseStop> {
        range(alloc, cursor, self.class)
    }
}

#[tactic(auto, unfolding(crate::specs::Args::no_args))]
fn no_args(alloc: Global, cursor: &mut Cursor<'_>) -> Result<Items<Arg>, ParseStop>
    ensures { ReadsTokens (spec.no_args cursor.old) result cursor.new }
{
    skipped(alloc, cursor)?;
    Ok(Items::new(alloc))
}

/// Arguments of this form, in parentheses.
#[tactic(auto, unfolding(crate::specs::Args::flat_args))]
pub fn flat_args(
    alloc: Global,
    cursor: &mut Cursor<'_>,
    form: Flat,
) -> Result<Items<Arg>, ParseStop>
    ensures { ReadsTokens (spec.flat_args form cursor.old) result cursor.new }
{
    match form {
        Flat::Skipped => no_args(alloc, cursor),
        Flat::One(class) => single(alloc, cursor, &Value { class }),
        Flat::Many(class) => many(alloc, cursor, &Value { class }),
        Flat::Ranges(class) => many(alloc, cursor, &SpanRule { class }),
    }
}

#[tactic(auto, unfolding(crate::specs::Args::options_behind))]
fn options_behind<R: ItemRule<Item = Arg>>(
    alloc: Global,
    cursor: &mut Cursor<'_>,
    option: &R,
    found: Items<Arg>,
) -> Result<Items<Arg>, ParseStop>
    ensures { ReadsTokens (spec.options_behind (R.parser option.now) found cursor.old) result
        cursor.new }
{
    gap(cursor)?;
    items(alloc, cursor, option, found)
}

/// A value and options, in parentheses.
#[tactic(auto, unfolding(crate::specs::Args::named))]
pub fn named<R: ItemRule<Item = Arg>>(
    alloc: Global,
    cursor: &mut Cursor<'_>,
    class: Class,
    option: &R,
) -> Result<Items<Arg>, ParseStop>
    ensures { ReadsTokens (spec.named class (R.parser option.now) cursor.old) result cursor.new }
{
    let mut found = Items::new(alloc);
    symbol(cursor, b'(')?;
    found.push(Arg::Item(value(alloc, cursor, class)?))?;
    options_behind(alloc, cursor, option, found)
}

/// Two values and options, in parentheses.
#[tactic(auto, unfolding(crate::specs::Args::paired))]
pub fn paired<R: ItemRule<Item = Arg>>(
    alloc: Global,
    cursor: &mut Cursor<'_>,
    classes: (Class, Class),
    option: &R,
) -> Result<Items<Arg>, ParseStop>
    ensures { ReadsTokens (spec.paired classes.0 classes.1 (R.parser option.now) cursor.old) result
        cursor.new }
{
    let mut found = Items::new(alloc);
    symbol(cursor, b'(')?;
    found.push(Arg::Item(value(alloc, cursor, classes.0)?))?;
    gap(cursor)?;
    found.push(Arg::Item(value(alloc, cursor, classes.1)?))?;
    options_behind(alloc, cursor, option, found)
}
