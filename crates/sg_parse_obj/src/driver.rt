// Drivers and options.
ghost use Rattle.std.specs.Prelude.{◌≡◌};
ghost use Rattle.sg_parse_base.specs.Input.{ReadsTokens};
ghost use Rattle.sg_parse_obj.specs.Drivers as spec;

use crate::table::{
    DriverForm, OptionForm, OptionTable, destination_driver, disk_form, global_form, option_form,
    source_driver,
};
use sg_parse_base::{Cursor, ItemRule, ParseStop, body, many, unsupported, word};
use sg_parse_expr::{Arg, Call, call_of, flat_args, named};
use sqlite_items::Items;
use std::alloc::Global;

/// What drivers stand in.
#[derive(Clone, Copy, Drop)]
pub enum Side {
    Source,
    Destination,
}

#[tactic(auto, unfolding(crate::specs::Drivers::disk_option, sg_parse_expr::specs::Args::nested, sg_parse_expr::specs::Args::called))]
fn disk_option(alloc: Global, cursor: &mut Cursor<'_>) -> Result<Arg, ParseStop>
    ensures { ReadsTokens (spec.disk_option cursor.old) result cursor.new }
{
    let spot = word(cursor)?;
    let Some(form) = disk_form(spot.token.text.bytes()) else {
        return Err(unsupported(&spot));
    };
    let args = flat_args(alloc, cursor, form)?;
    Ok(Arg::Nested(call_of(spot, args)))
}

#[derive(Drop)]
struct DiskOption;

impl ItemRule for DiskOption {
    type Item = Arg;

    ghost parser = { λ _. spec.disk_option };

    fn read(&self, alloc: Global, cursor: &mut Cursor<'_>) -> Result<Arg, ParseStop> {
        disk_option(alloc, cursor)
    }
}

#[tactic(auto, unfolding(crate::specs::Drivers::option_args))]
fn option_args(
    alloc: Global,
    cursor: &mut Cursor<'_>,
    form: OptionForm,
) -> Result<Items<Arg>, ParseStop>
    ensures { ReadsTokens (spec.option_args form cursor.old) result cursor.new }
{
    match form {
        OptionForm::Flat(flat) => flat_args(alloc, cursor, flat),
        OptionForm::Disk => many(alloc, cursor, &DiskOption),
    }
}

#[tactic(auto, unfolding(crate::specs::Drivers::driver_option, sg_parse_expr::specs::Args::nested, sg_parse_expr::specs::Args::called))]
fn driver_option(
    alloc: Global,
    cursor: &mut Cursor<'_>,
    table: OptionTable,
) -> Result<Arg, ParseStop>
    ensures { ReadsTokens (spec.driver_option table cursor.old) result cursor.new }
{
    let spot = word(cursor)?;
    let Some(form) = option_form(table, spot.token.text.bytes()) else {
        return Err(unsupported(&spot));
    };
    let args = option_args(alloc, cursor, form)?;
    Ok(Arg::Nested(call_of(spot, args)))
}

#[derive(Drop)]
struct DriverOption {
    table: OptionTable,
}

impl ItemRule for DriverOption {
    type Item = Arg;

    ghost parser = { λ rule. spec.driver_option rule.table };

    fn read(&self, alloc: Global, cursor: &mut Cursor<'_>) -> Result<Arg, ParseStop> {
        driver_option(alloc, cursor, self.table)
    }
}

#[tactic(auto, unfolding(crate::specs::Drivers::driver_args))]
fn driver_args(
    alloc: Global,
    cursor: &mut Cursor<'_>,
    form: DriverForm,
) -> Result<Items<Arg>, ParseStop>
    ensures { ReadsTokens (spec.driver_args form cursor.old) result cursor.new }
{
    match form {
        DriverForm::Options(table) => many(alloc, cursor, &DriverOption { table }),
        DriverForm::Named(class, table) => named(alloc, cursor, class, &DriverOption { table }),
    }
}

#[tactic(auto, unfolding(crate::specs::Drivers::driver_form))]
fn driver_form(side: Side, text: &[u8]) -> Option<DriverForm>
    ensures { result ≡ spec.driver_form side text.now }
{
    match side {
        Side::Source => source_driver(text),
        Side::Destination => destination_driver(text),
    }
}

#[tactic(auto, unfolding(crate::specs::Drivers::driver, sg_parse_expr::specs::Args::called))]
fn read_driver(alloc: Global, cursor: &mut Cursor<'_>, side: Side) -> Result<Call, ParseStop>
    ensures { ReadsTokens (spec.driver side cursor.old) result cursor.new }
{
    let spot = word(cursor)?;
    let Some(form) = driver_form(side, spot.token.text.bytes()) else {
        return Err(unsupported(&spot));
    };
    let args = driver_args(alloc, cursor, form)?;
    Ok(call_of(spot, args))
}

#[derive(Drop)]
struct DriverRule {
    side: Side,
}

impl ItemRule for DriverRule {
    type Item = Call;

    ghost parser = { λ rule. spec.driver rule.side };

    fn read(&self, alloc: Global, cursor: &mut Cursor<'_>) -> Result<Call, ParseStop> {
        read_driver(alloc, cursor, self.side)
    }
}

/// The drivers of a source or a destination, in braces.
#[tactic(auto, unfolding(crate::specs::Drivers::drivers))]
pub fn drivers(alloc: Global, cursor: &mut Cursor<'_>, side: Side) -> Result<Items<Call>, ParseStop>
    ensures { ReadsTokens (spec.drivers side cursor.old) result cursor.new }
{
    body(alloc, cursor, &DriverRule { side })
}

#[tactic(auto, unfolding(crate::specs::Drivers::global_option, sg_parse_expr::specs::Args::called))]
fn global_option(alloc: Global, cursor: &mut Cursor<'_>) -> Result<Call, ParseStop>
    ensures { ReadsTokens (spec.global_option cursor.old) result cursor.new }
{
    let spot = word(cursor)?;
    let Some(form) = global_form(spot.token.text.bytes()) else {
        return Err(unsupported(&spot));
    };
    let args = flat_args(alloc, cursor, form)?;
    Ok(call_of(spot, args))
}

/// A global option.
#[derive(Drop)]
pub struct GlobalOption;

impl ItemRule for GlobalOption {
    type Item = Call;

    ghost parser = { λ _. spec.global_option };

    fn read(&self, alloc: Global, cursor: &mut Cursor<'_>) -> Result<Call, ParseStop> {
        global_option(alloc, cursor)
    }
}
