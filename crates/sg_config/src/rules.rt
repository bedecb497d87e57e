// How the records of each inlet are read: as its driver says.
ghost use Rattle.std.specs.Prelude.{◌≡◌, ◌++◌, map, slice_get, IfOk, OnOk};
ghost use Rattle.std.specs.Option.{option_copied};
ghost use Rattle.sg_tree.specs.Readings.{inlet_of};
ghost use Rattle.sg_config.specs.Readings.{reading_of, readings_at, readings_of};

use sg_device::{Name, NoMemory};
use sg_run_plan::InletPlan;
use sg_source::SourceDriver;
use sg_tree::InletRule;
use std::alloc::Global;

fn copied_names(alloc: Global, names: &[Name]) -> Result<Vec<Name>, NoMemory>
    ensures { IfOk result (λ copies. copies.items ≡ names.now) }
{
    let mut copies = Vec::new(alloc);
    for name in names {
        copies.push(name.copy()?)?;
    }
    Ok(copies)
}

fn rule_of(alloc: Global, driver: &SourceDriver) -> Result<InletRule, NoMemory>
    ensures { IfOk result (λ rule. inlet_of rule ≡ reading_of driver.now) }
{
    Ok(InletRule {
        opts: driver.opts,
        rfc5424: driver.rfc5424,
        empty_lines: driver.empty_lines,
        one_line: driver.one_line,
        tags: copied_names(alloc, driver.tags.as_slice())?,
    })
}

fn add_rule(
    alloc: Global,
    rules: &mut Vec<InletRule>,
    driver: Option<&SourceDriver>,
) -> Result<(), NoMemory>
    ensures { OnOk result (map inlet_of rules.new.items
        ≡ map inlet_of rules.old.items ++ readings_at (option_copied driver.entry)) }
{
    match driver {
        Some(driver) => {
            rules.push(rule_of(alloc, driver)?)?;
            Ok(())
        }
        None => Ok(()),
    }
}

fn driver_at(drivers: &[SourceDriver], number: u32) -> Option<&SourceDriver>
    ensures { option_copied result ≡ slice_get drivers.now number }
{
    drivers.get(number as usize)
}

/// The rule of each inlet, by its driver.
pub fn rules_of(
    alloc: Global,
    drivers: &[SourceDriver],
    inlets: &[InletPlan],
) -> Result<Vec<InletRule>, NoMemory>
    ensures { IfOk result (λ rules. map inlet_of rules.items ≡ readings_of drivers.now inlets.now) }
{
    let mut rules = Vec::new(alloc);
    for inlet in inlets {
        add_rule(alloc, &mut rules, driver_at(drivers, inlet.driver))?;
    }
    Ok(rules)
}
