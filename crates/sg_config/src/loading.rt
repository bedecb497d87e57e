// Tokens to a configuration.
ghost use Rattle.std.specs.Prelude.{◌<◌, ◌^◌, length, None, IfOk};
ghost use Rattle.sg_resolve.specs.First.{IsFirstFault as HasFirstFault};
ghost use Rattle.sg_config.specs.Means.{IsConfigOf, Resolves, Loads};

use crate::rules::rules_of;
use crate::{Config, LoadRefusal};
use sg_device::NoMemory;
use sg_fault::fault_at;
use sg_forest::forest_of;
use sg_lex::Token;
use sg_names::names_of;
use sg_parse_obj::ParseRefusal;
use sg_parse_text::{Statement, statements};
use sg_plan::{Plan, plan_of, plans_are_within};
use sg_resolve::first_fault;
use std::alloc::Global;

/// What statements come to with which nothing is wrong.
fn config_of(alloc: Global, statements: &[Statement]) -> Result<Config, NoMemory>
    requires count { length statements.now < 2 ^ 32 }
    requires faultless { HasFirstFault statements.now None }
    ensures { IfOk result (IsConfigOf statements.now) }
{
    plans_are_within();
    let (names, _) = names_of(alloc, statements)?;
    let Plan {
        ends,
        sources,
        setup,
        inlets,
        outlets,
        stores,
    } = plan_of(alloc, statements)?;
    let rules = rules_of(alloc, sources.as_slice(), inlets.as_slice())?;
    let forest = forest_of(alloc, &names, &ends, rules, statements)?;
    Ok(Config {
        forest,
        setup,
        inlets,
        outlets,
        stores,
    })
}

fn resolve(alloc: Global, statements: &[Statement]) -> Result<Config, LoadRefusal>
    requires { length statements.now < 2 ^ 32 }
    ensures { Resolves statements.now result }
{
    match first_fault(alloc, statements)? {
        Some(placed) => Err(LoadRefusal::Bad(fault_at(placed))),
        None => Ok(config_of(alloc, statements)?),
    }
}

/// What tokens mean, as syslog-ng's administration guide describes configurations, or what is wrong with them:
/// the first token at which they are no statements (kinds 9 to 14), or else what `sg_resolve::first_fault` finds
/// (kinds 13, 14, 20 to 24 and 26 to 28). Patterns aren't made, so that kinds 25, 29 and 30 are `sg_table::compile`'s.
pub fn load(alloc: Global, tokens: &[Token]) -> Result<Config, LoadRefusal>
    requires { length tokens.now < 2 ^ 32 }
    ensures { Loads tokens.now result }
{
    match statements(alloc, tokens) {
        Ok(found) => resolve(alloc, found.as_slice()),
        Err(ParseRefusal::Bad(fault)) => Err(LoadRefusal::Bad(fault)),
        Err(ParseRefusal::NoMemory) => Err(LoadRefusal::NoMemory),
    }
}
