// The global options.
ghost use Rattle.std.specs.Prelude.{◌≡◌};
ghost use Rattle.sg_fault.specs.Faults.{least};
ghost use Rattle.sg_resolve.specs.Globals.{statement_faults, globals_faults};

use sg_driver::options_fault;
use sg_fault::{Placed, earlier};
use sg_parse_obj::Object;
use sg_parse_text::Statement;

fn statement_fault(statement: &Statement) -> Option<Placed>
    ensures { result ≡ least (statement_faults statement.now) }
{
    match statement {
        Statement::Object(Object::Options(calls)) => options_fault(calls.as_slice()),
        _ => None,
    }
}

/// The first fault of the statements `options`.
#[tactic(auto, unfolding(crate::specs::Globals::globals_faults))]
pub fn globals_fault(statements: &[Statement]) -> Option<Placed>
    ensures { result ≡ least (globals_faults statements.now) }
{
    let mut first = None;
    for statement in statements {
        first = earlier(first, statement_fault(statement));
    }
    first
}
