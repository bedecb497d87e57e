// The global options and the templates of a configuration.
ghost use Rattle.std.specs.Prelude.{◌≡◌, IfOk};
ghost use Rattle.sg_driver.specs.Defaults.{AreDefaults};
ghost use Rattle.sg_plan.specs.Globals.{with_statement, defaults_of, globals_of};

use sg_device::NoMemory;
use sg_driver::Defaults;
use sg_parse_obj::Object;
use sg_parse_text::Statement;
use sg_resolve::{TemplateTexts, templates_of};
use std::alloc::Global;

/// What stands for options that drivers leave out, and the texts of templates by their names.
#[derive(Drop)]
pub struct Globals {
    pub defaults: Defaults,
    pub texts: TemplateTexts,
}

fn with_statement(defaults: Defaults, statement: &Statement) -> Defaults
    requires { AreDefaults defaults }
    ensures value { result ≡ with_statement defaults statement.now }
    ensures sound { AreDefaults result }
{
    match statement {
        Statement::Object(Object::Options(calls)) => defaults.with_options(calls.as_slice()),
        _ => defaults,
    }
}

fn defaults_of(statements: &[Statement]) -> Defaults
    ensures value { result ≡ defaults_of statements.now }
    ensures sound { AreDefaults result }
{
    let mut defaults = Defaults::new();
    for statement in statements {
        defaults = with_statement(defaults, statement);
    }
    defaults
}

pub fn globals_of(alloc: Global, statements: &[Statement]) -> Result<Globals, NoMemory>
    ensures value { IfOk result (λ globals. globals ≡ globals_of statements.now) }
    ensures sound { IfOk result (λ globals. AreDefaults globals.defaults) }
{
    Ok(Globals {
        defaults: defaults_of(statements),
        texts: templates_of(alloc, statements)?,
    })
}
