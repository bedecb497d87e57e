// The statements of a text.
ghost use Rattle.std.specs.Prelude.{◌<◌, ◌^◌, length, IfOk};
ghost use Rattle.sg_driver.specs.Defaults.{AreDefaults};

use crate::driver::names::TemplateNames;
use sg_device::{Name, NoMemory};
use sg_driver::Defaults;
use sg_lex::{ConfigFault, Token};
use sg_parse_base::{Spot, is_symbol};
use sg_parse_obj::{Object, ParseRefusal, statement};
use std::alloc::{AllocError, Global};

/// The statements, or why there are none.
#[derive(Drop)]
pub enum Statements {
    Found(Vec<Object>),
    Bad(ConfigFault),
}

// Adds the statement at this place: where it ends, or its fault.
fn push_statement(
    alloc: Global,
    tokens: &[Token],
    at: usize,
    objects: &mut Vec<Object>,
) -> Result<Result<usize, ConfigFault>, NoMemory>
    requires { (at < length tokens.now) × (length tokens.now < 2 ^ 32) }
{
    match statement(alloc, tokens, at) {
        Ok((object, end)) => {
            objects.push(object)?;
            Ok(Ok(end))
        }
        Err(ParseRefusal::Bad(fault)) => Ok(Err(fault)),
        Err(ParseRefusal::NoMemory) => Err(AllocError),
    }
}

// The statements up to the end, each with a semicolon behind it.
pub(crate) fn read_statements(alloc: Global, tokens: &[Token]) -> Result<Statements, NoMemory>
    requires { length tokens.now < 2 ^ 32 }
{
    let mut objects = Vec::new(alloc);
    let mut at = 0;
    for _turn in 0..tokens.len() {
        if at >= tokens.len() {
            break;
        }
        if is_symbol(&tokens[at], b';') {
            at += 1;
            continue;
        }
        match push_statement(alloc, tokens, at, &mut objects)? {
            Ok(end) => at = end,
            Err(fault) => return Ok(Statements::Bad(fault)),
        }
    }
    Ok(Statements::Found(objects))
}

fn behind(before: Defaults, object: &Object) -> Defaults
    requires { AreDefaults before }
    ensures { AreDefaults result }
{
    match object {
        Object::Options(calls) => before.with_options(calls.as_slice()),
        _ => before,
    }
}

/// The defaults that the global options leave.
pub(crate) fn defaults_of(objects: &[Object]) -> Defaults
    ensures { AreDefaults result }
{
    let mut defaults = Defaults::new();
    for object in objects {
        defaults = behind(defaults, object);
    }
    defaults
}

fn template_text(alloc: Global, text: Option<&Spot>) -> Result<Name, NoMemory> {
    match text {
        Some(text) => text.token.text.copy(),
        None => Name::new(alloc, b""),
    }
}

fn push_template(
    alloc: Global,
    named: &mut TemplateNames,
    object: &Object,
) -> Result<(), NoMemory> {
    match object {
        Object::Template { name, text } => {
            let text = template_text(alloc, text.as_ref())?;
            named.push(name.token.text.copy()?, text)
        }
        _ => Ok(()),
    }
}

/// The templates.
pub(crate) fn templates_of(alloc: Global, objects: &[Object]) -> Result<TemplateNames, NoMemory> {
    let mut named = TemplateNames::new(alloc);
    for object in objects {
        push_template(alloc, &mut named, object)?;
    }
    Ok(named)
}
