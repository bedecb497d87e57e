// The names of the statements of one kind.
ghost use Rattle.std.specs.Prelude.{◌≡◌, ◌+◌, ◌<◌, ◌^◌, length, IfOk, OnOk, option_copied};
ghost use Rattle.std.specs.FinMap as map;
ghost use Rattle.sg_fault.specs.Faults.{least};
ghost use Rattle.sg_names.specs.Registers.{empty_register, entered, entered_if, registered, repeat_of, repeat_if, repeats};

use crate::kind::{NameKind, name_of};
use sg_block::NameMap;
use sg_fault::{Placed, earlier};
use sg_lex::ConfigKind;
use sg_parse_base::{Spot, line_of};
use sg_parse_text::Statement;
use std::alloc::{AllocError, Global};

/// The statements of one kind by their names: for each name the number of the first one, counted from 0 among
/// those of its kind.
#[derive(Drop)]
pub struct Register {
    pub places: NameMap<u32>,
    pub count: u32,
}

fn empty_register(alloc: Global) -> Register
    ensures { result ≡ empty_register }
{
    Register {
        places: NameMap::new(alloc),
        count: 0,
    }
}

fn repeat_of(register: &Register, spot: &Spot) -> Option<Placed>
    ensures { result ≡ least (repeat_of register.now spot.now) }
{
    if !register.places.has(spot.token.text.bytes()) {
        return None;
    }
    Some(Placed {
        kind: ConfigKind::DuplicateName,
        line: line_of(&spot.token, spot.at),
    })
}

fn enter(alloc: Global, register: &mut Register, spot: &Spot) -> Result<(), AllocError>
    requires { register.old.count + 1 < 2 ^ 32 }
    ensures { OnOk result (register.new ≡ entered register.old spot.now) }
{
    let name = spot.token.text.bytes();
    if !register.places.has(name) {
        register.places.insert(name.to_vec(alloc)?, register.count)?;
    }
    register.count += 1;
    Ok(())
}

/// Enters a statement's name, if it has one: the fault where one before has it too.
fn enter_if(
    alloc: Global,
    register: &mut Register,
    name: Option<&Spot>,
) -> Result<Option<Placed>, AllocError>
    requires { register.old.count + 1 < 2 ^ 32 }
    ensures entered { OnOk result
        (register.new ≡ entered_if register.old (option_copied name.entry)) }
    ensures repeats { IfOk result
        (λ fault. fault ≡ least (repeat_if register.old (option_copied name.entry))) }
{
    match name {
        Some(spot) => {
            let fault = repeat_of(register, spot);
            enter(alloc, register, spot)?;
            Ok(fault)
        }
        None => Ok(None),
    }
}

/// The statements of a kind by their names, and the first name that one before has too.
pub fn registered(
    alloc: Global,
    statements: &[Statement],
    kind: NameKind,
) -> Result<(Register, Option<Placed>), AllocError>
    requires { length statements.now < 2 ^ 32 }
    ensures names { IfOk result (λ x. x.0 ≡ registered kind empty_register statements.now) }
    ensures repeats { IfOk result (λ x. x.1 ≡ least (repeats kind empty_register statements.now)) }
{
    let mut register = empty_register(alloc);
    let mut first = None;
    for statement in statements {
        let fault = enter_if(alloc, &mut register, name_of(statement, kind))?;
        first = earlier(first, fault);
    }
    Ok((register, first))
}
