// The statements of drivers: those with names, and those in the elements of top-level log statements.

use sg_list::Seq;
use sg_parse_base::Spot;
use sg_parse_obj::Object;
use sg_parse_path::{RawElement, RawRef};
use sg_parse_text::Statement;
use sg_plan::{Endpoints, Owner};
use std::alloc::{AllocError, Global};

fn owner(name: &Spot, named: bool) -> Result<Owner, AllocError> {
    if named {
        return Ok(Owner::Named(name.token.text.copy()?));
    }
    Ok(Owner::Inline(name.at))
}

fn push(list: &mut Seq<Owner>, name: &Spot, named: bool, drivers: usize) -> Result<(), AllocError> {
    for _driver in 0..drivers {
        let one = owner(name, named)?;
        list.push(one)?;
    }
    Ok(())
}

fn object(ends: &mut Endpoints, object: &Object, named: bool) -> Result<(), AllocError> {
    match object {
        Object::Source { name, drivers } => push(&mut ends.inlets, name, named, drivers.len()),
        Object::Destination { name, drivers } => {
            push(&mut ends.outlets, name, named, drivers.len())
        }
        _ => Ok(()),
    }
}

fn element(ends: &mut Endpoints, element: &RawElement) -> Result<(), AllocError> {
    match element {
        RawElement::Source(_, RawRef::Inline(inside)) => object(ends, inside, false),
        RawElement::Destination(RawRef::Inline(inside)) => object(ends, inside, false),
        _ => Ok(()),
    }
}

fn elements(ends: &mut Endpoints, all: &[RawElement]) -> Result<(), AllocError> {
    for one in all {
        element(ends, one)?;
    }
    Ok(())
}

pub(crate) fn ends_of(alloc: Global, statements: &[Statement]) -> Result<Endpoints, AllocError> {
    let mut ends = Endpoints {
        inlets: Seq::empty(alloc),
        outlets: Seq::empty(alloc),
    };
    for statement in statements {
        match statement {
            Statement::Object(inside) => object(&mut ends, inside, true)?,
            Statement::Log(log) => elements(&mut ends, log.elements.as_slice())?,
        }
    }
    Ok(ends)
}
