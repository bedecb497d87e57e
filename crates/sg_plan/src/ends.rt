// Inlets and drivers of destinations by their statements.
ghost use Rattle.std.specs.Prelude.{◌≡◌, ◌<◌, ◌^◌, ◌++◌, length, IfOk, OnOk};
ghost use Rattle.sg_plan.specs.Owners.{owner_of, number_if, numbers_of};

use crate::owner::Owner;
use sg_device::NoMemory;
use sg_list::Seq;
use sg_parse_path::RawRef;
use std::alloc::Global;

/// The statement of each inlet and of each driver of a destination, by their numbers.
#[derive(Drop)]
pub struct Endpoints {
    pub inlets: Seq<Owner>,
    pub outlets: Seq<Owner>,
}

fn push_if(
    numbers: &mut Vec<u32>,
    number: u32,
    owner: &Owner,
    reference: &RawRef,
) -> Result<(), NoMemory>
    ensures { OnOk result (numbers.new.items
        ≡ numbers.old.items ++ number_if number owner.now (owner_of reference.now)) }
{
    if !owner.is_of(reference) {
        return Ok(());
    }
    numbers.push(number)?;
    Ok(())
}

/// The numbers of those that belong to what an element of a log statement refers to, in ascending order.
pub fn numbers_of(alloc: Global, owners: &[Owner], reference: &RawRef) -> Result<Vec<u32>, NoMemory>
    requires { length owners.now < 2 ^ 32 }
    ensures { IfOk result
        (λ numbers. numbers.items ≡ numbers_of owners.now (owner_of reference.now)) }
{
    let mut numbers = Vec::new(alloc);
    for (number, owner) in owners.iter().enumerate() {
        push_if(&mut numbers, number as u32, owner, reference)?;
    }
    Ok(numbers)
}
