// The parts that one driver adds to a plan.
ghost use Rattle.std.specs.Prelude.{◌≡◌, ◌<◌, ◌^◌, ◌++◌, ◌∷◌, [], true, length, map, replicate, IfOk, OnOk};
ghost use Rattle.std.specs.List.{range_with_len};
ghost use Rattle.std.specs.Option.{option_copied};
ghost use Rattle.sg_source.specs.Inlets.{plan_of, slots_at};
ghost use Rattle.sg_plan.specs.Parts.{name_in, stores_by, number_by, buffer_by, buffer_stores, size_by, inlets_of};

use crate::Owner;
use sg_destination::DiskBuffer;
use sg_device::{Name, NoMemory};
use sg_list::Seq;
use sg_machine::{BufferSetup, SourceSetup};
use sg_outside::StoreSpec;
use sg_run_plan::InletPlan;
use sg_source::SourceDriver;

fn copied(owner: &Owner) -> Result<Owner, NoMemory>
    ensures { IfOk result (λ copy. copy ≡ owner.now) }
{
    match owner {
        Owner::Named(name) => Ok(Owner::Named(name.copy()?)),
        Owner::Inline(at) => Ok(Owner::Inline(*at)),
    }
}

fn name_in(owner: &Owner) -> Option<&Name>
    ensures { option_copied result ≡ name_in owner.now }
{
    match owner {
        Owner::Named(name) => Some(name),
        Owner::Inline(_) => None,
    }
}

/// The statement of so many inlets more.
pub fn add_owners(owners: &mut Seq<Owner>, owner: &Owner, count: u16) -> Result<(), NoMemory>
    ensures { OnOk result (owners.new ≡ owners.old ++ replicate count owner.now) }
{
    for _turn in 0..count {
        owners.push(copied(owner)?)?;
    }
    Ok(())
}

/// The setup of so many inlets more.
pub fn add_setups(
    setups: &mut Seq<SourceSetup>,
    setup: SourceSetup,
    count: u16,
) -> Result<(), NoMemory>
    ensures { OnOk result (setups.new ≡ setups.old ++ replicate count setup) }
{
    for _turn in 0..count {
        setups.push(setup)?;
    }
    Ok(())
}

/// The inlets of the driver of this number.
pub fn add_inlets(
    inlets: &mut Vec<InletPlan>,
    number: u32,
    owner: &Owner,
    source: &SourceDriver,
) -> Result<(), NoMemory>
    ensures { OnOk result
        (inlets.new.items ≡ inlets.old.items ++ inlets_of number owner.now source.now) }
{
    for slot in 0..source.slots() {
        inlets.push(source.plan(slot, number, name_in(owner))?)?;
    }
    Ok(())
}

// A store that is made where it is missing, with so many bytes.
fn push_store(stores: &mut Vec<StoreSpec>, name: Name, size: u64) -> Result<u32, NoMemory>
    requires { length stores.old.items < 2 ^ 32 }
    ensures stores { OnOk result (stores.new.items
        ≡ stores.old.items ++ record { name = name; create = true; size = size } ∷ []) }
    ensures number { IfOk result (λ number. number ≡ length stores.old.items) }
{
    let number = stores.len() as u32;
    stores.push(StoreSpec {
        name,
        create: true,
        size,
    })?;
    Ok(number)
}

// The bytes with which the file of a disk-buffer is made.
fn size_by(capacity: u64, whole: bool) -> u64
    ensures { result ≡ size_by whole capacity }
{
    if whole {
        capacity.saturating_mul(2).saturating_add(68)
    } else {
        128
    }
}

/// The store of a position. Answers its number, where there is one.
pub fn add_position(
    stores: &mut Vec<StoreSpec>,
    store: Option<Name>,
) -> Result<Option<u32>, NoMemory>
    requires { length stores.old.items < 2 ^ 32 }
    ensures stores { OnOk result (stores.new.items ≡ stores.old.items ++ stores_by store) }
    ensures number { IfOk result (λ number. number ≡ number_by (length stores.old.items) store) }
{
    match store {
        Some(name) => Ok(Some(push_store(stores, name, 128)?)),
        None => Ok(None),
    }
}

/// The store of a disk-buffer. Answers its number with the capacity, where there is one.
pub fn add_buffer(
    stores: &mut Vec<StoreSpec>,
    buffer: Option<DiskBuffer>,
) -> Result<Option<BufferSetup>, NoMemory>
    requires { length stores.old.items < 2 ^ 32 }
    ensures stores { OnOk result (stores.new.items ≡ stores.old.items
        ++ buffer_stores buffer) }
    ensures setup { IfOk result (λ setup. setup ≡ buffer_by (length stores.old.items) buffer) }
{
    match buffer {
        Some(
            DiskBuffer {
                store,
                capacity,
                whole,
            },
        ) => Ok(Some(BufferSetup {
            store: push_store(stores, store, size_by(capacity, whole))?,
            capacity,
        })),
        None => Ok(None),
    }
}
