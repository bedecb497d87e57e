// The stores of a plan.
ghost use Rattle.std.specs.Prelude.{◌≡◌, ◌≤◌, ◌<◌, ◌^◌, map, length, IfOk, IfErr};
ghost use Rattle.sg_serve.specs.Devices.{OpensStores, ClosesStores};
ghost use Rattle.sg_serve.specs.Early.{StoresFail};

use crate::{Device, Early};
use sg_device::OpenRefusal;
use sg_outside::StoreSpec;
use sg_world::World;
use std::alloc::Global;
use std::collections::VecDeque;

/// Opens the stores, in order. A refusal gives back those that were opened before it.
pub fn open_stores<W: World>(
    alloc: Global,
    specs: &[StoreSpec],
    world: &mut W,
) -> Result<Vec<W::Store>, (Vec<W::Store>, Early)>
    requires few { length specs.now < 2 ^ 32 }
    ensures opened { IfOk result (λ stores. OpensStores (W.state world.old) (W.state world.new)
        specs.now (map W.Store.state stores.items)) }
    ensures all { IfOk result (λ stores. length stores.items ≡ length specs.now) }
    ensures refused { IfErr result (λ e. OpensStores (W.state world.old) (W.state world.new)
        specs.now (map W.Store.state e.0.items)) }
    ensures cause { IfErr result
        (λ e. StoresFail (W.state world.old) (W.state world.new) (length e.0.items) e.1) }
{
    let mut stores = match Vec::with_capacity(alloc, specs.len()) {
        Ok(stores) => stores,
        Err(_) => return Err((Vec::new(alloc), Early::NoMemory)),
    };
    for spec in specs {
        match world.open_store(alloc, spec) {
            Ok(store) => stores.push_reserved(store),
            Err(OpenRefusal::Failed) => {
                let number = stores.len() as u32;
                return Err((stores, Early::OpenFault(Device::Store(number))));
            }
            Err(OpenRefusal::NoMemory) => return Err((stores, Early::NoMemory)),
        }
    }
    Ok(stores)
}

/// Closes the stores, in order.
pub fn close_stores<W: World>(stores: Vec<W::Store>, world: &mut W)
    ensures { ClosesStores (W.state world.old) (W.state world.new)
        (map W.Store.state stores.items) }
{
    let mut rest = VecDeque::from(stores);
    while let Some(store) = rest.pop_front() {
        world.close_store(store);
    }
    rest.destroy_empty();
}
