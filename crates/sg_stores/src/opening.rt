// Opens the stores of a core.
ghost use Rattle.std.specs.Prelude.{◌≡◌, ◌≤◌, ◌<◌, ◌^◌, [], List, IfOk, IfErr, OnOk, map, length, vec_capacity};
ghost use Rattle.sg_device.specs.Disk.{DiskState};
ghost use Rattle.sg_stores.specs.declared.kind.StoreKind.{StoreKind as Kind};
ghost use Rattle.sg_stores.specs.Looking.{AreOpening, CanRenewAll};
ghost use Rattle.sg_stores.specs.Opening.{AreOpened, AreStoresRefused, refusal_of};

use crate::disks::give_back;
use crate::store::Store;
use crate::{CoreRefusal, StoreKind, Stores};
use sg_buffer::BufferEntries;
use sg_device::Disk;
use sg_list::Seq;
use sg_stable::StoreRefusal;
use std::alloc::{AllocError, Global};
use std::collections::VecDeque;

/// The stores of a core, and what was found in its disk-buffers: nothing in a position store.
pub struct OpenedStores<D: Disk> {
    pub stores: Stores<D>,
    pub found: Seq<BufferEntries>,
}

// Stores that are opened one after another, with room for so many, and for their disks.
struct StoresOpening<D: Disk> {
    held: Vec<Store<D>>,
    found: Vec<BufferEntries>,
    room: Vec<D>,
}

fn opening_of<D: Disk>(alloc: Global, count: usize) -> Result<StoresOpening<D>, AllocError>
    ensures held { IfOk result (λ opening. opening.held.items ≡ []) }
    ensures found { IfOk result (λ opening. opening.found.items ≡ []) }
    ensures room { IfOk result (λ opening. opening.room.items ≡ []) }
    ensures held_fits { IfOk result (λ opening. count ≤ vec_capacity opening.held) }
    ensures found_fits { IfOk result (λ opening. count ≤ vec_capacity opening.found) }
    ensures room_fits { IfOk result (λ opening. count ≤ vec_capacity opening.room) }
{
    let found = Vec::with_capacity(alloc, count)?;
    let room = Vec::with_capacity(alloc, count)?;
    match Vec::with_capacity(alloc, count) {
        Ok(held) => Ok(StoresOpening { held, found, room }),
        Err(refusal) => {
            room.destroy_empty();
            Err(refusal)
        }
    }
}

// What a refused store makes of its number.
fn refusal_at(s: u32, refusal: StoreRefusal) -> CoreRefusal
    ensures { result ≡ refusal_of s refusal }
{
    match refusal {
        StoreRefusal::Damage(at) => CoreRefusal::Damage(s, at),
        StoreRefusal::DiskFault => CoreRefusal::DiskFault(s),
        StoreRefusal::NoMemory => CoreRefusal::NoMemory,
    }
}

// Opens the stores and looks through their entries, the lowest first.
fn look_all<D: Disk>(
    alloc: Global,
    disks: Vec<D>,
    kinds: &[StoreKind],
) -> Result<(Stores<D>, Vec<BufferEntries>), (Vec<D>, CoreRefusal)>
    requires count { length kinds.now ≡ length disks.items }
    requires few { length disks.items < 2 ^ 32 }
    ensures looked { IfOk result
        (λ opened. AreOpening 0 kinds.now (map D.state disks.items) opened.1.items opened.0) }
    ensures refused { IfErr result
        (λ e. AreStoresRefused kinds.now (map D.state disks.items) (map D.state e.0.items) e.1) }
{
    let mut opening = match opening_of(alloc, disks.len()) {
        Ok(opening) => opening,
        Err(_) => return Err((disks, CoreRefusal::NoMemory)),
    };
    let mut rest = VecDeque::from(disks);
    while let Some(disk) = rest.pop_front() {
        match Store::open(alloc, disk, kinds[opening.held.len()]) {
            Ok((store, found)) => {
                opening.held.push_reserved(store);
                opening.found.push_reserved(found);
            }
            Err((disk, refusal)) => {
                let s = opening.held.len() as u32;
                let StoresOpening {
                    held,
                    found: _,
                    room,
                } = opening;
                return Err((give_back(held, disk, rest, room), refusal_at(s, refusal)));
            }
        }
    }
    rest.destroy_empty();
    let StoresOpening { held, found, room } = opening;
    Ok((Stores::new(held, room), found))
}

// Spells older entries anew, the lowest store first.
fn renew_all<D: Disk>(
    alloc: Global,
    stores: &mut Stores<D>,
    found: &[BufferEntries],
) -> Result<(), CoreRefusal>
    requires ready { CanRenewAll stores.old }
    requires few { length stores.old < 2 ^ 32 }
    requires count { length found.now ≡ length stores.old }
    ensures opened { OnOk result ((kinds : List Kind) (disks : List DiskState)
        → AreOpening 0 kinds disks found.now stores.old
        → AreOpened kinds disks found.now stores.new) }
    ensures refused { IfErr result (λ e. (kinds : List Kind) (disks : List DiskState)
        → AreOpening 0 kinds disks found.now stores.old
        → AreStoresRefused kinds disks (map (λ store. store.disk) stores.new) e) }
{
    for s in 0..stores.len() {
        if let Err(refusal) = stores.renew(alloc, s, &found[s]) {
            return Err(refusal_at(s as u32, refusal));
        }
    }
    Ok(())
}

impl<D: Disk> Stores<D> {
    /// Opens a store of each kind on the disk of its number. Each is opened and looked through, the lowest
    /// first: a refusal names the first that isn't whole, by its own damage before that of its entries.
    /// Only once all are, those that have entries of format 1 are spelled anew. A refusal gives the disks
    /// back, in order.
    pub fn open(
        alloc: Global,
        disks: Vec<D>,
        kinds: &[StoreKind],
    ) -> Result<OpenedStores<D>, (Vec<D>, CoreRefusal)>
        requires count { length kinds.now ≡ length disks.items }
        requires few { length disks.items < 2 ^ 32 }
        ensures opened { IfOk result
            (λ opened. AreOpened kinds.now (map D.state disks.items) opened.found opened.stores) }
        ensures refused { IfErr result
            (λ e. AreStoresRefused kinds.now (map D.state disks.items) (map D.state e.0.items)
            e.1) }
    {
        let (mut stores, found) = look_all(alloc, disks, kinds)?;
        match renew_all(alloc, &mut stores, &found) {
            Ok(()) => Ok(OpenedStores {
                stores,
                found: Seq::new(found),
            }),
            Err(refusal) => Err((stores.into_disks(), refusal)),
        }
    }
}
