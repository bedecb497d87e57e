// Gives disks back.
ghost use Rattle.std.specs.Prelude.{◌≡◌, ◌≤◌, ◌<◌, ◌+◌, [], ◌∷◌, ◌++◌, map, length, vec_capacity};

use crate::store::Store;
use sg_device::Disk;
use std::collections::VecDeque;

/// Puts the disks of these stores where there is room for them.
pub fn put_stores<D: Disk>(held: Vec<Store<D>>, disks: &mut Vec<D>)
    requires empty { disks.old.items ≡ [] }
    requires fits { length held.items ≤ vec_capacity disks.old }
    ensures disks { map D.state disks.new.items ≡ map (λ store. store.disk) held.items }
    ensures count { length disks.new.items ≡ length held.items }
    ensures capacity { vec_capacity disks.new ≡ vec_capacity disks.old }
{
    let mut rest = VecDeque::from(held);
    while let Some(store) = rest.pop_front() {
        disks.push_reserved(store.into_disk());
    }
    rest.destroy_empty();
}

// Puts these disks behind others, where there is room for them.
fn put_rest<D: Disk>(rest: VecDeque<D>, disks: &mut Vec<D>)
    requires { length disks.old.items + length rest.items ≤ vec_capacity disks.old }
    ensures { disks.new.items ≡ disks.old.items ++ rest.items }
{
    let mut rest = rest;
    while let Some(disk) = rest.pop_front() {
        disks.push_reserved(disk);
    }
    rest.destroy_empty();
}

/// The disks of the stores that were opened, the one that was refused, and those behind it.
pub fn give_back<D: Disk>(
    held: Vec<Store<D>>,
    refused: D,
    rest: VecDeque<D>,
    room: Vec<D>,
) -> Vec<D>
    requires empty { room.items ≡ [] }
    requires fits { length held.items + length rest.items < vec_capacity room }
    ensures { map D.state result.items
        ≡ map (λ store. store.disk) held.items ++ D.state refused ∷ map D.state rest.items }
{
    let mut disks = room;
    put_stores(held, &mut disks);
    disks.push_reserved(refused);
    put_rest(rest, &mut disks);
    disks
}
