// The stores of a core.
ghost use Rattle.std.specs.Prelude.{◌≡◌, ◌≤◌, ◌<◌, [], map, length, slice_get, vec_capacity, option_map, Some};
ghost use Rattle.sg_stores.specs.Advancing.{CanAdvance, AdvancesAt};
ghost use Rattle.sg_stores.specs.Appending.{StagesAt, CommitsAt};
ghost use Rattle.sg_stores.specs.Looking.{CanRenew, RenewsAt};
ghost use Rattle.sg_stores.specs.Positions.{IsPositionStore, IsStoreThere, WritesAt, stored_in};
ghost use Rattle.sg_stores.specs.Reading.{CanRead, ReadsAt};

use crate::disks::put_stores;
use crate::store::Store;
use sg_buffer::BufferEntries;
use sg_counter::Stored;
use sg_device::Disk;
use sg_list::Seq;
use sg_msg::Message;
use sg_spool::{Block, RewriteRefusal};
use sg_stable::StoreRefusal;
use std::alloc::Global;
use std::marker::Model;

/// The open stores by their numbers, with room to give their disks back.
pub struct Stores<D: Disk> {
    held: Seq<Store<D>>,
    room: Vec<D>,
}

impl<D: Disk> Model for Stores<D> {
    ghost use Rattle.std.specs.Prelude.{◌≡◌, ◌≤◌, [], List, length, vec_capacity};
    ghost use Rattle.sg_stores.specs.Stores.{StoreState};

    ghost Value = { List StoreState };

    ghost view = { λ s. s.held };

    ghost invariant = { λ s. (s.room.items ≡ []) × (length s.held ≤ vec_capacity s.room) };
}

impl<D: Disk> Stores<D> {
    // The stores, with empty room for all their disks.
    pub(crate) fn new(held: Vec<Store<D>>, room: Vec<D>) -> Self
        requires empty { room.items ≡ [] }
        requires fits { length held.items ≤ vec_capacity room }
        ensures { result ≡ held.items }
    {
        Stores {
            held: Seq::new(held),
            room,
        }
    }

    // Spells the older entries of a disk-buffer anew.
    pub(crate) fn renew(
        &mut self,
        alloc: Global,
        s: usize,
        found: &BufferEntries,
    ) -> Result<(), StoreRefusal>
        requires { CanRenew (slice_get self.old s) }
        ensures { RenewsAt self.old self.new s found.now result }
    {
        let store = self.held.at_mut(s);
        store.renew(alloc, found)
    }

    pub(crate) fn len(&self) -> usize
        ensures { result ≡ length self.now }
    {
        self.held.len()
    }

    /// The position in the store of that number, 0 where there is none, and in a disk-buffer.
    pub fn stored(&self, store: Option<u32>) -> u64
        requires { IsStoreThere self.now store }
        ensures { result ≡ stored_in self.now store }
    {
        match store {
            Some(s) => self.held.at(s as usize).position(),
            None => 0,
        }
    }

    /// Whether a call on the store has failed since it was opened.
    pub fn failed(&self, s: u32) -> bool
        requires { s < length self.now }
        ensures { option_map (λ store. store.failed) (slice_get self.now s) ≡ Some result }
    {
        self.held.at(s as usize).failed()
    }

    /// Writes a position that isn't the stored one, and makes it stable. A store that has failed makes no
    /// call to its disk.
    pub fn write(&mut self, s: u32, position: u64) -> Stored
        requires { IsPositionStore (slice_get self.old s) }
        ensures { WritesAt self.old self.new s position result }
    {
        let store = self.held.at_mut(s as usize);
        store.write(position)
    }

    /// Stages an entry that fits into the disk-buffer; until a commit a crash leaves the list as it is, or
    /// with the first of those that are staged. Whether the store works: one that has failed makes no call
    /// to its disk.
    pub fn stage(&mut self, s: u32, block: &Block) -> bool
        requires { s < length self.old }
        ensures { StagesAt self.old self.new s block.now result }
    {
        let store = self.held.at_mut(s as usize);
        store.stage(block)
    }

    /// Puts what is staged into the list, and makes it stable: one commit, however many entries that are.
    /// Where nothing is staged it makes no call to the disk. Whether the store works.
    pub fn commit(&mut self, s: u32) -> bool
        requires { s < length self.old }
        ensures { CommitsAt self.old self.new s result }
    {
        let store = self.held.at_mut(s as usize);
        store.commit()
    }

    /// Takes the first n entries off the disk-buffer, which take so many bytes, 5 and its length for each.
    /// It reads nothing. Whether the store works.
    pub fn advance(&mut self, s: u32, n: u64, size: u64) -> bool
        requires { CanAdvance (slice_get self.old s) n size }
        ensures { AdvancesAt self.old self.new s n size result }
    {
        let store = self.held.at_mut(s as usize);
        store.advance(n, size)
    }

    /// The messages of the first n entries of the disk-buffer.
    pub fn messages(
        &mut self,
        alloc: Global,
        s: u32,
        n: u64,
    ) -> Result<Seq<Message>, RewriteRefusal>
        requires { CanRead (slice_get self.old s) n }
        ensures { ReadsAt self.old self.new s n result }
    {
        let store = self.held.at_mut(s as usize);
        store.messages(alloc, n)
    }

    /// Gives the disks back, in order. Takes no memory.
    pub fn into_disks(self) -> Vec<D>
        ensures { map D.state result.items ≡ map (λ store. store.disk) self }
    {
        let Stores { held, mut room } = self;
        put_stores(held.into_vec(), &mut room);
        room
    }
}
