// The stores that a real machine opens and closes.
ghost use Rattle.std.specs.Prelude.{◌≡◌, [], IfOk, MatchResult};
ghost use Rattle.sg_outside.specs.World.{with_closed};
ghost use Rattle.sg_file.specs.Store.{disk_of};
ghost use Rattle.sg_host.specs.Stores.{store_of, stores_of, HostStoresOpen, HostStoresRefuse};

use crate::cells::{HostStoreCell, add_store, store_cell};
use sg_device::{Disk, DiskFault, NoMemory, OpenRefusal};
use sg_file::{FileDisk, IdleWait, Reminder, Reservation};
use sg_outside::StoreSpec;
use std::alloc::Global;

// What the operator is told once a minute of a store of which a call has failed.
const FAILED: &str = "it has failed, and is not used until the next start";

/// An open store.
#[derive(Drop)]
pub struct HostOpenedStore {
    disk: FileDisk,
    reservation: Reservation,
    rest: IdleWait,
    // Until a call has failed.
    reminder: Option<Reminder>,
}

/// An open store, with the memory for its closing.
#[derive(Drop)]
pub struct HostStore {
    opened: HostOpenedStore,
    cell: Box<HostStoreCell>,
}

impl HostStore {
    /// The number of calls that failed so far.
    pub fn faults(&self) -> u64
        ensures { result ≡ (store_of self.now).faults }
    {
        self.opened.disk.faults()
    }
}

impl HostOpenedStore {
    // A call has ended so.
    fn note(&mut self, failed: bool)
        ensures { self.new.disk ≡ self.old.disk }
    {
        if failed {
            if let Some(reminder) = self.reminder.take() {
                self.rest.remind(reminder);
            }
        }
    }
}

impl Disk for HostStore {
    ghost use Rattle.sg_file.specs.NothingTold.{nothing_told};

    ghost state = { store_of };

    ghost short = { λ disk bytes told. absurd (nothing_told bytes told) };

    fn len(&mut self) -> Result<u64, DiskFault> {
        let got = self.opened.disk.len();
        self.opened.note(got.is_err());
        got
    }

    fn read_at(&mut self, at: u64, into: &mut [u8]) -> Result<usize, DiskFault> {
        let got = self.opened.disk.read_at(at, into);
        self.opened.note(got.is_err());
        got
    }

    fn write_at(&mut self, at: u64, from: &[u8]) -> Result<(), DiskFault> {
        let got = self.opened.disk.write_at(at, from);
        self.opened.note(got.is_err());
        got
    }

    fn sync(&mut self) -> Result<(), DiskFault> {
        let got = self.opened.disk.sync();
        self.opened.note(got.is_err());
        got
    }
}

/// The stores opened, those closed, and the number of openings that failed.
#[derive(Drop)]
pub struct HostStores {
    rt: HostRuntime,
    rest: IdleWait,
    opened: Vec<StoreSpec>,
    closed: Option<Box<HostStoreCell>>,
    pub faults: u64,
}

impl HostStores {
    /// None was opened yet.
    pub fn new(alloc: Global, rt: HostRuntime, rest: IdleWait) -> HostStores
        ensures none { stores_of result ≡ record { opened = []; closed = [] } }
        ensures faults { result.faults ≡ 0 }
    {
        HostStores {
            rt,
            rest,
            opened: Vec::new(alloc),
            closed: None,
            faults: 0,
        }
    }

    /// Whether one was opened so far.
    pub fn is_used(&self) -> bool {
        !self.opened.is_empty()
    }

    /// Opens a store, and makes its file where that is missing and is to be made.
    pub fn open(&mut self, alloc: Global, spec: &StoreSpec) -> Result<HostStore, OpenRefusal>
        ensures { MatchResult result
            (λ store. HostStoresOpen self.old self.new spec.now (store_of store))
            (λ refusal. HostStoresRefuse self.old self.new refusal) }
    {
        let disk = match FileDisk::open(alloc, self.rt, spec.name.bytes(), size_for(spec)) {
            Ok(disk) => disk,
            Err(OpenRefusal::NoMemory) => return Err(OpenRefusal::NoMemory),
            Err(OpenRefusal::Failed) => {
                self.faults = self.faults.saturating_add(1);
                return Err(OpenRefusal::Failed);
            }
        };
        let store = self.hold(alloc, spec, disk)?;
        if self.opened.push(spec.copy()?).is_err() {
            return Err(OpenRefusal::NoMemory);
        }
        Ok(store)
    }

    // An open store, with what is kept beside its file.
    fn hold(&self, alloc: Global, spec: &StoreSpec, disk: FileDisk) -> Result<HostStore, NoMemory>
        ensures { IfOk result (λ store. store.opened.disk ≡ disk) }
    {
        let reservation = disk.reserve(&self.rest)?;
        let reminder = Reminder::new(alloc, self.rt, "store", spec.name.bytes(), FAILED)?;
        let opened = HostOpenedStore {
            disk,
            reservation,
            rest: self.rest.share()?,
            reminder: Some(reminder),
        };
        Ok(HostStore {
            opened,
            cell: store_cell(alloc)?,
        })
    }

    /// Closes a store, as `FileDisk::close` does. What is kept of it takes no memory.
    pub fn close(&mut self, store: HostStore)
        ensures closed { stores_of self.new ≡ with_closed (stores_of self.old) (store_of store) }
        ensures faults { self.new.faults ≡ self.old.faults }
    {
        let HostStore { opened, cell } = store;
        let HostOpenedStore { disk, .. } = opened;
        add_store(&mut self.closed, cell, disk.faults());
        disk.close(&self.rt);
        self.rest.end_reminders();
    }
}

// The bytes with which a store is made that is missing, where it is made then.
fn size_for(spec: &StoreSpec) -> Option<u64> {
    if spec.create {
        Some(spec.size.max(128))
    } else {
        None
    }
}
