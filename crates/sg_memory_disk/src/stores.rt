// The stores that a machine in memory opens and closes.
ghost use Rattle.std.specs.Prelude.{◌≡◌, ◌≤◌, None, if◌then◌else◌, ◌++◌, ◌∷◌, [], replicate, vec_len, vec_capacity, IfOk, OnErr, OnOk, MatchResult};
ghost use Rattle.std.specs.Option.{option_map};
ghost use Rattle.sg_outside.specs.World.{with_closed, IsStoreNamed};
ghost use Rattle.sg_memory_disk.specs.DiskPlan.{IsDiskQuiet, AreDisksQuiet, first_plan};
ghost use Rattle.sg_memory_disk.specs.MemoryDisk.{disk_of, fresh_disk};
ghost use Rattle.sg_memory_disk.specs.Plan.{IsFaultless, after_call};
ghost use Rattle.sg_memory_disk.specs.Stores.{store_of, stores_of, store_states, latest, latest_state, is_named, some_starved, any_starved, MemoryStoresOpen, MemoryStoresRefuse, OpensAsPlanned, BeginsStore};

use crate::disk_plan::take_plan;
use crate::{DiskPlan, FaultPlan, MemoryDisk};
use sg_device::{Disk, DiskFault, Name, NoMemory, OpenRefusal};
use sg_outside::StoreSpec;
use std::alloc::{AllocError, Global};
use std::collections::VecDeque;

/// A store that was opened, and its disk as it was then.
#[derive(Drop)]
pub struct MemoryOpenedStore {
    pub spec: StoreSpec,
    pub disk: MemoryDisk,
}

/// A closed store.
#[derive(Drop)]
pub struct ClosedStore {
    pub name: Name,
    pub disk: MemoryDisk,
}

/// A closed store, and the one closed before it.
#[derive(Drop)]
pub struct MemoryStoreCell {
    pub closed: Option<ClosedStore>,
    pub before: Option<Box<MemoryStoreCell>>,
}

/// An open store of a machine in memory, with the memory for its closing.
#[derive(Drop)]
pub struct MemoryStore {
    pub disk: MemoryDisk,
    name: Name,
    cell: Box<MemoryStoreCell>,
}

impl Disk for MemoryStore {
    ghost use Rattle.sg_memory_disk.specs.StoresLaws.{is_short};

    ghost state = { store_of };

    ghost short = { is_short };

    fn len(&mut self) -> Result<u64, DiskFault> {
        self.disk.len()
    }

    fn read_at(&mut self, at: u64, into: &mut [u8]) -> Result<usize, DiskFault> {
        self.disk.read_at(at, into)
    }

    fn write_at(&mut self, at: u64, from: &[u8]) -> Result<(), DiskFault> {
        self.disk.write_at(at, from)
    }

    fn sync(&mut self) -> Result<(), DiskFault> {
        self.disk.sync()
    }
}

/// The stores that are there, those opened and those closed, and the openings and disks that fail.
pub struct MemoryStores {
    pub opens: FaultPlan,
    /// The plans of the disks that will be opened, in order. No call fails of those behind them.
    pub plans: VecDeque<DiskPlan>,
    // The names of those that are there, the latest first.
    names: Vec<Name>,
    opened: Vec<MemoryOpenedStore>,
    closed: Option<Box<MemoryStoreCell>>,
    faults: u64,
}

impl Drop for MemoryStores {
    fn drop(self) {
        let MemoryStores {
            opens: _opens,
            plans: _plans,
            names: _names,
            opened: _opened,
            closed: _closed,
            faults: _faults,
        } = self;
    }
}

impl MemoryStores {
    /// None is there yet, and no call fails.
    pub fn new(alloc: Global) -> MemoryStores
        ensures none { stores_of result ≡ record { opened = []; closed = [] } }
        ensures store_names { result.names.items ≡ [] }
        ensures faults { result.faults ≡ 0 }
        ensures opens { IsFaultless result.opens }
        ensures plans { AreDisksQuiet result.plans.items }
    {
        MemoryStores::failing(alloc, FaultPlan::never(alloc), VecDeque::new(alloc))
    }

    /// None is there yet, and these calls fail.
    pub fn failing(alloc: Global, opens: FaultPlan, plans: VecDeque<DiskPlan>) -> MemoryStores
        ensures none { stores_of result ≡ record { opened = []; closed = [] } }
        ensures store_names { result.names.items ≡ [] }
        ensures faults { result.faults ≡ 0 }
        ensures opens { result.opens ≡ opens }
        ensures plans { result.plans ≡ plans }
    {
        MemoryStores {
            opens,
            plans,
            names: Vec::new(alloc),
            opened: Vec::new(alloc),
            closed: None,
            faults: 0,
        }
    }

    /// Puts a closed store there, as an earlier run may have left it.
    pub fn put(&mut self, alloc: Global, name: &[u8], disk: MemoryDisk) -> Result<(), NoMemory>
        ensures closed { OnOk result
            (stores_of self.new ≡ with_closed (stores_of self.old) (disk_of disk)) }
        ensures store_names { OnOk result (self.new.names.items ≡ name.now ∷ self.old.names.items) }
        ensures err { OnErr result ((stores_of self.new ≡ stores_of self.old)
            × (self.new.names.items ≡ self.old.names.items)) }
        ensures faults { self.new.faults ≡ self.old.faults }
        ensures opens { self.new.opens ≡ self.old.opens }
        ensures plans { self.new.plans ≡ self.old.plans }
    {
        let listed = Name::new(alloc, name)?;
        let name = listed.copy()?;
        let cell = store_cell(alloc)?;
        add_name(&mut self.names, listed)?;
        add_store(&mut self.closed, cell, ClosedStore { name, disk });
        Ok(())
    }

    /// Opens a store. One that is there is as it was closed, and can't be opened before that; another
    /// one comes to be with 128 zero bytes, all of them stable, where it is to be made.
    pub fn open(&mut self, alloc: Global, spec: &StoreSpec) -> Result<MemoryStore, OpenRefusal>
        ensures opened { MatchResult result
            (λ store. MemoryStoresOpen self.old self.new spec.now (store_of store))
            (λ refusal. MemoryStoresRefuse self.old self.new refusal) }
        ensures store_names { IfOk result (λ store. IsStoreNamed self.old.names.items spec.now
            (store_of store) self.new.names.items) }
        ensures fails { OpensAsPlanned self.old spec.now result }
        ensures opens { self.new.opens ≡ after_call self.old.opens }
        ensures plan { IfOk result
            (λ store. first_plan self.old.plans.items store.disk.calls.plan) }
        ensures quiet { AreDisksQuiet self.old.plans.items → AreDisksQuiet self.new.plans.items }
    {
        let fails = self.opens.next();
        let there = is_there(&self.names, spec.name.bytes());
        let last = self.last(there, &spec.name);
        if fails || (last.is_none() && (there || !spec.create)) {
            self.faults = self.faults.saturating_add(1);
            return Err(OpenRefusal::Failed);
        }
        let disk = match last {
            Some(disk) => disk.copy(alloc)?,
            None => fresh(alloc)?,
        };
        Ok(self.begin(alloc, spec, disk, there)?)
    }

    // The disk of a store that is there, as it was closed last.
    fn last(&self, there: bool, name: &Name) -> Option<&MemoryDisk>
        ensures { option_map (λ disk. disk_of disk.now) result
            ≡ (if there then latest_state self.now.closed name.now else None) }
    {
        if !there {
            return None;
        }
        match &self.closed {
            Some(cell) => find_closed(cell, name.bytes()),
            None => None,
        }
    }

    // Opens a store over this disk. Where memory runs out all stays as it was.
    fn begin(
        &mut self,
        alloc: Global,
        spec: &StoreSpec,
        mut disk: MemoryDisk,
        there: bool,
    ) -> Result<MemoryStore, NoMemory>
        ensures begun { BeginsStore self.old self.new spec.now there (disk_of disk) result }
        ensures plan { IfOk result
            (λ store. first_plan self.old.plans.items store.disk.calls.plan) }
        ensures quiet { AreDisksQuiet self.old.plans.items → AreDisksQuiet self.new.plans.items }
    {
        let opened = MemoryOpenedStore {
            spec: spec.copy()?,
            disk: disk.copy(alloc)?,
        };
        let name = spec.name.copy()?;
        let listed = spec.name.copy()?;
        let cell = store_cell(alloc)?;
        self.opened.reserve(1)?;
        if !there {
            add_name(&mut self.names, listed)?;
        }
        add_opened(&mut self.opened, opened)?;
        disk.fail(take_plan(alloc, &mut self.plans));
        Ok(MemoryStore { disk, name, cell })
    }

    /// Closes a store. It takes no memory.
    pub fn close(&mut self, store: MemoryStore)
        ensures closed { stores_of self.new ≡ with_closed (stores_of self.old) (store_of store) }
        ensures store_names { self.new.names ≡ self.old.names }
        ensures faults { self.new.faults ≡ self.old.faults }
        ensures opens { self.new.opens ≡ self.old.opens }
        ensures plans { self.new.plans ≡ self.old.plans }
    {
        let MemoryStore { disk, name, cell } = store;
        add_store(&mut self.closed, cell, ClosedStore { name, disk });
    }

    /// Whether a disk that was closed has found no memory.
    pub fn starved(&self) -> bool
        ensures { result ≡ any_starved self.now.closed }
    {
        match &self.closed {
            Some(cell) => is_starved(cell),
            None => false,
        }
    }

    /// The store closed last, with those closed before it.
    pub fn closed(&self) -> &Option<Box<MemoryStoreCell>>
        ensures { result.now ≡ self.now.closed }
    {
        &self.closed
    }
}

// 128 zero bytes, all of them stable.
fn fresh(alloc: Global) -> Result<MemoryDisk, AllocError>
    ensures { IfOk result (λ disk. disk_of disk ≡ fresh_disk (replicate 128 0)) }
{
    MemoryDisk::new(alloc, vec![in alloc; 0u8; 128]?)
}

// Memory for a store's closing.
fn store_cell(alloc: Global) -> Result<Box<MemoryStoreCell>, AllocError> {
    Ok(Box::new(
        alloc,
        MemoryStoreCell {
            closed: None,
            before: None,
        },
    )?)
}

// Puts a store behind those that were closed before. It takes no memory.
fn add_store(
    last: &mut Option<Box<MemoryStoreCell>>,
    mut cell: Box<MemoryStoreCell>,
    store: ClosedStore,
)
    ensures { store_states last.new ≡ store_states last.old ++ disk_of store.disk ∷ [] }
{
    cell.closed = Some(store);
    cell.before = last.take();
    *last = Some(cell);
}

// Whether a store of this name is there.
fn is_there(names: &[Name], name: &[u8]) -> bool
    ensures { result ≡ is_named names.now name.now }
{
    for listed in names {
        if listed.bytes() == name {
            return true;
        }
    }
    false
}

// One name more, before the others.
fn add_name(names: &mut Vec<Name>, name: Name) -> Result<(), AllocError>
    ensures ok { OnOk result (names.new.items ≡ name ∷ names.old.items) }
    ensures err { OnErr result (names.new.items ≡ names.old.items) }
{
    names.insert(0, name)?;
    Ok(())
}

// One opened store more. It fails only where there is no room.
fn add_opened(
    opened: &mut Vec<MemoryOpenedStore>,
    store: MemoryOpenedStore,
) -> Result<(), AllocError>
    ensures ok { OnOk result (opened.new.items ≡ opened.old.items ++ store ∷ []) }
    ensures err { OnErr result (vec_capacity opened.old ≤ vec_len opened.old) }
{
    opened.push(store)?;
    Ok(())
}

// The disk of the store of this name that was closed last.
fn find_closed<'a>(cell: &'a MemoryStoreCell, name: &[u8]) -> Option<&'a MemoryDisk>
    ensures { option_map (λ disk. disk_of disk.now) result ≡ latest cell.now name.now }
{
    if let Some(store) = &cell.closed
        && store.name.bytes() == name
    {
        return Some(&store.disk);
    }
    match &cell.before {
        Some(before) => find_closed(before, name),
        None => None,
    }
}

// Whether a disk has found no memory.
fn is_starved(cell: &MemoryStoreCell) -> bool
    ensures { result ≡ some_starved cell.now }
{
    let starved = match &cell.closed {
        Some(store) => store.disk.starved(),
        None => false,
    };
    let before = match &cell.before {
        Some(before) => is_starved(before),
        None => false,
    };
    starved || before
}
