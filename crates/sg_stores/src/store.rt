// A store of either kind.
ghost use Rattle.std.specs.Prelude.{◌≡◌, [], not, false, IfOk, IfErr, Some};
ghost use Rattle.sg_stores.specs.Advancing.{CanAdvance, AdvancesStore};
ghost use Rattle.sg_stores.specs.Appending.{StagesStore, CommitsStore};
ghost use Rattle.sg_stores.specs.Looking.{IsLookedAs, IsUnlooked, IsUnstaged, Renews};
ghost use Rattle.sg_stores.specs.Positions.{IsPositionStore, WritesStored};
ghost use Rattle.sg_stores.specs.Reading.{CanRead, ReadsMessages, StoreStays};
ghost use Rattle.sg_stores.specs.Stores.{StoreGoesOn};

use crate::StoreKind;
use crate::buffer::BufferStore;
use crate::position::PositionStore;
use sg_buffer::BufferEntries;
use sg_counter::Stored;
use sg_device::Disk;
use sg_list::Seq;
use sg_msg::Message;
use sg_spool::{Block, RewriteRefusal};
use sg_stable::StoreRefusal;
use std::alloc::Global;
use std::marker::Model;

enum StoreForm<D: Disk> {
    Position(PositionStore<D>),
    Buffer(BufferStore<D>),
}

/// An open store.
pub struct Store<D: Disk> {
    held: StoreForm<D>,
}

impl<D: Disk> Model for Store<D> {
    ghost use Rattle.std.specs.Prelude.{◌≡◌, None};
    ghost use Rattle.sg_stores.specs.Stores.{StoreState, IsBufferStore};
    ghost use Rattle.sg_stores.specs.declared.store.StoreForm.TheVariants.{Position, Buffer};

    ghost Value = { StoreState };

    ghost view = { λ s. elim s.held [ Position store ↦ store | Buffer store ↦ store ] };

    ghost invariant = { λ s. elim s.held [
      | Position store ↦ store.buffer ≡ None
      | Buffer store ↦ IsBufferStore store
    ] };
}

// What is found in a position store.
fn none_found(alloc: Global) -> BufferEntries
    ensures { result.heads.items ≡ [] }
{
    BufferEntries {
        heads: Vec::new(alloc),
        older: false,
        size: 0,
    }
}

impl<D: Disk> Store<D> {
    /// Opens a store of this kind, and looks through the entries of a disk-buffer. A refusal gives the
    /// disk back.
    pub fn open(
        alloc: Global,
        disk: D,
        kind: StoreKind,
    ) -> Result<(Store<D>, BufferEntries), (D, StoreRefusal)>
        ensures looked { IfOk result (λ opened. IsLookedAs kind (D.state disk) opened.1 opened.0) }
        ensures refused { IfErr result (λ e. IsUnlooked kind (D.state disk) (D.state e.0) e.1) }
    {
        match kind {
            StoreKind::Position => {
                let store = PositionStore::open(disk)?;
                Ok((
                    Store {
                        held: StoreForm::Position(store),
                    },
                    none_found(alloc),
                ))
            }
            StoreKind::Buffer { capacity } => {
                let (store, found) = BufferStore::open(alloc, disk, capacity)?;
                Ok((
                    Store {
                        held: StoreForm::Buffer(store),
                    },
                    found,
                ))
            }
        }
    }

    /// Spells the older entries of a disk-buffer anew.
    pub fn renew(&mut self, alloc: Global, found: &BufferEntries) -> Result<(), StoreRefusal>
        requires works { self.old.failed ≡ false }
        requires unstaged { IsUnstaged self.old.buffer }
        ensures { Renews self.old self.new found.now result }
    {
        match &mut self.held {
            StoreForm::Position(_) => Ok(()),
            StoreForm::Buffer(store) => store.renew(alloc, found),
        }
    }

    /// The position, 0 in a disk-buffer.
    pub fn position(&self) -> u64
        ensures { result ≡ self.now.position }
    {
        match &self.held {
            StoreForm::Position(store) => store.position(),
            StoreForm::Buffer(_) => 0,
        }
    }

    pub fn failed(&self) -> bool
        ensures { result ≡ self.now.failed }
    {
        match &self.held {
            StoreForm::Position(store) => store.failed(),
            StoreForm::Buffer(store) => store.failed(),
        }
    }

    pub fn write(&mut self, position: u64) -> Stored
        requires { IsPositionStore (Some self.old) }
        ensures kind { self.new.buffer ≡ self.old.buffer }
        ensures writes { WritesStored self.old self.new position result }
        ensures goes { StoreGoesOn self.old self.new }
    {
        match &mut self.held {
            StoreForm::Position(store) => store.write(position),
            StoreForm::Buffer(_) => Stored::Unchanged,
        }
    }

    pub fn stage(&mut self, block: &Block) -> bool
        ensures works { result ≡ not self.new.failed }
        ensures stages { StagesStore self.old self.new block.now }
    {
        match &mut self.held {
            StoreForm::Position(store) => !store.failed(),
            StoreForm::Buffer(store) => store.stage(block),
        }
    }

    pub fn commit(&mut self) -> bool
        ensures works { result ≡ not self.new.failed }
        ensures commits { CommitsStore self.old self.new }
    {
        match &mut self.held {
            StoreForm::Position(store) => !store.failed(),
            StoreForm::Buffer(store) => store.commit(),
        }
    }

    pub fn advance(&mut self, n: u64, size: u64) -> bool
        requires { CanAdvance (Some self.old) n size }
        ensures works { result ≡ not self.new.failed }
        ensures advances { AdvancesStore self.old self.new n size }
    {
        match &mut self.held {
            StoreForm::Position(store) => !store.failed(),
            StoreForm::Buffer(store) => store.advance(n, size),
        }
    }

    pub fn messages(&mut self, alloc: Global, n: u64) -> Result<Seq<Message>, RewriteRefusal>
        requires { CanRead (Some self.old) n }
        ensures stays { StoreStays self.old self.new }
        ensures reads { ReadsMessages self.old self.new n result }
    {
        match &mut self.held {
            StoreForm::Position(_) => Err(RewriteRefusal::NoMemory),
            StoreForm::Buffer(store) => store.messages(alloc, n),
        }
    }

    pub fn into_disk(self) -> D
        ensures { D.state result ≡ self.disk }
    {
        let Store { held } = self;
        match held {
            StoreForm::Position(store) => store.into_disk(),
            StoreForm::Buffer(store) => store.into_disk(),
        }
    }
}
