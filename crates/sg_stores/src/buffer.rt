// A disk-buffer.
ghost use Rattle.std.specs.Prelude.{◌≡◌, not, false, IfOk, IfErr, Some};
ghost use Rattle.sg_stores.specs.Advancing.{CanAdvance, AdvancesStore};
ghost use Rattle.sg_stores.specs.Appending.{StagesStore, CommitsStore};
ghost use Rattle.sg_stores.specs.Looking.{IsLookedBuffer, IsUnlooked, IsUnstaged, Renews};
ghost use Rattle.sg_stores.specs.Reading.{CanRead, ReadsMessages, StoreStays};
ghost use Rattle.sg_stores.specs.Stores.{IsBufferStore};
ghost use Rattle.sg_stores.specs.declared.kind.StoreKind.TheVariants.{Buffer};

use sg_buffer::{BufferEntries, first_messages, first_messages_are_kept, look, renew};
use sg_device::Disk;
use sg_list::Seq;
use sg_msg::Message;
use sg_spool::{Appended, Block, RewriteRefusal, Spool};
use sg_stable::StoreRefusal;
use std::alloc::Global;
use std::marker::Model;

/// An open disk-buffer.
pub struct BufferStore<D: Disk> {
    spool: Spool<D>,
    // A call on it has failed.
    failed: bool,
}

impl<D: Disk> Model for BufferStore<D> {
    ghost use Rattle.sg_stores.specs.Stores.{StoreState, buffer_state};
    ghost use Rattle.sg_stores.specs.Looking.{IsFlagged};

    ghost Value = { StoreState };

    ghost view = { λ s. buffer_state D.state s.failed s.spool };

    ghost invariant = { λ s. IsFlagged s.failed s.spool };
}

impl<D: Disk> BufferStore<D> {
    /// Opens a disk-buffer and looks through its entries. A refusal gives the disk back.
    pub fn open(
        alloc: Global,
        disk: D,
        capacity: u64,
    ) -> Result<(BufferStore<D>, BufferEntries), (D, StoreRefusal)>
        ensures looked { IfOk result
            (λ opened. IsLookedBuffer (D.state disk) capacity opened.1 opened.0) }
        ensures refused { IfErr result
            (λ e. IsUnlooked (Buffer capacity) (D.state disk) (D.state e.0) e.1) }
    {
        let mut spool = Spool::open(disk, capacity)?;
        let _first = spool.head();
        match look(alloc, &mut spool) {
            Ok(found) => Ok((
                BufferStore {
                    spool,
                    failed: false,
                },
                found,
            )),
            Err(refusal) => Err((spool.into_disk(), refusal)),
        }
    }

    /// Spells the entries that were found in format 2, where one of them is of format 1. The store has
    /// failed where it refuses.
    pub fn renew(&mut self, alloc: Global, found: &BufferEntries) -> Result<(), StoreRefusal>
        requires works { self.old.failed ≡ false }
        requires unstaged { IsUnstaged self.old.buffer }
        ensures buffer { IsBufferStore self.new }
        ensures renews { Renews self.old self.new found.now result }
    {
        if let Err(refusal) = renew(alloc, &mut self.spool, found) {
            self.failed = true;
            return Err(refusal);
        }
        let _live = self.spool.live();
        Ok(())
    }

    pub fn failed(&self) -> bool
        ensures { result ≡ self.now.failed }
    {
        self.failed
    }

    /// Stages the payload of an entry that fits. Whether the store works.
    pub fn stage(&mut self, block: &Block) -> bool
        ensures buffer { IsBufferStore self.new }
        ensures works { result ≡ not self.new.failed }
        ensures stages { StagesStore self.old self.new block.now }
    {
        if self.failed {
            return false;
        }
        match self.spool.stage(block) {
            Appended::Done => true,
            Appended::NoRoom => true,
            Appended::DiskFailed => {
                self.failed = true;
                false
            }
        }
    }

    /// Commits what is staged. Whether the store works.
    pub fn commit(&mut self) -> bool
        ensures buffer { IsBufferStore self.new }
        ensures works { result ≡ not self.new.failed }
        ensures commits { CommitsStore self.old self.new }
    {
        if self.failed {
            return false;
        }
        let _live = self.spool.live();
        match self.spool.commit() {
            Ok(()) => true,
            Err(_) => {
                self.failed = true;
                false
            }
        }
    }

    /// Takes the first entries off, which take so many bytes. Whether the store works.
    pub fn advance(&mut self, n: u64, size: u64) -> bool
        requires { CanAdvance (Some self.old) n size }
        ensures buffer { IsBufferStore self.new }
        ensures works { result ≡ not self.new.failed }
        ensures advances { AdvancesStore self.old self.new n size }
    {
        if self.failed {
            return false;
        }
        match self.spool.advance_over(n, size) {
            Ok(()) => true,
            Err(_) => {
                self.failed = true;
                false
            }
        }
    }

    /// The messages of the first entries, so many.
    pub fn messages(&mut self, alloc: Global, n: u64) -> Result<Seq<Message>, RewriteRefusal>
        requires { CanRead (Some self.old) n }
        ensures buffer { IsBufferStore self.new }
        ensures stays { StoreStays self.old self.new }
        ensures reads { ReadsMessages self.old self.new n result }
    {
        first_messages_are_kept();
        match first_messages(alloc, &mut self.spool, n) {
            Ok(messages) => Ok(Seq::new(messages)),
            Err(RewriteRefusal::DiskFault) => {
                self.failed = true;
                Err(RewriteRefusal::DiskFault)
            }
            Err(RewriteRefusal::NoMemory) => Err(RewriteRefusal::NoMemory),
        }
    }

    pub fn into_disk(self) -> D
        ensures { D.state result ≡ self.disk }
    {
        let BufferStore { spool, failed: _ } = self;
        spool.into_disk()
    }
}
