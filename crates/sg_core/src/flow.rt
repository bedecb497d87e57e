// The core, and what it tells.
ghost use Rattle.std.specs.Prelude.{◌≡◌, ◌<◌, List, Some, IfOk, map, length, slice_get, option_map};
ghost use Rattle.sg_device.specs.Disk.{DiskState};
ghost use Rattle.sg_machine.specs.declared.setup.Setup.{Setup};
ghost use Rattle.sg_machine.specs.declared.state.State.{State};
ghost use Rattle.sg_stores.specs.Positions.{stored_in};
ghost use Rattle.sg_stores.specs.Stores.{AllGo};
ghost use Rattle.sg_standing.specs.Sources.{credit_at, store_at};
ghost use Rattle.sg_standing.specs.Standing.{IsAt};
ghost use Rattle.sg_standing.specs.States.{CoreState};
ghost use Rattle.sg_core.specs.Answers.{credit_left, stored_position, Tallies};
ghost use Rattle.sg_core.specs.Failing.{FailsAt};
ghost use Rattle.sg_core.specs.Opening.{IsOpen};

use crate::tallies::{tally_sinks, tally_sources};
use sg_device::{Disk, NoMemory};
use sg_list::Seq;
use sg_machine::Tally;
use sg_sinks::Sink;
use sg_standing::Source;
use sg_stores::Stores;
use std::alloc::Global;
use std::marker::Model;

/// The flow core. Its sources have windows, and some a position store each; its destinations have queues
/// in memory, or disk-buffers.
pub struct Core<D: Disk> {
    pub(crate) sources: Seq<Source>,
    pub(crate) sinks: Seq<Sink>,
    pub(crate) stores: Stores<D>,
    pub(crate) calls: u64,
}

impl<D: Disk> Model for Core<D> {
    ghost use Rattle.sg_offers.specs.Rooms.{seen_in};
    ghost use Rattle.sg_standing.specs.States.{CoreState};
    ghost use Rattle.sg_core.specs.Whole.{IsWholeCore};

    ghost Value = { CoreState };

    ghost view = { λ c. record {
      sources = c.sources;
      sinks = seen_in c.sinks;
      stores = c.stores;
      calls = c.calls;
    } };

    ghost invariant = { λ c. IsWholeCore (record {
      sources = c.sources;
      sinks = seen_in c.sinks;
      stores = c.stores;
      calls = c.calls;
    }) };
}

impl<D: Disk> Core<D> {
    /// Gives the stores back, in the order of their numbers. Takes no memory.
    pub fn into_stores(self) -> Vec<D>
        ensures { map D.state result.items ≡ map (λ store. store.disk) self.stores }
    {
        let Core {
            sources: _,
            sinks: _,
            stores,
            calls: _,
        } = self;
        stores.into_disks()
    }

    /// The numbers that the core has come to.
    pub fn tally(&self, alloc: Global) -> Result<Tally, NoMemory>
        ensures { IfOk result (Tallies self.now) }
    {
        let sources = tally_sources(alloc, self.sources.as_slice(), &self.stores)?;
        let dests = tally_sinks(alloc, self.sinks.as_slice())?;
        Ok(Tally {
            sources: Seq::new(sources),
            dests: Seq::new(dests),
        })
    }

    /// How many calls have changed the core, refused ones and looks at a front included.
    pub fn calls(&self) -> u64
        ensures { result ≡ self.now.calls }
    {
        self.calls
    }

    /// How many records the source may give now.
    pub fn credit(&self, i: u32) -> u64
        requires { i < length self.now.sources }
        ensures value { result ≡ credit_at self.now.sources i }
        ensures stands { (state : State) → IsAt self.now state → result ≡ credit_left state i }
    {
        self.sources.at(i as usize).credit()
    }

    /// The stored position of the source, 0 where it has no store.
    pub fn position(&self, i: u32) -> u64
        requires { i < length self.now.sources }
        ensures value { result ≡ stored_in self.now.stores (store_at self.now.sources i) }
        ensures stands { (state : State) → IsAt self.now state → result ≡ stored_position state i }
    {
        self.stores.stored(self.sources.at(i as usize).setup.store)
    }

    /// Whether a call on the store of that number has failed since the opening: exactly where its disk has
    /// counted a fault since then.
    pub fn failed(&self, store: u32) -> bool
        requires { store < length self.now.stores }
        ensures flag { option_map (λ s. s.failed) (slice_get self.now.stores store) ≡ Some result }
        ensures faults { (setup : Setup) (disks : List DiskState) (first : CoreState)
            → IsOpen setup disks first → AllGo first.stores self.now.stores
            → FailsAt disks self.now.stores store result }
    {
        self.stores.failed(store)
    }
}
