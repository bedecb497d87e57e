// The machine in memory: each call is passed on.
ghost use Rattle.sg_memory.specs.World.{world_of};
ghost use Rattle.sg_pattern.specs.Builds.{Builds};

use crate::World;
use crate::world::LONGEST;
use regex::bytes::Regex;
use sg_device::{FileRefusal, OpenRefusal, SayRefusal};
use sg_memory::{MemoryDrain, MemoryFeed, MemoryOpener, MemoryWorld};
use sg_memory_disk::MemoryStore;
use sg_outside::{Files, InletSpec, Machine, OutletSpec, StoreSpec};
use sg_pattern::{BuildFault, Builder, Patterns};
use std::alloc::Global;

/// A machine in memory. It tells all that it holds.
#[derive(Drop)]
pub struct MemoryMachine {
    pub world: MemoryWorld,
}

impl Machine for MemoryMachine {
    ghost state = { λ m. world_of m.world };
}

impl Files for MemoryMachine {
    fn read(&mut self, alloc: Global, name: &[u8]) -> Result<Vec<u8>, FileRefusal> {
        self.world.read_file(alloc, name, LONGEST)
    }
}

impl Builder for MemoryMachine {
    ghost build_step = { λ old text ignore_case result new.
        Builds (world_of old.world) (world_of new.world) text ignore_case result };

    fn build(
        &mut self,
        alloc: Global,
        text: &str,
        ignore_case: bool,
    ) -> Result<&'static Regex, BuildFault> {
        let mut patterns = Patterns::new(alloc);
        match patterns.build(alloc, text, ignore_case) {
            Ok(regex) => {
                if self.world.fails_build() {
                    return Err(BuildFault::TooLarge);
                }
                Ok(regex)
            }
            Err(BuildFault::Syntax) => Err(BuildFault::Syntax),
            Err(BuildFault::TooLarge) => {
                self.world.refuse_build();
                Err(BuildFault::TooLarge)
            }
            Err(BuildFault::NoMemory) => Err(BuildFault::NoMemory),
        }
    }
}

impl World for MemoryMachine {
    type Feed = MemoryFeed;

    type Drain = MemoryDrain;

    type Store = MemoryStore;

    type Paths = MemoryOpener;

    fn open_store(&mut self, alloc: Global, spec: &StoreSpec) -> Result<MemoryStore, OpenRefusal> {
        self.world.open_store(alloc, spec)
    }

    fn open_inlet(
        &mut self,
        alloc: Global,
        spec: &InletSpec,
        from: u64,
    ) -> Result<(MemoryFeed, u64), OpenRefusal> {
        self.world.open_inlet(alloc, spec, from)
    }

    fn open_outlet(
        &mut self,
        alloc: Global,
        spec: &OutletSpec,
    ) -> Result<MemoryDrain, OpenRefusal> {
        self.world.open_outlet(alloc, spec)
    }

    fn open_paths(
        &mut self,
        alloc: Global,
        spec: &OutletSpec,
    ) -> Result<MemoryOpener, OpenRefusal> {
        self.world.open_paths(alloc, spec)
    }

    fn close_store(&mut self, store: MemoryStore) {
        self.world.close_store(store);
    }

    fn close_inlet(&mut self, feed: MemoryFeed) {
        self.world.close_inlet(feed);
    }

    fn close_outlet(&mut self, drain: MemoryDrain) {
        self.world.close_outlet(drain);
    }

    fn close_paths(&mut self, opener: MemoryOpener) {
        self.world.close_paths(opener);
    }

    fn say(&mut self, _alloc: Global, bytes: &[u8]) -> Result<(), SayRefusal> {
        self.world.say(bytes)
    }

    fn tell(&mut self, bytes: &[u8]) {
        self.world.tell(bytes);
    }

    fn is_due(&mut self, _seconds: u32) -> bool {
        self.world.is_due()
    }

    fn clock(&self) -> i64 {
        self.world.pace.at
    }
}
