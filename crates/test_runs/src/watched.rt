// A watch that looks before each phase and behind the last one, and a machine on which nothing is told.

use sg_crew::{DestLook, SourceLook, Watch};
use sg_memory::{MemoryWorld, Pace};
use sg_world::MemoryMachine;
use std::alloc::Global;

/// What was seen last.
#[derive(Clone, Copy, Drop)]
pub(crate) struct Noted {
    pub(crate) looks: u64,
    pub(crate) records: u64,
    pub(crate) kept: u64,
    pub(crate) taken: u64,
    /// The stored positions together.
    pub(crate) stored: u64,
    /// How often a source had credit.
    pub(crate) eased: u64,
    /// An outlet failed.
    pub(crate) failed: bool,
    /// The run had ended.
    pub(crate) last: bool,
}

impl Noted {
    pub(crate) fn new() -> Noted {
        Noted {
            looks: 0,
            records: 0,
            kept: 0,
            taken: 0,
            stored: 0,
            eased: 0,
            failed: false,
            last: false,
        }
    }
}

impl Watch<MemoryMachine> for Noted {
    fn most(&self) -> u64 {
        4
    }

    fn note(&mut self, _world: &MemoryMachine, _dest: usize, fails: bool) {
        self.failed = self.failed || fails;
    }

    fn is_due(&mut self, _world: &mut MemoryMachine) -> bool {
        true
    }

    fn look(
        &mut self,
        _world: &mut MemoryMachine,
        sources: &[SourceLook],
        dests: &[DestLook],
        last: bool,
    ) {
        let mut seen = Noted::new();
        seen.failed = self.failed;
        seen.looks = self.looks.saturating_add(1);
        for source in sources {
            seen.records = seen.records.saturating_add(source.records);
            seen.stored = seen.stored.saturating_add(source.stored.unwrap_or(0));
            seen.eased = seen.eased.saturating_add(source.eased);
        }
        for dest in dests {
            seen.kept = seen.kept.saturating_add(dest.offered.kept);
            seen.taken = seen.taken.saturating_add(dest.taken);
        }
        seen.last = last;
        *self = seen;
    }
}

pub(crate) fn machine(alloc: Global) -> MemoryMachine {
    MemoryMachine {
        world: MemoryWorld::new(alloc, Vec::new(alloc), Pace { piece: 7, at: 0 }),
    }
}
