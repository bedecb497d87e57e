// The machine that the program runs on: real files, sockets and standard output.
ghost use Rattle.std.specs.Prelude.{◌≡◌, IfOk};
ghost use Rattle.sg_pattern.specs.Builds.{Builds};
ghost use Rattle.sg_world.specs.Host.{host_state, unused};

use crate::World;
use crate::world::LONGEST;
use regex::bytes::Regex;
use sg_device::{FileRefusal, Name, NoMemory, OpenRefusal, SayRefusal};
use sg_host::{
    HostDrain, HostFeed, HostInlets, HostOpener, HostOutlets, HostPaths, HostStore, HostStores,
    IdleWait, Timer, moment, read_file, say, tell,
};
use sg_outside::{Files, InletSpec, Machine, OutletSpec, StoreSpec};
use sg_pattern::{BuildFault, Builder, Patterns};
use std::alloc::Global;
use std::thread::Threads;

/// The machine. It tells nothing of the content of files and devices. When a device begins to fail,
/// and when it works again, it says so on standard error.
pub struct HostMachine<T: Threads + Copy> {
    threads: T,
    rt: HostRuntime,
    inlets: HostInlets,
    outlets: HostOutlets<T>,
    paths: HostPaths,
    stores: HostStores,
    // The name of the file whose reading failed last.
    unread: Option<Name>,
    read_faults: u64,
    say_faults: u64,
    // What it made of patterns, and how many were refused for their size.
    patterns: Patterns,
    // The texts for standard error that were dropped since one was written.
    untold: u64,
    timer: Timer,
}

impl<T: Threads + Copy> Drop for HostMachine<T> {
    fn drop(self) {
        let HostMachine {
            threads: _threads,
            rt: _rt,
            inlets: _inlets,
            outlets: _outlets,
            paths: _paths,
            stores: _stores,
            unread: _unread,
            read_faults: _read_faults,
            say_faults: _say_faults,
            patterns: _patterns,
            untold: _untold,
            timer: _timer,
        } = self;
    }
}

impl<T: Threads + Copy> HostMachine<T> {
    /// The machine, of which nothing was asked yet. `threads` is the runtime again, as what opens
    /// sources and looks names up.
    pub fn new(threads: T, rt: HostRuntime) -> Result<HostMachine<T>, NoMemory>
        ensures { IfOk result (λ machine. host_state machine ≡ unused) }
    {
        let alloc = rt.alloc();
        let rest = IdleWait::new(alloc, rt)?;
        Ok(HostMachine {
            threads,
            rt,
            inlets: HostInlets::new(alloc, rt, rest.share()?),
            outlets: HostOutlets::new(threads, alloc, rt, rest.share()?),
            paths: HostPaths::new(alloc, rt, rest.share()?),
            stores: HostStores::new(alloc, rt, rest),
            unread: None,
            read_faults: 0,
            say_faults: 0,
            patterns: Patterns::new(alloc),
            untold: 0,
            timer: Timer::new(rt),
        })
    }
}

impl<T: Threads + Copy> Machine for HostMachine<T> {
    ghost state = { host_state };
}

impl<T: Threads + Copy> Files for HostMachine<T> {
    fn read(&mut self, alloc: Global, name: &[u8]) -> Result<Vec<u8>, FileRefusal> {
        let unread = Name::new(alloc, name)?;
        let result = read_file(alloc, self.rt, &mut self.read_faults, name, LONGEST);
        if result == Err(FileRefusal::Failed) {
            self.unread = Some(unread);
        }
        result
    }
}

impl<T: Threads + Copy> Builder for HostMachine<T> {
    ghost build_step = { λ old text ignore_case result new.
        Builds (host_state old) (host_state new) text ignore_case result };

    fn build(
        &mut self,
        alloc: Global,
        text: &str,
        ignore_case: bool,
    ) -> Result<&'static Regex, BuildFault> {
        match self.patterns.build(alloc, text, ignore_case) {
            Ok(regex) => Ok(regex),
            Err(BuildFault::Syntax) => Err(BuildFault::Syntax),
            Err(BuildFault::TooLarge) => Err(BuildFault::TooLarge),
            Err(BuildFault::NoMemory) => Err(BuildFault::NoMemory),
        }
    }
}

impl<T: Threads + Copy + Send> World for HostMachine<T> {
    type Feed = HostFeed;

    type Drain = HostDrain<T>;

    type Store = HostStore;

    type Paths = HostOpener;

    fn open_store(&mut self, alloc: Global, spec: &StoreSpec) -> Result<HostStore, OpenRefusal> {
        self.stores.open(alloc, spec)
    }

    fn open_inlet(
        &mut self,
        alloc: Global,
        spec: &InletSpec,
        from: u64,
    ) -> Result<(HostFeed, u64), OpenRefusal> {
        // The store of a file's position was opened before the file.
        let marked = self.stores.is_used();
        self.inlets.open(&self.threads, alloc, spec, from, marked)
    }

    fn open_outlet(
        &mut self,
        alloc: Global,
        spec: &OutletSpec,
    ) -> Result<HostDrain<T>, OpenRefusal> {
        self.outlets.open(alloc, spec)
    }

    fn open_paths(&mut self, alloc: Global, spec: &OutletSpec) -> Result<HostOpener, OpenRefusal> {
        self.paths.open(alloc, spec)
    }

    fn close_store(&mut self, store: HostStore) {
        self.stores.close(store);
    }

    fn close_inlet(&mut self, feed: HostFeed) {
        self.inlets.close(feed);
    }

    fn close_outlet(&mut self, drain: HostDrain<T>) {
        self.outlets.close(drain);
    }

    fn close_paths(&mut self, opener: HostOpener) {
        self.paths.close(opener);
    }

    fn say(&mut self, _alloc: Global, bytes: &[u8]) -> Result<(), SayRefusal> {
        say(self.rt, &mut self.say_faults, bytes)
    }

    fn tell(&mut self, bytes: &[u8]) {
        tell(self.rt, &mut self.untold, bytes);
    }

    fn is_due(&mut self, seconds: u32) -> bool {
        self.timer.is_due(seconds)
    }

    fn clock(&self) -> i64 {
        moment(&self.rt)
    }
}
