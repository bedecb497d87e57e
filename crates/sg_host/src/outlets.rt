// The outlets that a real machine opens and closes.
ghost use Rattle.std.specs.Prelude.{◌≡◌, [], IfOk, MatchResult};
ghost use Rattle.sg_outside.specs.World.{IsByPath, with_closed};
ghost use Rattle.sg_file.specs.Counts.{outlet_state, new_outlet};
ghost use Rattle.sg_host.specs.Outlets.{real_of, drain_of, outlets_of, OutletsOpen, OutletsRefuse};

use crate::cells::{HostOutletCell, add_outlet, outlet_cell};
use sg_device::{Frames, OpenRefusal, Outlet, OutletFault, Reopened, SendRefusal};
use sg_file::{Appending, FileOutlet, IdleWait, OutletCounts};
use sg_net::TcpOutlet;
use sg_outside::OutletSpec;
use std::alloc::Global;
use std::thread::Threads;

/// A file, or a connection.
#[derive(Drop)]
pub enum RealOutlet<T: Threads + Copy> {
    File(FileOutlet),
    Tcp(TcpOutlet<T>),
}

/// An open outlet, with the memory for its closing.
#[derive(Drop)]
pub struct HostDrain<T: Threads + Copy> {
    real: RealOutlet<T>,
    cell: Box<HostOutletCell>,
}

impl<T: Threads + Copy> HostDrain<T> {
    /// What was counted so far.
    pub fn counts(&self) -> OutletCounts
        ensures { outlet_state result ≡ drain_of self.now }
    {
        match &self.real {
            RealOutlet::File(file) => file.counts(),
            RealOutlet::Tcp(tcp) => tcp.counts(),
        }
    }
}

impl<T: Threads + Copy> Outlet for HostDrain<T> {
    ghost state = { drain_of };

    fn send(&mut self, frames: &Frames) -> Result<(), SendRefusal> {
        match &mut self.real {
            RealOutlet::File(file) => file.send(frames),
            RealOutlet::Tcp(tcp) => tcp.send(frames),
        }
    }

    fn taken(&self) -> u64 {
        let counts = self.counts();
        counts.taken
    }

    fn reopen(&mut self) -> Result<Reopened, OutletFault> {
        match &mut self.real {
            RealOutlet::File(file) => file.reopen(),
            RealOutlet::Tcp(tcp) => tcp.reopen(),
        }
    }
}

/// The outlets opened, those closed, and the number of openings that failed.
pub struct HostOutlets<T: Threads + Copy> {
    threads: T,
    rt: HostRuntime,
    rest: IdleWait,
    opened: Vec<OutletSpec>,
    closed: Option<Box<HostOutletCell>>,
    pub faults: u64,
}

impl<T: Threads + Copy> Drop for HostOutlets<T> {
    fn drop(self) {
        let HostOutlets {
            threads: _threads,
            rt: _rt,
            rest: _rest,
            opened: _opened,
            closed: _closed,
            faults: _faults,
        } = self;
    }
}

impl<T: Threads + Copy> HostOutlets<T> {
    /// None was opened yet. `threads` is the runtime again, as what starts look-ups of names.
    pub fn new(threads: T, alloc: Global, rt: HostRuntime, rest: IdleWait) -> HostOutlets<T>
        ensures none { outlets_of result ≡ record { opened = []; closed = [] } }
        ensures faults { result.faults ≡ 0 }
    {
        HostOutlets {
            threads,
            rt,
            rest,
            opened: Vec::new(alloc),
            closed: None,
            faults: 0,
        }
    }

    /// Opens an outlet for one file or one connection.
    pub fn open(&mut self, alloc: Global, spec: &OutletSpec) -> Result<HostDrain<T>, OpenRefusal>
        ensures { MatchResult result
            (λ drain. OutletsOpen self.old self.new spec.now (drain_of drain))
            (λ refusal. OutletsRefuse self.old self.new refusal) }
    {
        let cell = outlet_cell(alloc)?;
        let real = match self.open_real(alloc, spec) {
            Ok(real) => real,
            Err(OpenRefusal::NoMemory) => return Err(OpenRefusal::NoMemory),
            Err(OpenRefusal::Failed) => {
                self.faults = self.faults.saturating_add(1);
                return Err(OpenRefusal::Failed);
            }
        };
        if self.opened.push(spec.copy()?).is_err() {
            return Err(OpenRefusal::NoMemory);
        }
        Ok(HostDrain { real, cell })
    }

    fn open_real(&self, alloc: Global, spec: &OutletSpec) -> Result<RealOutlet<T>, OpenRefusal>
        ensures { IfOk result (λ real. real_of real ≡ new_outlet) }
    {
        let rest = self.rest.share()?;
        match spec {
            OutletSpec::File {
                path,
                fsync,
                mode,
                folders,
                reopen,
            } => {
                let how = Appending {
                    fsync: *fsync,
                    mode: *mode,
                    folders: *folders,
                    reopen: *reopen,
                };
                let file = FileOutlet::open(alloc, self.rt, path.bytes(), how, rest)?;
                Ok(RealOutlet::File(file))
            }
            OutletSpec::Tcp { host, port, reopen } => {
                let host = host.bytes();
                let tcp = TcpOutlet::open(
                    self.threads,
                    alloc,
                    self.rt,
                    host,
                    *port,
                    *reopen,
                    rest,
                )?;
                Ok(RealOutlet::Tcp(tcp))
            }
            OutletSpec::ByPath { .. } => Err(OpenRefusal::Failed),
        }
    }

    /// Closes an outlet. It takes no memory.
    pub fn close(&mut self, drain: HostDrain<T>)
        ensures closed { outlets_of self.new ≡ with_closed (outlets_of self.old) (drain_of drain) }
        ensures faults { self.new.faults ≡ self.old.faults }
    {
        let HostDrain { real, cell } = drain;
        let counts = match real {
            RealOutlet::File(file) => file.counts(),
            RealOutlet::Tcp(tcp) => tcp.into_counts(),
        };
        add_outlet(&mut self.closed, cell, counts);
    }
}
