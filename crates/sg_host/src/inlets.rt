// The inlets that a real machine opens and closes.
ghost use Rattle.std.specs.Prelude.{◌≡◌, [], MatchResult};
ghost use Rattle.sg_outside.specs.World.{with_closed};
ghost use Rattle.sg_file.specs.Counts.{inlet_state};
ghost use Rattle.sg_host.specs.Inlets.{source_of, feed_of, inlets_of, InletsOpen, InletsRefuse, IsHostOpenedFor};

use crate::cells::{HostInletCell, add_inlet, inlet_cell};
use crate::marked::MarkedFile;
use sg_device::{Inlet, InletFault, Name, NoMemory, OpenRefusal, Pull};
use sg_file::{Health, IdleWait, InletCounts};
use sg_net::{Acceptor, Listener, SlotInlet};
use sg_outside::InletSpec;
use std::alloc::Global;
use std::io::{self, ErrorKind};
use std::sync::Arc;
use std::thread::Threads;

/// A file, or a slot of a listener.
#[derive(Drop)]
pub enum InletDevice {
    File(MarkedFile),
    Slot(SlotInlet),
}

impl InletDevice {
    /// What was counted so far.
    pub fn counts(&self) -> &InletCounts
        ensures { inlet_state result.now ≡ source_of self.now }
    {
        match self {
            InletDevice::File(file) => file.counts(),
            InletDevice::Slot(slot) => slot.counts(),
        }
    }

    /// Closes it, and hands out what was counted.
    pub fn into_counts(self) -> InletCounts
        ensures { inlet_state result ≡ source_of self }
    {
        match self {
            InletDevice::File(file) => file.into_counts(),
            InletDevice::Slot(slot) => slot.into_counts(),
        }
    }
}

/// An open inlet, with the memory for its closing.
#[derive(Drop)]
pub struct HostFeed {
    source: InletDevice,
    cell: Box<HostInletCell>,
}

impl HostFeed {
    /// What was counted so far.
    pub fn counts(&self) -> &InletCounts
        ensures { inlet_state result.now ≡ feed_of self.now }
    {
        self.source.counts()
    }
}

impl Inlet for HostFeed {
    ghost state = { feed_of };

    fn pull(&mut self, into: &mut [u8]) -> Result<Pull, InletFault> {
        match &mut self.source {
            InletDevice::File(file) => file.pull(into),
            InletDevice::Slot(slot) => slot.pull(into),
        }
    }

    fn peer(&self) -> &[u8] {
        &self.source.counts().peer
    }

    fn hangup(&mut self) {
        match &mut self.source {
            InletDevice::File(file) => file.hangup(),
            InletDevice::Slot(slot) => slot.hangup(),
        }
    }
}

/// What an inlet was opened for, and what it had counted then.
#[derive(Drop)]
pub struct HostOpenedInlet {
    spec: InletSpec,
    counts: InletCounts,
}

/// The inlets opened, those closed, and the number of openings that failed.
pub struct HostInlets {
    rt: HostRuntime,
    rest: IdleWait,
    // The listeners of all slots, as long as an inlet is open, and the number of those.
    listeners: Vec<Listener>,
    alive: usize,
    opened: Vec<HostOpenedInlet>,
    closed: Option<Box<HostInletCell>>,
    pub faults: u64,
}

impl Drop for HostInlets {
    fn drop(self) {
        let HostInlets {
            rt: _rt,
            rest: _rest,
            listeners: _listeners,
            alive: _alive,
            opened: _opened,
            closed: _closed,
            faults: _faults,
        } = self;
    }
}

impl HostInlets {
    /// None was opened yet.
    pub fn new(alloc: Global, rt: HostRuntime, rest: IdleWait) -> HostInlets
        ensures none { inlets_of result ≡ record { opened = []; closed = [] } }
        ensures faults { result.faults ≡ 0 }
    {
        HostInlets {
            rt,
            rest,
            listeners: Vec::new(alloc),
            alive: 0,
            opened: Vec::new(alloc),
            closed: None,
            faults: 0,
        }
    }

    /// Opens an inlet, and tells the place at which reading begins: a byte's number from 0. It is 0
    /// for a slot, and where the file has fewer bytes than `from`, `from` is 2^63 or more, or no
    /// record can have ended there. Where the position of a file is stored, as `marked` says, it is 0 too
    /// where the file is another one than that in which it was. `threads` is the runtime again, as what opens
    /// a file.
    pub fn open<T: Threads>(
        &mut self,
        threads: &T,
        alloc: Global,
        spec: &InletSpec,
        from: u64,
        marked: bool,
    ) -> Result<(HostFeed, u64), OpenRefusal>
        ensures { MatchResult result
            (λ opened. InletsOpen self.old self.new spec.now from (feed_of opened.0) opened.1)
            (λ refusal. InletsRefuse self.old self.new refusal) }
    {
        let cell = inlet_cell(alloc)?;
        let source = match self.open_source(threads, alloc, spec, from, marked) {
            Ok(source) => source,
            Err(OpenRefusal::NoMemory) => return Err(OpenRefusal::NoMemory),
            Err(OpenRefusal::Failed) => {
                self.faults = self.faults.saturating_add(1);
                return Err(OpenRefusal::Failed);
            }
        };
        let (opened, place) = remember(alloc, spec, source.counts())?;
        if self.opened.push(opened).is_err() {
            return Err(OpenRefusal::NoMemory);
        }
        self.alive = self.alive.saturating_add(1);
        Ok((HostFeed { source, cell }, place))
    }

    // Opens what is asked for, and leaves the lists as they are.
    fn open_source<T: Threads>(
        &mut self,
        threads: &T,
        alloc: Global,
        spec: &InletSpec,
        from: u64,
        marked: bool,
    ) -> Result<InletDevice, OpenRefusal>
        ensures lists { inlets_of self.new ≡ inlets_of self.old }
        ensures faults { self.new.faults ≡ self.old.faults }
        ensures opened { MatchResult result
            (λ source. IsHostOpenedFor spec.now from (source_of source))
            (λ _. Unit {0}) }
    {
        let rest = self.rest.share()?;
        match spec {
            InletSpec::File { path, once, limit } => {
                let path = path.bytes();
                let file = MarkedFile::open(
                    threads, alloc, self.rt, path, *once, *limit, from, marked, &rest,
                )?;
                Ok(InletDevice::File(file))
            }
            InletSpec::Slot { ip, port, once, .. } => {
                let ip = ip.bytes();
                let name = address(alloc, ip, *port)?;
                let acceptor = self.acceptor(alloc, ip, *port, &name)?;
                let slot = SlotInlet::open(alloc, self.rt, acceptor, &name, *once, rest)?;
                Ok(InletDevice::Slot(slot))
            }
        }
    }

    // What accepts the connections to this address, bound where it isn't yet.
    fn acceptor(
        &mut self,
        alloc: Global,
        ip: &[u8],
        port: u16,
        name: &[u8],
    ) -> Result<Arc<Acceptor>, OpenRefusal>
        ensures lists { inlets_of self.new ≡ inlets_of self.old }
        ensures faults { self.new.faults ≡ self.old.faults }
    {
        for listener in &self.listeners {
            if listener.is_on(ip, port) {
                return Ok(listener.acceptor()?);
            }
        }
        let mut health = Health::new(alloc, self.rt, "source", name)?;
        match Listener::bind(alloc, self.rt, ip, port) {
            Ok(listener) => {
                let acceptor = listener.acceptor()?;
                if self.listeners.push(listener).is_err() {
                    return Err(OpenRefusal::NoMemory);
                }
                Ok(acceptor)
            }
            Err(error) if error.kind() == ErrorKind::OutOfMemory => Err(OpenRefusal::NoMemory),
            Err(error) => {
                health.fails("listen", &error);
                Err(OpenRefusal::Failed)
            }
        }
    }

    /// Closes an inlet. It takes no memory.
    pub fn close(&mut self, feed: HostFeed)
        ensures closed { inlets_of self.new ≡ with_closed (inlets_of self.old) (feed_of feed) }
        ensures faults { self.new.faults ≡ self.old.faults }
    {
        let HostFeed { source, cell } = feed;
        add_inlet(&mut self.closed, cell, source.into_counts());
        self.alive = self.alive.saturating_sub(1);
        if self.alive == 0 {
            self.listeners.clear();
        }
    }
}

// An address as text.
fn address(alloc: Global, ip: &[u8], port: u16) -> Result<Vec<u8>, NoMemory> {
    let mut name = ip.to_vec(alloc)?;
    let behind = format!(in alloc; ":{port}")?;
    name.extend_from_slice(behind.as_bytes())?;
    Ok(name)
}

// What is kept of an opening, and the place at which reading begins.
fn remember(
    alloc: Global,
    spec: &InletSpec,
    counts: &InletCounts,
) -> Result<(HostOpenedInlet, u64), NoMemory>
    ensures { MatchResult result (λ kept. (kept.0.spec ≡ spec.now)
        × (inlet_state kept.0.counts ≡ inlet_state counts.now) × (kept.1 ≡ counts.now.place))
        (λ _. Unit {0}) }
{
    Ok((
        HostOpenedInlet {
            spec: spec.copy()?,
            counts: counts.copy()?,
        },
        counts.place,
    ))
}
