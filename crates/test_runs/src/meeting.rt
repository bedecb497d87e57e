// A source and a destination whose turns wait for each other in two rounds.
ghost use Rattle.std.specs.Prelude.{◌≡◌, ◌<◌, ◌++◌, ◌∷◌, [], IfOk, length};
ghost use Rattle.sg_memory.specs.Inlet.{inlet_of};
ghost use Rattle.sg_memory.specs.Outlet.{outlet_of};
ghost use Rattle.sg_counter.specs.Bringing.{IsBatch};
ghost use Rattle.sg_standing.specs.States.{setup_of};
ghost use Rattle.sg_turns.specs.Actors.{IsSource, AreSources, IsDest, AreDests};
ghost use Rattle.test_runs.specs.Runs.{meeting, two};

use crate::watched::{Noted, machine};
use sg_actor::{DestActor, SourceActor, SourceSpec};
use sg_core::Core;
use sg_crew::serve;
use sg_device::{
    Frames, Inlet, InletFault, NoMemory, Outlet, OutletFault, Pull, Reopened, SendRefusal,
};
use sg_engine::Served;
use sg_frame::FrameKind;
use sg_list::Seq;
use sg_machine::{Admission, BufferSetup, DestSetup, Setup, SourceSetup};
use sg_memory::{MemoryInlet, MemoryOutlet, OutletScript, Pace};
use sg_memory_disk::{FaultPlan, MemoryDisk};
use sg_msg::Offer;
use sg_template::Env;
use std::alloc::{AllocError, Global};
use std::sync::Wait;
use std::sync::atomic::{AtomicU64, Ordering};
use std::thread;
use std::thread::Threads;
use std::time::{Clock, Duration};
use test_flow::{ByDigit, close_dests, close_sources, disks, message, shape, two_dests};

// In how many rounds they meet.
const MEETINGS: u64 = 2;

// How often each of both has come, and how often one has seen the other one.
#[derive(Drop)]
struct MeetingFlags {
    pulled: AtomicU64,
    sent: AtomicU64,
    seen: AtomicU64,
}

// Comes once more, and looks for ten seconds at most whether the other one has come as often.
fn meet<T: Clock>(rt: &T, mine: &AtomicU64, theirs: &AtomicU64, seen: &AtomicU64) {
    let before = mine.fetch_add(1, Ordering::SeqCst);
    for _look in 0..10_000u64 {
        if theirs.load(Ordering::SeqCst) > before {
            seen.fetch_add(1, Ordering::SeqCst);
            return;
        }
        thread::sleep(rt, Duration::from_millis(1));
    }
}

// A file whose first pulls each meet a send.
#[derive(Drop)]
struct MeetingInlet<'a, T> {
    rt: &'a T,
    flags: &'a MeetingFlags,
    meetings: u64,
    inner: MemoryInlet,
}

impl<'a, T: Clock> Inlet for MeetingInlet<'a, T> {
    ghost use Rattle.sg_memory.specs.Inlet.{inlet_of};

    ghost state = { λ inlet. inlet_of inlet.inner };

    fn pull(&mut self, into: &mut [u8]) -> Result<Pull, InletFault> {
        if self.meetings > 0 {
            self.meetings -= 1;
            meet(
                self.rt,
                &self.flags.pulled,
                &self.flags.sent,
                &self.flags.seen,
            );
        }
        self.inner.pull(into)
    }

    fn peer(&self) -> &[u8] {
        self.inner.peer()
    }

    fn hangup(&mut self) {
        self.inner.hangup();
    }
}

// A destination whose first sends each meet a pull.
#[derive(Drop)]
struct MeetingOutlet<'a, T> {
    rt: &'a T,
    flags: &'a MeetingFlags,
    meetings: u64,
    inner: MemoryOutlet,
}

impl<'a, T: Clock> Outlet for MeetingOutlet<'a, T> {
    ghost use Rattle.sg_memory.specs.Outlet.{outlet_of};

    ghost state = { λ outlet. outlet_of outlet.inner };

    fn send(&mut self, frames: &Frames) -> Result<(), SendRefusal> {
        if self.meetings > 0 {
            self.meetings -= 1;
            meet(
                self.rt,
                &self.flags.sent,
                &self.flags.pulled,
                &self.flags.seen,
            );
        }
        self.inner.send(frames)
    }

    fn taken(&self) -> u64 {
        self.inner.taken()
    }

    fn reopen(&mut self) -> Result<Reopened, OutletFault> {
        self.inner.reopen()
    }
}

fn setup(alloc: Global) -> Result<Setup, NoMemory>
    ensures { IfOk result (λ setup. setup ≡ meeting) }
{
    let mut sources = Seq::empty(alloc);
    sources.push(SourceSetup {
        window: 100,
        store: Some(0),
    })?;
    let mut dests = Seq::empty(alloc);
    dests.push(DestSetup {
        fifo: 100,
        buffer: None,
    })?;
    dests.push(DestSetup {
        fifo: 100,
        buffer: Some(BufferSetup {
            store: 1,
            capacity: 1000,
        }),
    })?;
    Ok(Setup { sources, dests })
}

fn open(alloc: Global, disks: Vec<MemoryDisk>) -> Result<Core<MemoryDisk>, NoMemory>
    ensures setup { IfOk result (λ core. setup_of core ≡ meeting) }
    ensures calls { IfOk result (λ core. core.calls ≡ 0) }
{
    let setup = setup(alloc)?;
    if disks.len() != 2 {
        return Err(AllocError);
    }
    match Core::open(alloc, setup, disks) {
        Ok(core) => Ok(core),
        Err(_) => Err(AllocError),
    }
}

fn entry(alloc: Global) -> Result<Vec<Admission>, NoMemory>
    ensures { IfOk result (λ records. IsBatch meeting records.items) }
{
    let message = message(alloc, b"1")?;
    let mut offers = Vec::new(alloc);
    offers.push(Offer {
        dest: 1,
        message,
        flow: true,
    })?;
    let mut records = Vec::new(alloc);
    records.push(Admission {
        end: 0,
        offers: Seq::new(offers),
    })?;
    Ok(records)
}

// A core that finds an entry of the second destination in its store.
fn recovered(alloc: Global) -> Result<Core<MemoryDisk>, NoMemory>
    ensures setup { IfOk result (λ core. setup_of core ≡ meeting) }
    ensures calls { IfOk result (λ core. core.calls ≡ 0) }
{
    let records = entry(alloc)?;
    let mut core = open(alloc, disks(alloc)?)?;
    let admitted = core.admit(alloc, 0, records).is_ok();
    let disks = core.into_stores();
    if !admitted {
        return Err(AllocError);
    }
    open(alloc, disks)
}

fn source<'a, T: Clock>(
    rt: &'a T,
    alloc: Global,
    flags: &'a MeetingFlags,
) -> Result<SourceActor<ByDigit, MeetingInlet<'a, T>>, NoMemory>
    ensures { IfOk result (λ a. IsSource (λ inlet. inlet_of inlet.inner) two two meeting 0 a) }
{
    let pace = Pace { piece: 2, at: 0 };
    let mut text = Vec::new(alloc);
    text.extend_from_slice(b"1\n1\n")?;
    let inlet = MeetingInlet {
        rt,
        flags,
        meetings: MEETINGS,
        inner: MemoryInlet::file(alloc, text, 0, pace, true, FaultPlan::never(alloc))?,
    };
    let spec = SourceSpec {
        inlet: 0,
        kind: FrameKind::Lines,
        limit: 100,
        fetch: 100,
        from: 0,
        stored: true,
    };
    match SourceActor::new(alloc, inlet, ByDigit { routed: 0 }, spec) {
        Ok(source) => Ok(source),
        Err(_) => Err(AllocError),
    }
}

fn dest<'a, T: Clock>(
    rt: &'a T,
    alloc: Global,
    flags: &'a MeetingFlags,
    dest: u32,
) -> Result<DestActor<MeetingOutlet<'a, T>>, NoMemory>
    ensures { IfOk result (λ a. IsDest (λ outlet. outlet_of outlet.inner) dest a) }
{
    let plan = OutletScript::never(alloc);
    let outlet = MeetingOutlet {
        rt,
        flags,
        meetings: if dest == 1 { MEETINGS } else { 0 },
        inner: MemoryOutlet::new(alloc, plan),
    };
    let shape = shape(alloc)?;
    let env = Env {
        zone: None,
        digits: 0,
        iso: false,
        old: None,
    };
    match DestActor::new(alloc, outlet, shape, env, dest, false) {
        Ok(dest) => Ok(dest),
        Err(_) => Err(AllocError),
    }
}

fn close<'a, T: Clock>(
    served: Served<ByDigit, MeetingInlet<'a, T>, MeetingOutlet<'a, T>, MemoryDisk>,
) {
    let Served {
        ended: _,
        core,
        sources,
        dests,
    } = served;
    let _disks = core.into_stores();
    close_sources(sources);
    close_dests(dests);
}

fn with_source<'a, T: Clock>(
    mut sources: Vec<SourceActor<ByDigit, MeetingInlet<'a, T>>>,
    source: SourceActor<ByDigit, MeetingInlet<'a, T>>,
) -> Result<Vec<SourceActor<ByDigit, MeetingInlet<'a, T>>>, NoMemory>
    ensures { IfOk result (λ held. held.items ≡ sources.entry.items ++ source.entry ∷ []) }
{
    match sources.push(source) {
        Ok(()) => Ok(sources),
        Err(failed) => {
            let _inlet = failed.value.into_inlet();
            close_sources(sources);
            Err(AllocError)
        }
    }
}

fn sources<'a, T: Clock>(
    rt: &'a T,
    alloc: Global,
    flags: &'a MeetingFlags,
) -> Result<Vec<SourceActor<ByDigit, MeetingInlet<'a, T>>>, NoMemory>
    ensures { IfOk result
        (λ held. AreSources (λ inlet. inlet_of inlet.inner) two two meeting held.items) }
{
    let first = source(rt, alloc, flags)?;
    let held = with_source(Vec::new(alloc), first)?;
    Ok(held)
}

fn dests<'a, T: Clock>(
    rt: &'a T,
    alloc: Global,
    flags: &'a MeetingFlags,
) -> Result<Vec<DestActor<MeetingOutlet<'a, T>>>, NoMemory>
    ensures { IfOk result (λ held. AreDests (λ outlet. outlet_of outlet.inner) meeting held.items) }
{
    let first = dest(rt, alloc, flags, 0)?;
    match dest(rt, alloc, flags, 1) {
        Ok(second) => Ok(two_dests(alloc, first, second)?),
        Err(e) => {
            let _outlet = first.into_outlet();
            Err(e)
        }
    }
}

// How often a pull or a send has seen the other one of its round. The second destination has an entry of an earlier run for
// the first round, and for the second one the line of the first, since its frames are taken before they meet. The third
// round is the last, which is never one of several on the same threads. Whichever thread waits in a pull, the other one takes
// the turns of both destinations meanwhile.
fn met<T: Threads + Wait + Eprint + Sync + Clock>(
    rt: &T,
    alloc: Global,
    flags: &MeetingFlags,
) -> Result<u64, NoMemory> {
    let sources = sources(rt, alloc, flags)?;
    let dests = match dests(rt, alloc, flags) {
        Ok(dests) => dests,
        Err(e) => {
            close_sources(sources);
            return Err(e);
        }
    };
    let core = match recovered(alloc) {
        Ok(core) => core,
        Err(e) => {
            close_sources(sources);
            close_dests(dests);
            return Err(e);
        }
    };
    let mut noted = Noted::new();
    let mut machine = machine(alloc);
    close(serve(
        rt,
        alloc,
        core,
        sources,
        dests,
        MEETINGS + 1,
        &mut noted,
        &mut machine,
    ));
    Ok(flags.seen.load(Ordering::SeqCst))
}

#[test]
fn actors_in_turn(rt: HostRuntime) -> Result<(), NoMemory> {
    let flags = MeetingFlags {
        pulled: AtomicU64::new(0),
        sent: AtomicU64::new(0),
        seen: AtomicU64::new(0),
    };
    assert!(rt; met(&rt, rt.alloc(), &flags)? == 2 * MEETINGS);
    Ok(())
}
