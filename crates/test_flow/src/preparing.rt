// A run of two files into two destinations, before it begins.
ghost use Rattle.std.specs.Prelude.{◌≡◌, ◌<◌, IfOk, length};
ghost use Rattle.sg_memory.specs.Inlet.{inlet_of};
ghost use Rattle.sg_memory.specs.Outlet.{outlet_of};
ghost use Rattle.sg_standing.specs.States.{setup_of};
ghost use Rattle.sg_turns.specs.Actors.{AreFewActors, IsSource, AreSources, IsDest, AreDests};
ghost use Rattle.test_flow.specs.Runs.{two, two_files};

use crate::lists::{close_dests, close_sources, two_dests};
use crate::router::ByDigit;
use crate::rows::{FlowRow, numbers};
use sg_actor::{DestActor, SourceActor, SourceSpec};
use sg_core::Core;
use sg_device::NoMemory;
use sg_frame::FrameKind;
use sg_list::Seq;
use sg_machine::{DestSetup, Setup, SourceSetup};
use sg_memory::{MemoryInlet, MemoryOutlet, OutletScript, Pace};
use sg_memory_disk::{FaultPlan, MemoryDisk};
use sg_outfmt::Shape;
use sg_template::{Env, Template};
use std::alloc::{AllocError, Global};

/// A core, and what it is to move.
pub struct Prepared {
    pub core: Core<MemoryDisk>,
    pub sources: Vec<SourceActor<ByDigit, MemoryInlet>>,
    pub dests: Vec<DestActor<MemoryOutlet>>,
}

/// The frame of a message is its text and a space.
pub fn shape(alloc: Global) -> Result<Shape, NoMemory> {
    match Template::read(alloc, b"$MSG ") {
        Ok(template) => Ok(Shape::Text(template)),
        Err(_) => Err(AllocError),
    }
}

/// Two disks of 128 bytes.
pub fn disks(alloc: Global) -> Result<Vec<MemoryDisk>, NoMemory>
    ensures { IfOk result (λ disks. length disks.items ≡ 2) }
{
    let mut disks = Vec::new(alloc);
    disks.push(MemoryDisk::new(alloc, vec![in alloc; 0u8; 128]?)?)?;
    disks.push(MemoryDisk::new(alloc, vec![in alloc; 0u8; 128]?)?)?;
    Ok(disks)
}

fn setup(alloc: Global) -> Result<Setup, NoMemory>
    ensures { IfOk result (λ setup. setup ≡ two_files) }
{
    let mut sources = Seq::empty(alloc);
    sources.push(SourceSetup {
        window: 1000,
        store: Some(0),
    })?;
    sources.push(SourceSetup {
        window: 1000,
        store: Some(1),
    })?;
    let mut dests = Seq::empty(alloc);
    dests.push(DestSetup {
        fifo: 100,
        buffer: None,
    })?;
    dests.push(DestSetup {
        fifo: 100,
        buffer: None,
    })?;
    Ok(Setup { sources, dests })
}

fn open(alloc: Global) -> Result<Core<MemoryDisk>, NoMemory>
    ensures setup { IfOk result (λ core. setup_of core ≡ two_files) }
    ensures calls { IfOk result (λ core. core.calls ≡ 0) }
{
    let disks = disks(alloc)?;
    let setup = setup(alloc)?;
    match Core::open(alloc, setup, disks) {
        Ok(core) => Ok(core),
        Err(_) => Err(AllocError),
    }
}

fn source(
    alloc: Global,
    inlet: u32,
    text: Vec<u8>,
) -> Result<SourceActor<ByDigit, MemoryInlet>, NoMemory>
    requires { inlet < 2 }
    ensures { IfOk result (λ a. IsSource inlet_of two two two_files inlet a) }
{
    let pace = Pace { piece: 4096, at: 0 };
    let file = MemoryInlet::file(alloc, text, 0, pace, true, FaultPlan::never(alloc))?;
    let spec = SourceSpec {
        inlet,
        kind: FrameKind::Lines,
        limit: 100,
        fetch: 1000,
        from: 0,
        stored: true,
    };
    match SourceActor::new(alloc, file, ByDigit { routed: 0 }, spec) {
        Ok(source) => Ok(source),
        Err(_) => Err(AllocError),
    }
}

fn pair(
    alloc: Global,
    first: SourceActor<ByDigit, MemoryInlet>,
    second: SourceActor<ByDigit, MemoryInlet>,
) -> Result<Vec<SourceActor<ByDigit, MemoryInlet>>, NoMemory>
    requires first { IsSource inlet_of two two two_files 0 first }
    requires second { IsSource inlet_of two two two_files 1 second }
    ensures { IfOk result (λ held. AreSources inlet_of two two two_files held.items) }
{
    match Vec::from_array(alloc, [first, second]) {
        Ok(held) => Ok(held),
        Err(failed) => {
            let [first, second] = failed.value;
            let _first = first.into_inlet();
            let _second = second.into_inlet();
            Err(AllocError)
        }
    }
}

fn sources(
    alloc: Global,
    first: Vec<u8>,
    second: Vec<u8>,
) -> Result<Vec<SourceActor<ByDigit, MemoryInlet>>, NoMemory>
    ensures { IfOk result (λ held. AreSources inlet_of two two two_files held.items) }
{
    let first = source(alloc, 0, first)?;
    match source(alloc, 1, second) {
        Ok(second) => Ok(pair(alloc, first, second)?),
        Err(e) => {
            let _inlet = first.into_inlet();
            Err(e)
        }
    }
}

fn dest(
    alloc: Global,
    dest: u32,
    fails: Vec<u64>,
    gives_up: bool,
) -> Result<DestActor<MemoryOutlet>, NoMemory>
    ensures { IfOk result (λ a. IsDest outlet_of dest a) }
{
    let shape = shape(alloc)?;
    let plan = OutletScript::failing(alloc, FaultPlan::new(fails));
    let env = Env {
        zone: None,
        digits: 0,
        iso: false,
        old: None,
    };
    match DestActor::new(
        alloc,
        MemoryOutlet::new(alloc, plan),
        shape,
        env,
        dest,
        gives_up,
    ) {
        Ok(dest) => Ok(dest),
        Err(_) => Err(AllocError),
    }
}

fn dests(
    alloc: Global,
    fails: Vec<u64>,
    gives_up: bool,
) -> Result<Vec<DestActor<MemoryOutlet>>, NoMemory>
    ensures { IfOk result (λ held. AreDests outlet_of two_files held.items) }
{
    let first = dest(alloc, 0, fails, gives_up)?;
    match dest(alloc, 1, Vec::new(alloc), false) {
        Ok(second) => Ok(two_dests(alloc, first, second)?),
        Err(e) => {
            let _outlet = first.into_outlet();
            Err(e)
        }
    }
}

fn with_core(
    alloc: Global,
    sources: Vec<SourceActor<ByDigit, MemoryInlet>>,
    dests: Vec<DestActor<MemoryOutlet>>,
) -> Result<Prepared, NoMemory>
    requires sources { AreSources inlet_of two two two_files sources.items }
    requires dests { AreDests outlet_of two_files dests.items }
    ensures setup { IfOk result (λ run. setup_of run.core ≡ two_files) }
    ensures calls { IfOk result (λ run. run.core.calls ≡ 0) }
    ensures few { IfOk result (λ run. AreFewActors (length run.sources.items)
        (length run.dests.items)) }
    ensures sources { IfOk result (λ run. AreSources inlet_of two two (setup_of run.core)
        run.sources.items) }
    ensures dests { IfOk result (λ run. AreDests outlet_of (setup_of run.core) run.dests.items) }
{
    match open(alloc) {
        Ok(core) => Ok(Prepared {
            core,
            sources,
            dests,
        }),
        Err(e) => {
            close_sources(sources);
            close_dests(dests);
            Err(e)
        }
    }
}

/// A run of two files of these texts, where the first destination fails and gives up as the row says.
/// What the new disks refuse counts as no memory.
pub fn prepare(
    alloc: Global,
    row: &FlowRow<'_>,
    first: Vec<u8>,
    second: Vec<u8>,
) -> Result<Prepared, NoMemory>
    ensures setup { IfOk result (λ run. setup_of run.core ≡ two_files) }
    ensures calls { IfOk result (λ run. run.core.calls ≡ 0) }
    ensures few { IfOk result (λ run. AreFewActors (length run.sources.items)
        (length run.dests.items)) }
    ensures sources { IfOk result (λ run. AreSources inlet_of two two (setup_of run.core)
        run.sources.items) }
    ensures dests { IfOk result (λ run. AreDests outlet_of (setup_of run.core) run.dests.items) }
{
    let fails = numbers(alloc, row.fails)?;
    let sources = sources(alloc, first, second)?;
    match dests(alloc, fails, !row.gives_up.is_empty()) {
        Ok(dests) => Ok(with_core(alloc, sources, dests)?),
        Err(e) => {
            close_sources(sources);
            Err(e)
        }
    }
}
