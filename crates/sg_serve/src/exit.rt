// The way out of a destination.
ghost use Rattle.std.specs.Prelude.{MatchResult};
ghost use Rattle.sg_outside.specs.World.{IsByPath};
ghost use Rattle.sg_serve.specs.Exits.{OpensExit, MissesExit, ClosesExit};

use sg_by_path::SendsByPath;
use sg_device::{Frames, OpenRefusal, Outlet, OutletFault, Reopened, SendRefusal};
use sg_dynfile::DynFile;
use sg_outside::OutletSpec;
use sg_world::World;
use std::alloc::Global;

// How many files of a destination are open at most.
const HELD: u32 = 128;

/// One file or one connection, or files whose paths come with their texts.
pub enum Exit<D: Outlet, P: SendsByPath> {
    One(D),
    ByPath(DynFile<P>),
}

impl<D: Outlet, P: SendsByPath> Outlet for Exit<D, P> {
    ghost use Rattle.sg_serve.specs.Exits.{exit_of};

    ghost state = { exit_of D.state P.state };

    fn send(&mut self, frames: &Frames) -> Result<(), SendRefusal> {
        match self {
            Exit::One(drain) => drain.send(frames),
            Exit::ByPath(files) => files.send(frames),
        }
    }

    fn taken(&self) -> u64 {
        match self {
            Exit::One(drain) => drain.taken(),
            Exit::ByPath(files) => files.taken(),
        }
    }

    fn reopen(&mut self) -> Result<Reopened, OutletFault> {
        match self {
            Exit::One(drain) => drain.reopen(),
            Exit::ByPath(files) => files.reopen(),
        }
    }

    fn flush(&mut self) {
        match self {
            Exit::One(drain) => drain.flush(),
            Exit::ByPath(files) => files.flush(),
        }
    }
}

// One file or one connection.
fn open_one<W: World>(
    alloc: Global,
    spec: &OutletSpec,
    world: &mut W,
) -> Result<Exit<W::Drain, W::Paths>, OpenRefusal>
    requires path { IsByPath spec.now → ⊥ }
    ensures { MatchResult result
        (λ exit. OpensExit W.Drain.state W.Paths.state (W.state world.old) (W.state world.new)
        spec.now exit)
        (λ refusal. MissesExit (W.state world.old) (W.state world.new) refusal) }
{
    match world.open_outlet(alloc, spec) {
        Ok(drain) => Ok(Exit::One(drain)),
        Err(refusal) => Err(refusal),
    }
}

// Files whose paths come with their texts.
fn open_files<W: World>(
    alloc: Global,
    spec: &OutletSpec,
    world: &mut W,
) -> Result<Exit<W::Drain, W::Paths>, OpenRefusal>
    requires path { IsByPath spec.now }
    ensures { MatchResult result
        (λ exit. OpensExit W.Drain.state W.Paths.state (W.state world.old) (W.state world.new)
        spec.now exit)
        (λ refusal. MissesExit (W.state world.old) (W.state world.new) refusal) }
{
    match world.open_paths(alloc, spec) {
        Ok(opener) => Ok(Exit::ByPath(DynFile::new(alloc, opener, HELD))),
        Err(refusal) => Err(refusal),
    }
}

/// Opens what is asked for.
pub(crate) fn open_exit<W: World>(
    alloc: Global,
    spec: &OutletSpec,
    world: &mut W,
) -> Result<Exit<W::Drain, W::Paths>, OpenRefusal>
    ensures { MatchResult result
        (OpensExit W.Drain.state W.Paths.state (W.state world.old) (W.state world.new) spec.now)
        (λ refusal. MissesExit (W.state world.old) (W.state world.new) refusal) }
{
    match spec {
        OutletSpec::File { .. } => open_one(alloc, spec, world),
        OutletSpec::Tcp { .. } => open_one(alloc, spec, world),
        OutletSpec::ByPath { .. } => open_files(alloc, spec, world),
    }
}

/// Closes it, and the files that are open.
pub(crate) fn close_exit<W: World>(exit: Exit<W::Drain, W::Paths>, world: &mut W)
    ensures { ClosesExit W.Drain.state W.Paths.state (W.state world.old) (W.state world.new) exit }
{
    match exit {
        Exit::One(drain) => world.close_outlet(drain),
        Exit::ByPath(files) => world.close_paths(files.into_opener()),
    }
}
