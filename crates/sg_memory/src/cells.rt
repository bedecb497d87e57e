// Closed devices. The memory for one is taken when it is opened.
ghost use Rattle.std.specs.Prelude.{◌≡◌, ◌++◌, ◌∷◌, [], IfOk};
ghost use Rattle.sg_memory.specs.Cells.{inlet_states, outlet_states, paths_states};
ghost use Rattle.sg_memory.specs.Inlet.{inlet_of};
ghost use Rattle.sg_memory.specs.Outlet.{outlet_of};
ghost use Rattle.sg_memory.specs.Paths.{paths_of};

use crate::{MemoryInlet, MemoryOutlet, MemoryPaths};
use std::alloc::{AllocError, Global};

/// A closed inlet, and the one closed before it.
#[derive(Drop)]
pub struct MemoryInletCell {
    pub closed: Option<MemoryInlet>,
    pub before: Option<Box<MemoryInletCell>>,
}

/// A closed outlet, and the one closed before it.
#[derive(Drop)]
pub struct MemoryOutletCell {
    pub closed: Option<MemoryOutlet>,
    pub before: Option<Box<MemoryOutletCell>>,
}

/// A closed opener, and the one closed before it.
#[derive(Drop)]
pub struct MemoryPathsCell {
    pub closed: Option<MemoryPaths>,
    pub before: Option<Box<MemoryPathsCell>>,
}

/// Memory for an inlet's closing.
pub(crate) fn inlet_cell(alloc: Global) -> Result<Box<MemoryInletCell>, AllocError> {
    Ok(Box::new(
        alloc,
        MemoryInletCell {
            closed: None,
            before: None,
        },
    )?)
}

/// Memory for an outlet's closing.
pub(crate) fn outlet_cell(alloc: Global) -> Result<Box<MemoryOutletCell>, AllocError> {
    Ok(Box::new(
        alloc,
        MemoryOutletCell {
            closed: None,
            before: None,
        },
    )?)
}

/// Memory for an opener's closing.
pub(crate) fn paths_cell(alloc: Global) -> Result<Box<MemoryPathsCell>, AllocError> {
    Ok(Box::new(
        alloc,
        MemoryPathsCell {
            closed: None,
            before: None,
        },
    )?)
}

/// Puts an inlet behind those that were closed before. It takes no memory.
pub fn add_inlet(
    last: &mut Option<Box<MemoryInletCell>>,
    mut cell: Box<MemoryInletCell>,
    inlet: MemoryInlet,
)
    ensures { inlet_states last.new ≡ inlet_states last.old ++ inlet_of inlet ∷ [] }
{
    cell.closed = Some(inlet);
    cell.before = last.take();
    *last = Some(cell);
}

/// Puts an outlet behind those that were closed before. It takes no memory.
pub fn add_outlet(
    last: &mut Option<Box<MemoryOutletCell>>,
    mut cell: Box<MemoryOutletCell>,
    outlet: MemoryOutlet,
)
    ensures { outlet_states last.new ≡ outlet_states last.old ++ outlet_of outlet ∷ [] }
{
    cell.closed = Some(outlet);
    cell.before = last.take();
    *last = Some(cell);
}

/// Puts an opener behind those that were closed before. It takes no memory.
pub fn add_paths(
    last: &mut Option<Box<MemoryPathsCell>>,
    mut cell: Box<MemoryPathsCell>,
    opener: MemoryPaths,
)
    ensures { paths_states last.new ≡ paths_states last.old ++ paths_of opener ∷ [] }
{
    cell.closed = Some(opener);
    cell.before = last.take();
    *last = Some(cell);
}
