// What is kept of closed devices. The memory for one is taken when it is opened.
ghost use Rattle.std.specs.Prelude.{◌≡◌, ◌++◌, ◌∷◌, []};
ghost use Rattle.sg_file.specs.Counts.{inlet_state, outlet_state};
ghost use Rattle.sg_file.specs.Store.{disk_state};
ghost use Rattle.sg_host.specs.Cells.{inlet_states, outlet_states, store_states, paths_states};
ghost use Rattle.sg_host.specs.Counts.{paths_state};

use crate::PathCounts;
use sg_file::{InletCounts, OutletCounts};
use std::alloc::{AllocError, Global};

/// An inlet that was closed, and the one closed before it.
#[derive(Drop)]
pub struct HostInletCell {
    counts: InletCounts,
    before: Option<Box<HostInletCell>>,
}

/// An outlet that was closed, and the one closed before it.
#[derive(Drop)]
pub struct HostOutletCell {
    counts: OutletCounts,
    before: Option<Box<HostOutletCell>>,
}

/// A store that was closed, and the one closed before it.
#[derive(Drop)]
pub struct HostStoreCell {
    faults: u64,
    before: Option<Box<HostStoreCell>>,
}

/// An opener that was closed, and the one closed before it.
#[derive(Drop)]
pub struct HostPathsCell {
    counts: PathCounts,
    before: Option<Box<HostPathsCell>>,
}

/// Memory for an inlet's closing.
pub(crate) fn inlet_cell(alloc: Global) -> Result<Box<HostInletCell>, AllocError> {
    Ok(Box::new(
        alloc,
        HostInletCell {
            counts: InletCounts::new(Vec::new(alloc), 0, false),
            before: None,
        },
    )?)
}

/// Puts an inlet behind those that were closed before. It takes no memory.
pub fn add_inlet(
    last: &mut Option<Box<HostInletCell>>,
    mut cell: Box<HostInletCell>,
    counts: InletCounts,
)
    ensures { inlet_states last.new ≡ inlet_states last.old ++ inlet_state counts ∷ [] }
{
    cell.counts = counts;
    cell.before = last.take();
    *last = Some(cell);
}

/// Memory for an outlet's closing.
pub(crate) fn outlet_cell(alloc: Global) -> Result<Box<HostOutletCell>, AllocError> {
    Ok(Box::new(
        alloc,
        HostOutletCell {
            counts: OutletCounts::new(),
            before: None,
        },
    )?)
}

/// Puts an outlet behind those that were closed before. It takes no memory.
pub fn add_outlet(
    last: &mut Option<Box<HostOutletCell>>,
    mut cell: Box<HostOutletCell>,
    counts: OutletCounts,
)
    ensures { outlet_states last.new ≡ outlet_states last.old ++ outlet_state counts ∷ [] }
{
    cell.counts = counts;
    cell.before = last.take();
    *last = Some(cell);
}

/// Memory for a store's closing.
pub(crate) fn store_cell(alloc: Global) -> Result<Box<HostStoreCell>, AllocError> {
    Ok(Box::new(
        alloc,
        HostStoreCell {
            faults: 0,
            before: None,
        },
    )?)
}

/// Puts a store behind those that were closed before. It takes no memory.
pub fn add_store(last: &mut Option<Box<HostStoreCell>>, mut cell: Box<HostStoreCell>, faults: u64)
    ensures { store_states last.new ≡ store_states last.old ++ disk_state faults ∷ [] }
{
    cell.faults = faults;
    cell.before = last.take();
    *last = Some(cell);
}

/// Memory for an opener's closing.
pub(crate) fn paths_cell(alloc: Global) -> Result<Box<HostPathsCell>, AllocError> {
    Ok(Box::new(
        alloc,
        HostPathsCell {
            counts: PathCounts::new(alloc),
            before: None,
        },
    )?)
}

/// Puts an opener behind those that were closed before. It takes no memory.
pub fn add_paths(
    last: &mut Option<Box<HostPathsCell>>,
    mut cell: Box<HostPathsCell>,
    counts: PathCounts,
)
    ensures { paths_states last.new ≡ paths_states last.old ++ paths_state counts ∷ [] }
{
    cell.counts = counts;
    cell.before = last.take();
    *last = Some(cell);
}
