//! The real machine's devices as its program opens and closes them, its standard output and its timer.
//! They count their calls and their faults, and tell nothing of content.
#![tactic(auto)]

mod cells;
mod grouped;
mod inlets;
mod marked;
mod outlets;
mod paths;
mod stores;
mod streams;
mod threads;
mod timer;

pub use cells::{HostInletCell, HostOutletCell, HostPathsCell, HostStoreCell};
pub use inlets::{HostFeed, HostInlets, HostOpenedInlet, InletDevice};
pub use marked::MarkedFile;
pub use outlets::{HostDrain, HostOutlets, RealOutlet};
pub use paths::{HostOpener, HostPaths, PathCounts};
pub use sg_file::{FileDisk, IdleWait, moment, read_file};
pub use stores::{HostStore, HostStores};
pub use streams::{Streams, say, tell};
pub use timer::Timer;
