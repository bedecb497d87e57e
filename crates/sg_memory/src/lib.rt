//! A machine in memory: inlets, outlets, openers of files and the machine that opens them, which
//! tell their content. Each fails at the calls that it is told to.
#![tactic(auto)]

mod cells;
mod connection;
mod copying;
mod files;
mod inlet;
mod open;
mod opening;
mod outlet;
mod part;
mod parts;
mod paths;
mod place;
mod plans;
mod threads;
mod world;

pub use cells::{MemoryInletCell, MemoryOutletCell, MemoryPathsCell};
pub use connection::MemoryConnection;
pub use files::MemoryFile;
pub use inlet::{MemoryInlet, Pace};
pub use open::{MemoryDrain, MemoryFeed, MemoryOpener};
pub use opening::MemoryOpenedInlet;
pub use outlet::MemoryOutlet;
pub use part::MemoryPart;
pub use parts::MemoryParts;
pub use paths::{MemoryPaths, TakenText};
pub use place::is_record_end;
pub use plans::{OutletScript, PathsPlan, WorldPlans};
pub use world::MemoryWorld;
