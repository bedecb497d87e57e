//! The devices that the daemon stands between: inlets that give bytes, outlets that take frames and
//! disks, with what each call promises about them and how it can fail.
#![tactic(auto)]

mod disk;
mod fault;
mod frames;
mod inlet;
mod name;
mod opener;
mod outlet;
mod taken;

pub use disk::{Disk, write_through};
pub use fault::{
    DiskFault, FileRefusal, InletFault, NoMemory, OpenRefusal, OutletFault, SayRefusal, SendRefusal,
};
pub use frames::Frames;
pub use inlet::{Inlet, Pull};
pub use name::Name;
pub use opener::Opener;
pub use outlet::{Outlet, Reopened};
pub use taken::Taken;
