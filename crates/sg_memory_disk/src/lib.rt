//! Disks and stores in memory, which tell their content and their images. Each fails at the calls
//! that it is told to, and leaves what it is told to.
#![tactic(auto)]

mod disk;
mod disk_calls;
mod disk_change;
mod disk_copy;
mod disk_image;
mod disk_plan;
mod disk_tear;
mod laws;
mod laying;
mod pick;
mod plan;
mod stores;
mod written;

pub use disk::MemoryDisk;
pub use disk_calls::DiskCalls;
pub use disk_change::DiskChange;
pub use disk_plan::DiskPlan;
pub use laws::images_are_picked;
pub use pick::Pick;
pub use plan::FaultPlan;
pub use stores::{ClosedStore, MemoryOpenedStore, MemoryStore, MemoryStoreCell, MemoryStores};
pub use written::{DiskWrite, TornWrite};
