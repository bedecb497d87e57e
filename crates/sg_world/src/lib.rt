//! The machine that the program runs on, as one trait, and its two adapters: real files, sockets and
//! standard output, and a machine in memory.
#![tactic(auto)]

mod host;
mod memory;
mod world;

pub use host::HostMachine;
pub use memory::MemoryMachine;
pub use sg_host::Streams;
pub use world::{LONGEST, World};
