//! Tests of stores and devices, in memory and real.
#![tactic(auto)]

#[cfg(test)]
mod buffers;
#[cfg(test)]
mod disks;
#[cfg(test)]
mod files;
#[cfg(test)]
mod lists;
#[cfg(test)]
mod memory;
#[cfg(test)]
mod migration;
#[cfg(test)]
mod spool;
#[cfg(test)]
mod stores;
