//! Tests of the real devices, over files in a temporary folder and sockets with both ends in one
//! process.
#![tactic(auto)]

#[cfg(test)]
mod destinations;
#[cfg(test)]
mod files;
#[cfg(test)]
mod folder;
#[cfg(test)]
mod ledgers;
#[cfg(test)]
mod peers;
#[cfg(test)]
mod slots;
#[cfg(test)]
mod sockets;
#[cfg(test)]
mod sources;
#[cfg(test)]
mod stores;
