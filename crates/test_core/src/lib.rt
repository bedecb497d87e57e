//! Tests of the flow core and of what it is made of: lists, windows, the lock, the machine, destinations, stores, and the turns
//! of sources and destinations over a small core.
#![tactic(auto)]

#[cfg(test)]
mod batches;
#[cfg(test)]
mod changing;
#[cfg(test)]
mod dests;
#[cfg(test)]
mod list;
#[cfg(test)]
mod replays;
#[cfg(test)]
mod sinks;
#[cfg(test)]
mod small;
#[cfg(test)]
mod sources;
#[cfg(test)]
mod stores;
#[cfg(test)]
mod till;
#[cfg(test)]
mod window;
