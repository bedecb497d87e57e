//! Tests of runs of sources and destinations over a flow core, one turn after another and at the same time, with devices in
//! memory.
#![tactic(auto)]

#[cfg(test)]
mod crew;
#[cfg(test)]
mod engine;
#[cfg(test)]
mod meeting;
#[cfg(test)]
mod watched;
