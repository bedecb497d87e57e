//! Tests of the runs of plans, over a machine in memory.
#![tactic(auto)]

#[cfg(test)]
mod plans;
