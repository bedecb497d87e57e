//! Tests of the program's commands, over a machine in memory.
#![tactic(auto)]

#[cfg(test)]
mod answer;
#[cfg(test)]
mod command_rows;
#[cfg(test)]
mod config_rows;
#[cfg(test)]
mod count_rows;
#[cfg(test)]
mod failing;
#[cfg(test)]
mod failing_rows;
#[cfg(test)]
mod machine;
#[cfg(test)]
mod overflow_rows;
#[cfg(test)]
mod path_rows;
#[cfg(test)]
mod run_rows;
#[cfg(test)]
mod store_rows;
