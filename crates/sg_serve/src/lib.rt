//! A plan's devices opened in order, the rounds run over them, the devices closed, and how it ended.
#![tactic(auto)]

mod counts;
mod ending;
mod exit;
mod held;
mod outlets;
mod overflows;
mod rewinds;
mod run;
mod sending;
mod sources;
mod stats;
mod stores;
mod way;

pub use counts::{Counts, Fault};
pub use ending::{Device, Early, PlanEnded};
pub use exit::Exit;
pub use overflows::OutletRests;
pub use run::run_plan;
pub use sg_engine::Ended;
pub use way::Parts;
