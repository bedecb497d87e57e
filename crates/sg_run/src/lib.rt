//! The command `run`: a configuration file loaded, its plan run, and the text that is said of that.
#![tactic(auto)]

mod adding;
mod end;
mod planning;
mod reporting;
mod running;

pub use adding::{
    config_runs_add_up, config_runs_stay_covered, config_runs_take_once, new_config_runs_add_up,
};
pub use end::{End, Outcome};
pub use running::run_file;
pub use sg_loaded::Unloaded;
pub use sg_serve::Device;
