//! What the tokens of a configuration mean: its log paths, its inlets, outlets and stores, and the setup of the
//! flow core; or the first thing that is wrong with them.
#![tactic(auto)]

mod config;
mod laws;
mod loading;
mod rules;

pub use config::{Config, LoadRefusal};
pub use laws::texts_mean_one;
pub use loading::load;
