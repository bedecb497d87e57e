//! A configuration file, read, expanded, loaded and compiled.
#![tactic(auto)]

mod compiling;
mod loaded;
mod loading;

pub use loaded::{Loaded, Unloaded};
pub use loading::load_file;
