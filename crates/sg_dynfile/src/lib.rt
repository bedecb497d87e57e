//! Files whose paths are part of the frames: one outlet over an opener of files.
#![tactic(auto)]

mod dyn_file;
mod laws;
mod open_paths;
mod parting;
mod sending;
mod waiting;

pub use dyn_file::DynFile;
pub use laws::texts_stand_under_their_paths;
pub use open_paths::OpenPaths;
pub use waiting::Waiting;
