//! Frames: what a destination sends for a message.
#![tactic(auto)]

mod frames;
mod laws;
mod packed;
mod shape;

pub use frames::frame;
pub use laws::{frames_keep_paths, packed_unpacks};
pub use packed::unpacked;
pub use shape::{DriverKind, Shape, default_shape};
