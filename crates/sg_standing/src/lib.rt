//! What a core keeps of all that happened, and which events it stands for: its sources, and the laws by
//! which a crash leaves nothing in its stores that isn't safe.
#![tactic(auto)]

mod laws;
mod source;

pub use laws::{
    images_are_safe, images_between_are_safe, images_open_again, images_within_are_safe,
    more_stands,
};
pub use source::{Source, acknowledge, begin_at, start_anew};
