//! What is wrong with a configuration once its statements are read: the first fault of its names, its values, its
//! drivers and its log paths.
#![tactic(auto)]

mod driver;
mod drivers;
mod first;
mod laws;
mod options;
mod place;
mod templates;

pub use driver::{DESTINATION_LIMIT, DriverCounts, INLET_LIMIT};
pub use first::first_fault;
pub use laws::{
    destination_options_are_read, options_are_checked, other_options_are_read,
    source_options_are_read,
};
pub use templates::{TemplateTexts, templates_of};
