//! The walk over what stands in the statements of a configuration, in the order of the text.
#![tactic(auto)]

mod visit;
mod walk;

pub use visit::Visit;
pub use walk::{visit_element, visit_logs, visit_statements};
