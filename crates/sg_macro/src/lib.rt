//! The parts of a template's text, and the names of macros.
#![tactic(auto)]

mod cut;
mod fault;
mod macros;
mod part;
mod reading;

pub use fault::TemplateFault;
pub use macros::{DatePart, Macro, StampKind, macro_of, pair_name};
pub use part::TemplatePart;
pub use reading::read_parts;
