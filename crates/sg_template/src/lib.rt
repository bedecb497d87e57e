//! Templates: texts with macros and fields of a message in them.
#![tactic(auto)]

mod append;
mod copy;
mod date;
mod elements;
mod env;
mod header;
mod laws;
mod names;
mod own;
mod path;
mod template;
mod threads;

pub use append::text_of;
pub use elements::sdata_text;
pub use env::Env;
pub use laws::{macros_are_hard, paths_fit, texts_are_names};
pub use names::{facility_name, severity_name};
pub use own::own_env;
pub use sg_macro::TemplateFault;
pub use template::Template;
