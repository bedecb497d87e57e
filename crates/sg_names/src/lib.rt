//! What the names of a configuration stand for, and what is wrong with them: names that stand for two things
//! or for nothing, filters that refer to themselves, expressions that are too large.
#![tactic(auto)]

mod fault;
mod filters;
mod kind;
mod laws;
mod limit;
mod names;
mod part;
mod paths;
mod reference;
mod register;
mod size;
mod terms;
mod unknown;

pub use fault::check_names;
pub use kind::{NameKind, name_of};
pub use laws::names_have_one_fault;
pub use names::{Names, names_of};
pub use part::NameUse;
pub use paths::parts_of;
pub use reference::{Reference, Term};
pub use register::Register;
pub use terms::terms_of;
