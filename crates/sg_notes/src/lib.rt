//! Notes beside a fault of a configuration: the range of a value, what goes in the place of a word that isn't supported, where a
//! brace opened, where a name was defined first, which `@include` wanted a file, and what is wrong with later statements.
#![tactic(auto)]

mod destinations;
mod further;
mod included;
mod limits;
mod missing;
mod noting;
mod opened;
mod plain;
mod ranges;
mod remedies;
mod sources;
mod telling;
mod twice;

pub use destinations::destinations_text;
pub use further::further_faults;
pub use included::include_note;
pub use noting::notes;
pub use telling::{
    further_text, notes_text, tell_destinations, tell_further, tell_include, tell_notes,
};
