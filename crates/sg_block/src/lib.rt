//! A configuration's tokens in parts: the forms of blocks and of their uses, and the values of names.
#![tactic(auto)]

mod argument;
mod form;
mod part;
mod shared;
mod source;
mod table;
mod token;
mod values;

pub use argument::{Argument, Arguments};
pub use form::{Definition, read_definition, use_form};
pub use part::TokenSpan;
pub use shared::Shared;
pub use table::NameMap;
pub use token::{FileLine, copy_token, is_at, is_front, is_tick, line_of, token_size};
pub use values::{Replaced, Values, find, replace};
