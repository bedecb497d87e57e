//! Statements of the configuration language as trees: options, sources, destinations, filters, rewrites,
//! parsers and templates.
#![tactic(auto)]

mod driver;
mod laws;
mod object;
mod parsers;
mod statements;
mod table;
mod templates;
mod whole;

pub use driver::{Side, drivers};
pub use laws::statements_are_of_the_grammar;
pub use object::Object;
pub use parsers::parser_calls;
pub use statements::{filter_body, rewrites};
pub use whole::{DEPTH_LIMIT, ParseRefusal, statement};
