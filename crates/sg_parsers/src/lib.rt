//! Parsers: names and values that are read from a text of a message, as `csv-parser()` and `kv-parser()` do.
#![tactic(auto)]

mod columns;
mod csv;
mod fields;
mod found;
mod key;
mod kv;
mod laws;
mod pairs;
mod parser;
mod rule;
mod set;
mod skips;
mod threads;
mod values;

pub use csv::Csv;
pub use kv::Kv;
pub use laws::columns_are_read;
pub use parser::MessageParser;
pub use rule::ParserRule;
