//! Patterns: regular expressions, plain texts and globs, with what each finds in a text of bytes.
#![tactic(auto)]

mod builder;
mod engine;
mod expressions;
mod fault;
mod glob;
mod kept;
mod literal;
mod making;
mod matcher;
mod pattern;
mod patterns;
mod search;
mod searcher;
mod text;
mod trying;

pub use builder::Builder;
pub use fault::{BuildFault, PatternRefusal};
pub use glob::glob_matches;
pub use matcher::Matcher;
pub use pattern::{Flags, Kind};
pub use patterns::Patterns;
pub use text::{BuildRefusal, PatternText};
pub use trying::try_text;
