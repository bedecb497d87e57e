//! Lists in public types, and the words and lemmas on lists that several crates share.
#![tactic(auto)]

mod seq;

pub use seq::Seq;
