//! Filters: expressions on messages, and whether a message passes.
#![tactic(auto)]

mod check;
mod copy;
mod expr;
mod filter;
mod laws;
mod node;
mod threads;
mod work;

pub use expr::Expr;
pub use filter::Filter;
pub use laws::filters_hold;
