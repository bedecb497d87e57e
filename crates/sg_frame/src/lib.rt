//! Framing: the records of a byte stream that comes in pieces, by line feeds or by octet counts.
#![tactic(auto)]

mod block;
mod framer;
mod kind;
mod moments;
mod scan;

pub use framer::{Framed, Framer};
pub use kind::FrameKind;
