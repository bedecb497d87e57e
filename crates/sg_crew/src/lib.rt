//! A run over a flow core whose sources and destinations take their turns at the same time, each at a seat
//! of its own, on threads that stay over many rounds.
#![tactic(auto)]

mod gather;
mod hold;
mod look;
mod meeting;
mod phase;
mod pool;
mod rounds;
mod run;
mod together;
mod watch;
mod work;
mod worker;

pub use run::serve;
pub use sg_hub::Offered;
pub use watch::{DestLook, SourceLook, Watch};
