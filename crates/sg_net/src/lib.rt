//! TCP sockets as devices: the connections of a listener's slots, and a connection that takes
//! frames. No call waits for a peer. They tell nothing of content.
#![tactic(auto)]

mod acceptor;
mod begun;
mod dial;
mod listener;
mod look_up;
mod outlet;
mod slot;
mod wire;

pub use acceptor::Acceptor;
pub use listener::Listener;
pub use outlet::TcpOutlet;
pub use slot::SlotInlet;
