//! The stores of a core by number: position stores and disk-buffers, and what each call on one leaves.
#![tactic(auto)]

mod answers;
mod buffer;
mod disks;
mod kind;
mod laws;
mod opening;
mod position;
mod store;
mod stores;

pub use answers::CoreRefusal;
pub use kind::StoreKind;
pub use laws::{appending_begins, stores_fail_by_faults};
pub use opening::OpenedStores;
pub use stores::Stores;
