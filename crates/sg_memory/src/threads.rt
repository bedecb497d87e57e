// The types that threads hand to one another.
use crate::{MemoryDrain, MemoryFeed, MemoryOpener};
use sg_memory_disk::MemoryStore;

fn is_send<T: Send>() {}

fn devices_cross_threads() {
    is_send::<MemoryFeed>();
    is_send::<MemoryDrain>();
    is_send::<MemoryOpener>();
    is_send::<MemoryStore>();
}
