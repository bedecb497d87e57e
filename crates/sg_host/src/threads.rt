// The types that threads hand to one another.
use crate::{HostDrain, HostFeed, HostOpener, HostStore};
use std::thread::Threads;

fn is_send<T: Send>() {}

fn feed_crosses_threads() {
    is_send::<HostFeed>();
}

fn drain_crosses_threads<T: Threads + Copy + Send>(_threads: T) {
    is_send::<HostDrain<T>>();
}

fn opener_crosses_threads() {
    is_send::<HostOpener>();
}

fn store_crosses_threads() {
    is_send::<HostStore>();
}
