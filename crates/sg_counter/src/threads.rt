// The types that threads hand to one another.
use crate::{CoreCall, CoreReply};

fn is_send<T: Send>() {}

fn crosses_threads() {
    is_send::<CoreCall>();
    is_send::<CoreReply>();
}
