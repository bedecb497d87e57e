// The types that threads hand to one another.
use crate::{Message, Offer};

fn is_send<T: Send>() {}

fn crosses_threads() {
    is_send::<Message>();
    is_send::<Offer>();
}
