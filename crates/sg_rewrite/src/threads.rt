// The types that threads hand to one another.
use crate::{Op, Rewrite};

fn is_send<T: Send>() {}

fn ops_are_send() {
    is_send::<Op>();
}

fn rewrites_are_send() {
    is_send::<Rewrite>();
}
