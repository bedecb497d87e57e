// The types that threads hand to one another.
use crate::{Env, Template};

fn is_send<T: Send>() {}

fn crosses_threads() {
    is_send::<Env>();
    is_send::<Template>();
}
