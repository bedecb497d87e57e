// The types that threads hand to one another.
use crate::{Expr, Filter};

fn is_send<T: Send>() {}

fn crosses_threads() {
    is_send::<Expr>();
    is_send::<Filter>();
}
