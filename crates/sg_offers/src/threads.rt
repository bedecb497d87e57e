// The types that threads hand to one another.
use crate::{Batch, BatchVerdicts};

fn is_send<T: Send>() {}

fn crosses_threads() {
    is_send::<BatchVerdicts>();
    is_send::<Batch>();
}
