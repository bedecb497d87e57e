// The type that threads hand to one another.
use crate::Pipes;

fn is_send<T: Send>() {}

fn pipes_cross_threads() {
    is_send::<Pipes>();
}
