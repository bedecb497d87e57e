// The types that threads hand to one another.
use crate::{DestActor, GivenUp, SourceActor, SourceSpec, Turned};

fn is_send<T: Send>() {}

fn actors_cross_threads<R: Send, I: Send, O: Send>() {
    is_send::<SourceActor<R, I>>();
    is_send::<DestActor<O>>();
}

fn answers_cross_threads() {
    is_send::<SourceSpec>();
    is_send::<Turned>();
    is_send::<GivenUp>();
}
