// The types that threads hand to one another.
use crate::{Admission, Event, Setup, State, Tally, Verdict};

fn is_send<T: Send>() {}

fn crosses_threads() {
    is_send::<Admission>();
    is_send::<Verdict>();
    is_send::<Event>();
    is_send::<Setup>();
    is_send::<State>();
    is_send::<Tally>();
}
