// The types that threads hand to one another.
use crate::ParserRule;

fn is_send<T: Send>() {}

fn rules_are_send() {
    is_send::<ParserRule>();
}
