//! What the tests that are programs and make calls of a core share: the words of calls, the count that a settle
//! shows, and what a core replies as the words of a text.
#![tactic(auto)]

mod outlet;
mod replies;
mod text;
mod words;

pub use outlet::{Teller, told};
pub use replies::{put_admitted, put_front, put_number, put_refilled, put_settled, put_stored};
pub use text::ReplyText;
pub use words::{is_call, number};
