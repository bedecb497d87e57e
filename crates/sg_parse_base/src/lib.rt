//! What the parsers of the configuration language share: a place in the list of tokens, tokens of a
//! kind, lists of items in parentheses and braces, and the first fault.
#![tactic(auto)]

mod cursor;
mod fault;
mod laws;
mod lists;
mod skip;
mod spot;
mod token;

pub use cursor::{
    Cursor, name, next_is_dots, next_is_name, next_is_operator, next_is_string, next_is_word, sees,
    sees_word, symbol, word,
};
pub use fault::{ParseFault, ParseStop, unsupported};
pub use laws::skipped_tokens_are_balanced;
pub use lists::{ItemRule, body, ending, gap, items, many, single};
pub use skip::skipped;
pub use spot::Spot;
pub use token::{
    is_dots, is_keyword, is_name, is_number, is_string, is_symbol, is_truth, is_word, line_of,
    same_keyword,
};
