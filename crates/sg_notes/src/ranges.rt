// The values that options take.

use sg_lex::Token;
use sg_listing::{caller_of, token_at, told_of};

/// What each option takes, in the words of CONFIGURATION.
const RANGES: &[u8] = b"log-iw-size|1 to 100,000
log-fetch-limit|1 to 1,000
log-msg-size|1 to 1,048,576
log-fifo-size|1 to 1,000,000
frac-digits|0 to 6
time-reopen|1 to 86,400
time-reap|0 to 31,536,000
port localport|1 to 65,535
max-connections|1 to 100
disk-buf-size capacity-bytes|1 to 1,073,741,824
mem-buf-length|1 to 100,000
perm dir-perm|three or four octal digits, as 0640
time-zone recv-time-zone|\"+hh:mm\" or \"-hh:mm\", in quotes
default-facility|a name or 0 to 23
default-level default-priority|a name or 0 to 7
facility|0 to 23, or a name, as kern or local0
level severity priority|0 to 7, or a name, as err or debug
keep-hostname keep-timestamp fsync create-dirs prealloc reliable|yes or no, without quotes
value|a name of 1 to 255 bytes
program host message match subst|a pattern of at most 1,000 bytes, which of type(\"string\") isn't empty
ts-format|bsd, rfc3164, iso or rfc3339
transport|tcp";

/// The option in whose parentheses the token of this place stands, and what it takes.
pub fn range_of(tokens: &[Token], at: usize) -> Option<(&[u8], &'static [u8])> {
    let caller = caller_of(tokens, at)?;
    let told = told_of(RANGES, caller.text.bytes())?;
    Some((caller.text.bytes(), told))
}

/// What the flag `catchall` is told of.
pub fn is_catchall(tokens: &[Token], at: usize) -> bool {
    match token_at(tokens, at) {
        Some(token) => token.text.bytes() == b"catchall".as_slice(),
        None => false,
    }
}
