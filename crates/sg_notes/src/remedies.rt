// What goes in the place of what isn't supported, in the words of MIGRATION.

use sg_lex::{Token, TokenKind};
use sg_listing::{caller_of, has_word, token_at, told_of};

/// Words of syslog-ng, and what MIGRATION says in their rows.
const REMEDIES: &[u8] =
    b"system unix-stream unix-dgram systemd-journal|`network(ip(\"127.0.0.1\") port(514))`, to which programs send by TCP, as `logger --tcp --server 127.0.0.1 --port 514 --rfc3164`; or a `file()` that they write
tcp|`network(..)`
udp tls|TCP; what sends by UDP or needs TLS goes through a relay beside the program
wildcard-file|a `file()` for each
usertty program pipe|nothing; a terminal is `file(\"/dev/tty10\")`
sql http mongodb|nothing
internal|standard error
netmask in-list|`host(\"^10\\\\.\")`, several with `or`, of sources with `keep-hostname(no)`, where HOST is the peer's address
posix|`type(\"pcre\")`; in front of the pattern `(?s)` and its kin, of the `regex` crate's grammar
set-facility set-severity set-pri|nothing: PRI and timestamps of a message aren't changed
rename set-matches map-value-pairs fix-time-zone rate-limit|nothing
db-parser grouping-by json-parser|nothing
template-escape|nothing, or `template-escape(no)` in the braces of a template statement
program-override host-override|a rewrite, as `set(\"P\" value(\"PROGRAM\"))`, `set(\"H\" value(\"HOST\"))`
quote-pairs dialect escape-double-char escape-none escape-backslash|nothing: `\"` alone quotes
strip-whitespace|nothing: blanks are part of a field";

/// Comparisons of syslog-ng.
const COMPARED: &[u8] = b"`eq` and its kin, which compare texts byte by byte";
/// Versions before 4.
const VERSION: &[u8] = b"`@version: 4.2`";
/// Numbers with units, and what stands in quotes.
const QUOTED: &[u8] = b"the number, `yes`, `no`, without quotes";
/// Included files by a pattern.
const INCLUDED: &[u8] = b"each file by its name";
/// The library of syslog-ng, and its name.
const LIBRARY: &[u8] = b"nothing: what is used of it is written out";

const LIBRARY_NAME: &[u8] = b"scl.conf";

// What goes in the place of a word.
fn remedy_of(token: &Token) -> Option<(&[u8], &'static [u8])> {
    let word = token.text.bytes();
    Some((word, told_of(REMEDIES, word)?))
}

/// What goes in the place of a comparison.
pub fn compared_remedy(tokens: &[Token], at: usize) -> Option<(&[u8], &'static [u8])> {
    let token = token_at(tokens, at)?;
    match token.kind {
        TokenKind::Op => Some((token.text.bytes(), COMPARED)),
        _ => None,
    }
}

/// What goes in the place of a number with a unit or in quotes, or of a yes or no in quotes.
pub fn quoted_remedy(tokens: &[Token], at: usize) -> Option<(&[u8], &'static [u8])> {
    let token = token_at(tokens, at)?;
    let quoted = match token.kind {
        TokenKind::Str => true,
        TokenKind::Word => begins_with_digit(token.text.bytes()),
        _ => false,
    };
    if quoted {
        return Some((token.text.bytes(), QUOTED));
    }
    None
}

fn begins_with_digit(text: &[u8]) -> bool {
    match text.first() {
        Some(byte) => byte.is_ascii_digit(),
        None => false,
    }
}

// Whether what stands in its parentheses may be what isn't supported.
fn has_values(caller: &Token) -> bool {
    has_word(b"template-escape transport", caller.text.bytes())
}

/// What goes in the place of the token of this place, or of the call in whose parentheses it stands.
pub fn remedy_at(tokens: &[Token], at: usize) -> Option<(&[u8], &'static [u8])> {
    if let Some(remedy) = remedy_of(token_at(tokens, at)?) {
        return Some(remedy);
    }
    let caller = caller_of(tokens, at)?;
    if !has_values(caller) {
        return None;
    }
    remedy_of(caller)
}

/// What goes in the place of what stops an expansion.
pub fn version_remedy() -> &'static [u8] {
    VERSION
}

pub fn include_remedy() -> &'static [u8] {
    INCLUDED
}

/// What goes in the place of an included file of this name, where it is the library of syslog-ng.
pub fn library_remedy(name: &[u8]) -> Option<&'static [u8]> {
    if name == LIBRARY_NAME {
        return Some(LIBRARY);
    }
    None
}
