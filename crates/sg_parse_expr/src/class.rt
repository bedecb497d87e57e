// What may stand in the place of a value, and what another token there is.
ghost use Rattle.std.specs.Prelude.{◌≡◌, map, IfOk};
ghost use Rattle.sg_macro.specs.Reading.{parts_of};
ghost use Rattle.sg_parse_expr.specs.Classes as spec;

use sg_lex::{ConfigKind, Token};
use sg_macro::{TemplateFault, read_parts};
use sg_parse_base::{is_name, is_number, is_string, is_symbol, is_truth, is_word, same_keyword};
use std::alloc::{AllocError, Global};

/// A set of words.
#[derive(Clone, Copy, Drop)]
pub enum WordChoice {
    /// Of `type`.
    PatternKind,
    /// Of `flags` of a pattern.
    PatternFlag,
    /// Of `flags` of `subst`.
    SubstFlag,
    /// Of `flags` of `csv-parser`.
    CsvFlag,
    /// Of `flags` of a source.
    SourceFlag,
    Transport,
    StampForm,
}

/// What one value is.
#[derive(Clone, Copy, Drop)]
pub enum Class {
    /// A word or a string.
    Name,
    /// The same, which is a template.
    Template,
    /// A string, which is a template.
    Text,
    /// Decimal digits of a number below 2^63.
    Number,
    /// Yes or no.
    Truth,
    /// Yes. No isn't supported.
    Yes,
    /// A name of a facility, or digits.
    Facility,
    /// A name of a severity, or digits.
    Level,
    Word(WordChoice),
}

/// Whether the text is one of these words, in which `-` and `_` are equal.
fn is_one_of(text: &[u8], words: &[&[u8]]) -> bool
    ensures { result ≡ spec.is_one_of text.now (map (λ word. word.now) words.now) }
{
    for word in words {
        if same_keyword(text, *word) {
            return true;
        }
    }
    false
}

fn is_same_as(text: &[u8], names: &[&[u8]]) -> bool
    ensures { result ≡ spec.is_same_as text.now (map (λ name. name.now) names.now) }
{
    for name in names {
        if text == *name {
            return true;
        }
    }
    false
}

#[tactic(auto, unfolding(crate::specs::Classes::words_of))]
fn is_choice(choice: WordChoice, text: &[u8]) -> bool
    ensures { result ≡ spec.is_one_of text.now (spec.words_of choice) }
{
    match choice {
        WordChoice::PatternKind => is_one_of(text, &[b"pcre", b"string", b"glob"]),
        WordChoice::PatternFlag => is_one_of(text, &[b"ignore-case", b"prefix", b"substring"]),
        WordChoice::SubstFlag => is_one_of(
            text,
            &[b"ignore-case", b"prefix", b"substring", b"global"],
        ),
        WordChoice::CsvFlag => is_one_of(text, &[b"greedy", b"drop-invalid"]),
        WordChoice::SourceFlag => is_one_of(
            text,
            &[
                b"no-parse",
                b"syslog-protocol",
                b"empty-lines",
                b"kernel",
                b"assume-utf8",
                b"dont-store-legacy-msghdr",
                b"expect-hostname",
                b"no-multi-line",
            ],
        ),
        WordChoice::Transport => is_one_of(text, &[b"tcp"]),
        WordChoice::StampForm => is_one_of(text, &[b"bsd", b"rfc3164", b"iso", b"rfc3339"]),
    }
}

const FACILITIES: [&[u8]; 24] = [
    b"kern",
    b"user",
    b"mail",
    b"daemon",
    b"auth",
    b"syslog",
    b"lpr",
    b"news",
    b"uucp",
    b"cron",
    b"authpriv",
    b"ftp",
    b"ntp",
    b"security",
    b"console",
    b"solaris-cron",
    b"local0",
    b"local1",
    b"local2",
    b"local3",
    b"local4",
    b"local5",
    b"local6",
    b"local7",
];

const LEVELS: [&[u8]; 11] = [
    b"emerg", b"alert", b"crit", b"err", b"warning", b"notice", b"info", b"debug", b"panic",
    b"error", b"warn",
];

#[tactic(auto, unfolding(crate::specs::Classes::facilities))]
fn is_facility(text: &[u8]) -> bool
    ensures { result ≡ spec.is_same_as text.now spec.facilities }
{
    is_same_as(text, &FACILITIES)
}

#[tactic(auto, unfolding(crate::specs::Classes::levels))]
fn is_level(text: &[u8]) -> bool
    ensures { result ≡ spec.is_same_as text.now spec.levels }
{
    is_same_as(text, &LEVELS)
}

fn are_digits(text: &[u8]) -> bool
    ensures { result ≡ spec.are_digits text.now }
{
    for byte in text {
        if *byte < b'0' || *byte > b'9' {
            return false;
        }
    }
    true
}

/// Whether the text is `yes`, `on` or `1`.
pub fn is_yes(text: &[u8]) -> bool
    ensures { result ≡ spec.is_yes text.now }
{
    text == b"yes".as_slice() || text == b"on".as_slice() || text == b"1".as_slice()
}

fn template_verdict(alloc: Global, text: &[u8]) -> Result<Option<ConfigKind>, AllocError>
    ensures { IfOk result (λ verdict. verdict ≡ spec.template_verdict (parts_of text.now)) }
{
    match read_parts(alloc, text) {
        Ok(_) => Ok(None),
        Err(TemplateFault::OpenBrace) => Ok(Some(ConfigKind::OpenBrace)),
        Err(TemplateFault::Function) => Ok(Some(ConfigKind::Function)),
        Err(TemplateFault::NoMemory) => Err(AllocError),
    }
}

fn supported(passes: bool) -> Option<ConfigKind>
    ensures { result ≡ spec.supported passes }
{
    if passes {
        None
    } else {
        Some(ConfigKind::Unsupported)
    }
}

/// A token in place of a number or of yes or no.
fn no_number(token: &Token) -> Option<ConfigKind>
    ensures { result ≡ spec.no_number token.now }
{
    if is_symbol(token, b',') {
        Some(ConfigKind::Unexpected)
    } else {
        Some(ConfigKind::BadNumber)
    }
}

fn truth_verdict(token: &Token) -> Option<ConfigKind>
    ensures { result ≡ spec.truth_verdict token.now }
{
    if is_word(token) && is_truth(token.text.bytes()) {
        None
    } else {
        no_number(token)
    }
}

fn yes_verdict(token: &Token) -> Option<ConfigKind>
    ensures { result ≡ spec.yes_verdict token.now }
{
    if is_word(token) && is_truth(token.text.bytes()) {
        supported(is_yes(token.text.bytes()))
    } else {
        no_number(token)
    }
}

fn number_verdict(token: &Token) -> Option<ConfigKind>
    ensures { result ≡ spec.number_verdict token.now }
{
    if is_word(token) && is_number(token.text.bytes()) {
        None
    } else {
        no_number(token)
    }
}

/// Of a word or a string.
fn name_verdict(
    alloc: Global,
    class: Class,
    token: &Token,
) -> Result<Option<ConfigKind>, AllocError>
    ensures { IfOk result (λ verdict. verdict ≡ spec.name_verdict class token.now) }
{
    let text = token.text.bytes();
    match class {
        Class::Template => template_verdict(alloc, text),
        Class::Word(choice) => Ok(supported(is_choice(choice, text))),
        Class::Facility => Ok(supported(is_facility(text) || (is_word(token) && are_digits(text)))),
        Class::Level => Ok(supported(is_level(text) || (is_word(token) && are_digits(text)))),
        _ => Ok(None),
    }
}

fn named_verdict(
    alloc: Global,
    class: Class,
    token: &Token,
) -> Result<Option<ConfigKind>, AllocError>
    ensures { IfOk result (λ verdict. verdict ≡ spec.named_verdict class token.now) }
{
    if !is_name(token) {
        return Ok(Some(ConfigKind::Unexpected));
    }
    name_verdict(alloc, class, token)
}

fn text_verdict(alloc: Global, token: &Token) -> Result<Option<ConfigKind>, AllocError>
    ensures { IfOk result (λ verdict. verdict ≡ spec.text_verdict token.now) }
{
    if !is_string(token) {
        return Ok(Some(ConfigKind::Unexpected));
    }
    template_verdict(alloc, token.text.bytes())
}

/// What is wrong with a token in the place of a value, none where it may stand there.
#[tactic(auto, unfolding(crate::specs::Classes::verdict))]
pub fn verdict(alloc: Global, class: Class, token: &Token) -> Result<Option<ConfigKind>, AllocError>
    ensures { IfOk result (λ verdict. verdict ≡ spec.verdict class token.now) }
{
    match class {
        Class::Text => text_verdict(alloc, token),
        Class::Number => Ok(number_verdict(token)),
        Class::Truth => Ok(truth_verdict(token)),
        Class::Yes => Ok(yes_verdict(token)),
        other => named_verdict(alloc, other, token),
    }
}
