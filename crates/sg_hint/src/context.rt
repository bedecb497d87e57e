// What holds a token, and what the language has there.
ghost use Rattle.std.specs.Prelude.{◌≡◌, ◌-◌, [], IfOk, OnOk, length, option_copied, slice_get, take};
ghost use Rattle.sg_parse_expr.specs.Forms.{row_of};
ghost use Rattle.sg_hint.specs.Contexts as spec;

use crate::names::token_at;
use sg_device::NoMemory;
use sg_lex::Token;
use sg_parse_base::is_symbol;
use sg_parse_expr::row_of;
use std::alloc::Global;

/// What a brace holds, or the parentheses of a condition.
#[derive(Clone, Copy, Drop)]
pub enum BodyKind {
    Path,
    Channels,
    Source,
    Destination,
    Filter,
    Rewrite,
    Parser,
    Options,
    Template,
}

/// What the language has in a place.
#[derive(Clone, Copy, Drop)]
pub enum HintContext {
    /// Nothing is known of the place.
    Anywhere,
    Statements,
    Elements,
    Channels,
    Drivers,
    Filters,
    Rewrites,
    Parsers,
    Globals,
    Templates,
    FileSource,
    NetworkSource,
    FileDestination,
    NetworkDestination,
    SyslogDestination,
    DiskBuffer,
    Pattern,
    Match,
    Set,
    Subst,
    Group,
    Tag,
    Csv,
    Kv,
    Delimiters,
    PathFlags,
    SourceFlags,
    PatternFlags,
    SubstFlags,
    CsvFlags,
    Kinds,
    Stamps,
    Transports,
    Levels,
}

/// What is around tokens: the innermost body, and what the language has there.
#[derive(Clone, Copy, Drop)]
pub struct Around {
    pub body: Option<BodyKind>,
    pub context: HintContext,
}

const BODIES: [(&[u8], BodyKind); 12] = [
    (b"log", BodyKind::Path),
    (b"channel", BodyKind::Path),
    (b"else", BodyKind::Path),
    (b")", BodyKind::Path),
    (b"junction", BodyKind::Channels),
    (b"source", BodyKind::Source),
    (b"destination", BodyKind::Destination),
    (b"filter", BodyKind::Filter),
    (b"rewrite", BodyKind::Rewrite),
    (b"parser", BodyKind::Parser),
    (b"options", BodyKind::Options),
    (b"template", BodyKind::Template),
];

const CONDITIONS: [(&[u8], BodyKind); 3] = [
    (b"if", BodyKind::Filter),
    (b"elif", BodyKind::Filter),
    (b"condition", BodyKind::Filter),
];

const IN_SOURCE: [(&[u8], HintContext); 8] = [
    (b"file", HintContext::FileSource),
    (b"network", HintContext::NetworkSource),
    (b"syslog", HintContext::NetworkSource),
    (b"flags", HintContext::SourceFlags),
    (b"transport", HintContext::Transports),
    (b"default-facility", HintContext::Levels),
    (b"default-level", HintContext::Levels),
    (b"default-priority", HintContext::Levels),
];

const IN_DESTINATION: [(&[u8], HintContext); 6] = [
    (b"file", HintContext::FileDestination),
    (b"network", HintContext::NetworkDestination),
    (b"syslog", HintContext::SyslogDestination),
    (b"disk-buffer", HintContext::DiskBuffer),
    (b"ts-format", HintContext::Stamps),
    (b"transport", HintContext::Transports),
];

const IN_FILTER: [(&[u8], HintContext); 15] = [
    (b"(", HintContext::Filters),
    (b"{", HintContext::Filters),
    (b"not", HintContext::Filters),
    (b"and", HintContext::Filters),
    (b"or", HintContext::Filters),
    (b"program", HintContext::Pattern),
    (b"host", HintContext::Pattern),
    (b"message", HintContext::Pattern),
    (b"match", HintContext::Match),
    (b"type", HintContext::Kinds),
    (b"flags", HintContext::PatternFlags),
    (b"facility", HintContext::Levels),
    (b"level", HintContext::Levels),
    (b"severity", HintContext::Levels),
    (b"priority", HintContext::Levels),
];

const IN_REWRITE: [(&[u8], HintContext); 9] = [
    (b"set", HintContext::Set),
    (b"unset", HintContext::Set),
    (b"subst", HintContext::Subst),
    (b"groupset", HintContext::Group),
    (b"groupunset", HintContext::Group),
    (b"set-tag", HintContext::Tag),
    (b"clear-tag", HintContext::Tag),
    (b"type", HintContext::Kinds),
    (b"flags", HintContext::SubstFlags),
];

const IN_PARSER: [(&[u8], HintContext); 4] = [
    (b"csv-parser", HintContext::Csv),
    (b"kv-parser", HintContext::Kv),
    (b"delimiters", HintContext::Delimiters),
    (b"flags", HintContext::CsvFlags),
];

const IN_PATH: [(&[u8], HintContext); 1] = [(b"flags", HintContext::PathFlags)];

const IN_OPTIONS: [(&[u8], HintContext); 1] = [(b"ts-format", HintContext::Stamps)];

#[tactic(auto, unfolding(crate::specs::Contexts::bodies))]
fn body_of(word: &[u8]) -> Option<BodyKind>
    ensures { result ≡ row_of spec.bodies word.now }
{
    row_of(&BODIES, word)
}

#[tactic(auto, unfolding(crate::specs::Contexts::conditions))]
fn condition_of(word: &[u8]) -> Option<BodyKind>
    ensures { result ≡ row_of spec.conditions word.now }
{
    row_of(&CONDITIONS, word)
}

#[tactic(auto, unfolding(crate::specs::Contexts::in_source))]
fn in_source(word: &[u8]) -> Option<HintContext>
    ensures { result ≡ row_of spec.in_source word.now }
{
    row_of(&IN_SOURCE, word)
}

#[tactic(auto, unfolding(crate::specs::Contexts::in_destination))]
fn in_destination(word: &[u8]) -> Option<HintContext>
    ensures { result ≡ row_of spec.in_destination word.now }
{
    row_of(&IN_DESTINATION, word)
}

#[tactic(auto, unfolding(crate::specs::Contexts::in_filter))]
fn in_filter(word: &[u8]) -> Option<HintContext>
    ensures { result ≡ row_of spec.in_filter word.now }
{
    row_of(&IN_FILTER, word)
}

#[tactic(auto, unfolding(crate::specs::Contexts::in_rewrite))]
fn in_rewrite(word: &[u8]) -> Option<HintContext>
    ensures { result ≡ row_of spec.in_rewrite word.now }
{
    row_of(&IN_REWRITE, word)
}

#[tactic(auto, unfolding(crate::specs::Contexts::in_parser))]
fn in_parser(word: &[u8]) -> Option<HintContext>
    ensures { result ≡ row_of spec.in_parser word.now }
{
    row_of(&IN_PARSER, word)
}

#[tactic(auto, unfolding(crate::specs::Contexts::in_path))]
fn in_path(word: &[u8]) -> Option<HintContext>
    ensures { result ≡ row_of spec.in_path word.now }
{
    row_of(&IN_PATH, word)
}

#[tactic(auto, unfolding(crate::specs::Contexts::in_options))]
fn in_options(word: &[u8]) -> Option<HintContext>
    ensures { result ≡ row_of spec.in_options word.now }
{
    row_of(&IN_OPTIONS, word)
}

/// Whether it is an opening parenthesis or brace.
fn opens(token: &Token) -> bool
    ensures { result ≡ spec.is_opening token.now }
{
    is_symbol(token, b'(') || is_symbol(token, b'{')
}

/// Whether it is a closing parenthesis or brace.
fn closes(token: &Token) -> bool
    ensures { result ≡ spec.is_closing token.now }
{
    is_symbol(token, b')') || is_symbol(token, b'}')
}

fn token_text(token: Option<&Token>) -> &[u8]
    ensures { result.now ≡ spec.token_text (option_copied token.entry) }
{
    match token {
        Some(token) => token.text.bytes(),
        None => b"",
    }
}

fn text_at(tokens: &[Token], at: usize) -> &[u8]
    ensures { result.now ≡ spec.text_at tokens.now at }
{
    token_text(token_at(tokens, at))
}

fn first_body(far: Option<BodyKind>, near: Option<BodyKind>) -> Option<BodyKind>
    ensures { result ≡ spec.first_body far near }
{
    match far {
        Some(far) => Some(far),
        None => near,
    }
}

/// The body that opens with the token of this place, if one does.
fn body_at(tokens: &[Token], at: usize, token: &Token) -> Option<BodyKind>
    ensures { result ≡ spec.body_at tokens.now at token.now }
{
    let near = text_at(tokens, at.saturating_sub(1));
    if is_symbol(token, b'{') {
        let far = text_at(tokens, at.saturating_sub(2));
        first_body(body_of(far), body_of(near))
    } else {
        condition_of(near)
    }
}

/// What the language has at the beginning of a body's items.
fn body_context(body: BodyKind) -> HintContext
    ensures { result ≡ spec.body_context body }
{
    match body {
        BodyKind::Path => HintContext::Elements,
        BodyKind::Channels => HintContext::Channels,
        BodyKind::Source => HintContext::Drivers,
        BodyKind::Destination => HintContext::Drivers,
        BodyKind::Filter => HintContext::Filters,
        BodyKind::Rewrite => HintContext::Rewrites,
        BodyKind::Parser => HintContext::Parsers,
        BodyKind::Options => HintContext::Globals,
        BodyKind::Template => HintContext::Templates,
    }
}

/// What it has in the parentheses of a call in a body.
fn call_row(body: BodyKind, word: &[u8]) -> Option<HintContext>
    ensures { result ≡ spec.call_row body word.now }
{
    match body {
        BodyKind::Path => in_path(word),
        BodyKind::Channels => None,
        BodyKind::Source => in_source(word),
        BodyKind::Destination => in_destination(word),
        BodyKind::Filter => in_filter(word),
        BodyKind::Rewrite => in_rewrite(word),
        BodyKind::Parser => in_parser(word),
        BodyKind::Options => in_options(word),
        BodyKind::Template => None,
    }
}

fn or_anywhere(context: Option<HintContext>) -> HintContext
    ensures { result ≡ spec.or_anywhere context }
{
    match context {
        Some(found) => found,
        None => HintContext::Anywhere,
    }
}

fn call_context(body: Option<BodyKind>, word: &[u8]) -> HintContext
    ensures { result ≡ spec.call_context body word.now }
{
    match body {
        Some(within) => or_anywhere(call_row(within, word)),
        None => HintContext::Anywhere,
    }
}

/// What is around the tokens behind one that opens, in front of which this word stands.
fn around_of(begun: Option<BodyKind>, outer: Around, word: &[u8]) -> Around
    ensures { result ≡ spec.around_of begun outer word.now }
{
    match begun {
        Some(body) => Around {
            body: Some(body),
            context: body_context(body),
        },
        None => Around {
            body: outer.body,
            context: call_context(outer.body, word),
        },
    }
}

fn or_outermost(around: Option<Around>) -> Around
    ensures { result ≡ spec.or_outermost around }
{
    match around {
        Some(around) => around,
        None => Around {
            body: None,
            context: HintContext::Statements,
        },
    }
}

fn last_of(stack: &[Around]) -> Option<Around>
    ensures { result ≡ slice_get stack.now (length stack.now - 1) }
{
    stack.get(stack.len().saturating_sub(1)).copied()
}

fn innermost(stack: &[Around]) -> Around
    ensures { result ≡ spec.innermost stack.now }
{
    or_outermost(last_of(stack))
}

/// Goes past the token of this place.
fn pass(tokens: &[Token], at: usize, token: &Token, stack: &mut Vec<Around>) -> Result<(), NoMemory>
    ensures { OnOk result
        (stack.new.items ≡ spec.stack_behind tokens.now stack.old.items at token.now) }
{
    if opens(token) {
        let outer = innermost(stack.as_slice());
        let word = text_at(tokens, at.saturating_sub(1));
        stack.push(around_of(body_at(tokens, at, token), outer, word))?;
    } else if closes(token) {
        let count = stack.len().saturating_sub(1);
        stack.truncate(count);
    }
    Ok(())
}

/// What is open behind the tokens at the front of the list, the innermost last.
fn stack_of(alloc: Global, tokens: &[Token], front: &[Token]) -> Result<Vec<Around>, NoMemory>
    ensures { IfOk result
        (λ stack. stack.items ≡ spec.stack_from tokens.now [] 0 front.now) }
{
    let mut stack = Vec::new(alloc);
    let mut at = 0usize;
    for token in front {
        pass(tokens, at, token, &mut stack)?;
        at += 1;
    }
    Ok(stack)
}

fn front(tokens: &[Token], at: usize) -> &[Token]
    ensures { result.now ≡ take at tokens.now }
{
    match tokens.get(..at) {
        Some(front) => front,
        None => tokens,
    }
}

/// What the language has at the token of this place.
pub fn context_of(alloc: Global, tokens: &[Token], at: usize) -> Result<HintContext, NoMemory>
    ensures { IfOk result (λ context. context ≡ spec.context_of tokens.now at) }
{
    let stack = stack_of(alloc, tokens, front(tokens, at))?;
    Ok(innermost(&stack).context)
}
