// The token of a fault behind the expansion.
ghost use Rattle.std.specs.Prelude.{◌≡◌, ◌++◌, ◌∷◌, [], ◌<◌, ◌^◌, length, IfOk, OnOk, Some, option_copied, slice_get, Decides};
ghost use Rattle.sg_hint.specs.Lines.{more};
ghost use Rattle.sg_hint.specs.Meanings.{name_in, name_of, word_of};
ghost use Rattle.sg_hint.specs.Listed.{column_at, fault_of, lines_of, listed_column, numbered, IsAgain, IsCompiled, IsFirstWrong, IsInList, IsListed, IsListedPathFault, IsPathsFirst, IsSpotOf, IsSpotted};

use crate::context::{HintContext, context_of};
use crate::fitting::fitting_meant;
use crate::names::{name_meant, token_at};
use crate::written::Spotted;
use sg_config::{Config, LoadRefusal, load};
use sg_device::{Name, NoMemory};
use sg_lex::{ConfigFault, ConfigKind, Line, Token};
use sg_parse_base::is_word;
use sg_pattern::Patterns;
use sg_table::compile;
use sg_tree::PathRefusal;
use std::alloc::{AllocError, Global};

/// Expanded tokens, each with its place in the list, from 1 on, as its line.
#[derive(Drop)]
pub struct Numbered {
    pub tokens: Vec<Token>,
    /// The lines in the files.
    pub lines: Vec<u32>,
    /// How many there are.
    pub count: u32,
}

impl Numbered {
    fn push(&mut self, token: Token) -> Result<(), NoMemory>
        ensures count { OnOk result (self.new.count ≡ more self.old.count) }
        ensures lines { OnOk result
            (self.new.lines.items ≡ self.old.lines.items ++ token.line ∷ []) }
        ensures tokens { OnOk result (self.new.tokens.items
            ≡ self.old.tokens.items ++ (record token { line = more self.old.count }) ∷ []) }
    {
        self.count = self.count.saturating_add(1);
        self.lines.push(token.line)?;
        self.tokens.push(Token {
            kind: token.kind,
            file: token.file,
            line: self.count,
            column: token.column,
            text: token.text,
        })?;
        Ok(())
    }
}

/// These tokens, numbered.
pub fn number_tokens(alloc: Global, tokens: Vec<Token>) -> Result<Numbered, NoMemory>
    ensures tokens { IfOk result (λ list. list.tokens.items ≡ numbered 0 tokens.items) }
    ensures lines { IfOk result (λ list. list.lines.items ≡ lines_of tokens.items) }
{
    let mut list = Numbered {
        tokens: Vec::new(alloc),
        lines: Vec::new(alloc),
        count: 0,
    };
    for token in tokens {
        list.push(token)?;
    }
    Ok(list)
}

fn fault_of(kind: ConfigKind, line: Line) -> ConfigFault
    ensures { result ≡ fault_of kind line }
{
    ConfigFault {
        kind,
        file: line.file,
        line: line.line,
    }
}

/// The fault that a refusal of log paths is.
fn refused_fault(refusal: PathRefusal) -> Result<ConfigFault, NoMemory>
    ensures { IfOk result (λ fault. IsListedPathFault refusal fault) }
{
    match refusal {
        PathRefusal::BadPattern(line) => Ok(fault_of(ConfigKind::BadPattern, line)),
        PathRefusal::PatternTooLarge(line) => Ok(fault_of(ConfigKind::PatternTooLarge, line)),
        PathRefusal::TooManyOffers(line) => Ok(fault_of(ConfigKind::TooManyOffers, line)),
        PathRefusal::NoMemory => Err(AllocError),
    }
}

/// Why the log paths of a configuration aren't compiled.
fn path_refusal(alloc: Global, patterns: &mut Patterns, config: &Config) -> Option<PathRefusal>
    ensures { IsCompiled config.now result }
{
    compile(alloc, &config.forest, patterns).err()
}

/// What is wrong with the log paths of a configuration, if anything is.
fn path_fault(
    alloc: Global,
    patterns: &mut Patterns,
    config: &Config,
) -> Result<Option<ConfigFault>, NoMemory>
    ensures { IfOk result (λ fault. IsPathsFirst config.now fault) }
{
    match path_refusal(alloc, patterns, config) {
        Some(refusal) => Ok(Some(refused_fault(refusal)?)),
        None => Ok(None),
    }
}

/// What is wrong with these tokens first, if anything is. Their patterns are made by this builder, which keeps them: asked
/// again, it makes none twice.
pub fn fault_again(
    alloc: Global,
    patterns: &mut Patterns,
    tokens: &[Token],
) -> Result<Option<ConfigFault>, NoMemory>
    requires { length tokens.now < 2 ^ 32 }
    ensures { IfOk result (λ fault. IsFirstWrong tokens.now fault) }
{
    match load(alloc, tokens) {
        Ok(config) => path_fault(alloc, patterns, &config),
        Err(LoadRefusal::Bad(fault)) => Ok(Some(fault)),
        Err(LoadRefusal::NoMemory) => Err(AllocError),
    }
}

/// The same by a builder that has made no pattern yet.
fn first_fault(alloc: Global, tokens: &[Token]) -> Result<Option<ConfigFault>, NoMemory>
    requires { length tokens.now < 2 ^ 32 }
    ensures { IfOk result (λ fault. IsFirstWrong tokens.now fault) }
{
    let mut patterns = Patterns::new(alloc);
    fault_again(alloc, &mut patterns, tokens)
}

fn is_kind(kind: ConfigKind, other: ConfigKind) -> bool
    ensures { Decides result (kind ≡ other) }
{
    kind == other
}

/// Whether both faults are of one kind and file, and the second has a place.
fn is_again(fault: &ConfigFault, again: &ConfigFault) -> bool
    ensures { Decides result (IsAgain fault.now again.now) }
{
    if again.line == 0 || again.file != fault.file {
        return false;
    }
    is_kind(again.kind, fault.kind)
}

/// Whether they are the same.
pub fn is_same(fault: &ConfigFault, other: &ConfigFault) -> bool
    ensures { Decides result (fault.now ≡ other.now) }
{
    if fault.file != other.file || fault.line != other.line {
        return false;
    }
    is_kind(fault.kind, other.kind)
}

/// The word of those that fit its place that was meant by the token, if it is a word.
fn word_of(context: HintContext, token: Option<&Token>) -> Option<&'static [u8]>
    ensures { option_copied result ≡ word_of context (option_copied token.entry) }
{
    match token {
        Some(token) => if is_word(token) {
            fitting_meant(context, token.text.bytes())
        } else {
            None
        },
        None => None,
    }
}

/// What was meant by the token of this place.
fn name_in<'a>(
    kind: ConfigKind,
    context: HintContext,
    tokens: &'a [Token],
    at: usize,
) -> Option<&'a [u8]>
    ensures { option_copied result ≡ name_in kind context tokens.now at }
{
    match kind {
        ConfigKind::UnknownName => name_meant(tokens, at),
        ConfigKind::Unsupported => word_of(context, token_at(tokens, at)),
        ConfigKind::Unexpected => word_of(context, token_at(tokens, at)),
        _ => None,
    }
}

fn meant(
    alloc: Global,
    kind: ConfigKind,
    tokens: &[Token],
    at: usize,
) -> Result<Option<Name>, NoMemory>
    ensures { IfOk result (λ meant. meant ≡ name_of kind tokens.now at) }
{
    let context = context_of(alloc, tokens, at)?;
    match name_in(kind, context, tokens, at) {
        Some(name) => Ok(Some(Name::new(alloc, name)?)),
        None => Ok(None),
    }
}

fn line_at(lines: &[u32], at: usize) -> Option<u32>
    ensures { result ≡ slice_get lines.now at }
{
    lines.get(at).copied()
}

/// The column of the token with that line of its own, if it is this line.
fn listed_column(line: u32, token: Option<&Token>, own: Option<u32>) -> Option<u32>
    ensures { result ≡ listed_column line (option_copied token.entry) own }
{
    match (token, own) {
        (Some(token), Some(own)) => if own == line {
            Some(token.column)
        } else {
            None
        },
        _ => None,
    }
}

/// The column of the token of this place, if it was written in this line.
fn column_at(list: &Numbered, line: u32, at: usize) -> Option<u32>
    ensures { result ≡ column_at list.now.tokens.items list.now.lines.items line at }
{
    let token = token_at(&list.tokens, at);
    let own = line_at(&list.lines, at);
    listed_column(line, token, own)
}

/// The token of this place, if it stands in the fault's line.
fn spot_at(
    alloc: Global,
    fault: &ConfigFault,
    list: &Numbered,
    at: usize,
) -> Result<Option<Spotted>, NoMemory>
    ensures { IfOk result (λ spotted. IsSpotted fault.now.kind list.now.tokens.items at
        (column_at list.now.tokens.items list.now.lines.items fault.now.line at) spotted) }
{
    match column_at(list, fault.line, at) {
        Some(column) => Ok(Some(Spotted {
            column,
            meant: meant(alloc, fault.kind, &list.tokens, at)?,
        })),
        None => Ok(None),
    }
}

/// The token of the fault, where this one is found in the numbered list.
fn spot_of(
    alloc: Global,
    fault: &ConfigFault,
    list: &Numbered,
    again: &ConfigFault,
) -> Result<Option<Spotted>, NoMemory>
    ensures { IfOk result (λ spotted. IsSpotOf list.now.tokens.items
        (column_at list.now.tokens.items list.now.lines.items fault.now.line)
        fault.now (Some again.now) spotted) }
{
    if !is_again(fault, again) {
        return Ok(None);
    }
    spot_at(alloc, fault, list, again.line as usize - 1)
}

/// The token of the fault in the numbered list.
fn token_spot(
    alloc: Global,
    fault: &ConfigFault,
    list: &Numbered,
) -> Result<Option<Spotted>, NoMemory>
    requires { length list.now.tokens.items < 2 ^ 32 }
    ensures { IfOk result (λ spotted. IsInList list.now.tokens.items
        (column_at list.now.tokens.items list.now.lines.items fault.now.line)
        fault.now spotted) }
{
    let first = first_fault(alloc, &list.tokens)?;
    match first {
        Some(again) => spot_of(alloc, fault, list, &again),
        None => Ok(None),
    }
}

/// The token of the fault in the expanded tokens.
pub fn listed_spot(
    alloc: Global,
    fault: &ConfigFault,
    tokens: Vec<Token>,
) -> Result<Option<Spotted>, NoMemory>
    requires { length tokens.items < 2 ^ 32 }
    ensures { IfOk result (λ spotted. IsListed tokens.items fault.now spotted) }
{
    let list = number_tokens(alloc, tokens)?;
    token_spot(alloc, fault, &list)
}
