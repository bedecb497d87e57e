// Which `@include` wanted a file that couldn't be read.
ghost use Rattle.sg_outside.specs.World.{OnlyReads};

use crate::plain::append_remedy;
use crate::remedies::library_remedy;
use sg_device::{Name, NoMemory};
use sg_hint::{Numbered, read};
use sg_lex::{LexFault, TEXT_LIMIT, Token, TokenKind, tokens};
use sg_list::Seq;
use sg_listing::{Listing, Location, append_at};
use sg_outside::Files;
use sg_parse_base::same_keyword;
use std::alloc::{AllocError, Global};

/// How many files are looked through at most.
const MOST: usize = 64;

// The tokens of a text, none where it has none.
fn tokens_of(alloc: Global, file: u32, text: &[u8]) -> Result<Vec<Token>, NoMemory> {
    if text.len() > TEXT_LIMIT {
        return Ok(Vec::new(alloc));
    }
    match tokens(alloc, file, text) {
        Ok(found) => Ok(found),
        Err(LexFault::NoMemory) => Err(AllocError),
        Err(_) => Ok(Vec::new(alloc)),
    }
}

fn is_include(token: &Token) -> bool {
    match token.kind {
        TokenKind::At => same_keyword(token.text.bytes(), b"include"),
        _ => false,
    }
}

// The name that an `@include` at this place asks for, if it is written without variables.
fn included_at(found: &[Token], at: usize) -> Option<&[u8]> {
    if !is_include(found.get(at)?) {
        return None;
    }
    let name = found.get(at.saturating_add(1))?.text.bytes();
    if name.contains(&b'`') {
        return None;
    }
    Some(name)
}

fn is_listed(names: &[Name], name: &[u8]) -> bool {
    names.iter().any(|other| other.bytes() == name)
}

// Lists the files that the tokens include and that aren't listed yet.
fn list_included(alloc: Global, found: &[Token], names: &mut Seq<Name>) -> Result<(), NoMemory> {
    for at in 0..found.len() {
        if let Some(name) = included_at(found, at) {
            if names.len() < MOST && !is_listed(names.as_slice(), name) {
                names.push(Name::new(alloc, name)?)?;
            }
        }
    }
    Ok(())
}

// Whether an `@include` at this place asks for the file of this name.
fn includes(found: &[Token], at: usize, wanted: &[u8]) -> bool {
    match included_at(found, at) {
        Some(name) => name == wanted,
        None => false,
    }
}

fn location_at(found: &[Token], at: usize) -> Option<Location> {
    let token = found.get(at)?;
    Some(Location {
        file: token.file,
        line: token.line,
        column: token.column,
    })
}

// Where the tokens include the file of this name.
fn location_of(found: &[Token], wanted: &[u8]) -> Option<Location> {
    for at in 0..found.len() {
        if includes(found, at, wanted) {
            return location_at(found, at);
        }
    }
    None
}

// What the file of that number holds, nothing where it can't be read.
fn text_at<F: Files>(
    alloc: Global,
    files: &mut F,
    names: &Seq<Name>,
    number: usize,
) -> Result<Option<Vec<u8>>, NoMemory>
    ensures { OnlyReads (F.state files.old) (F.state files.new) }
{
    match names.get(number) {
        Some(name) => read(alloc, files, name.bytes()),
        None => Ok(None),
    }
}

fn note_at(
    alloc: Global,
    names: Seq<Name>,
    texts: Vec<Vec<u8>>,
    at: Location,
    wanted: &[u8],
) -> Result<Vec<u8>, NoMemory> {
    let listing = Listing {
        list: Numbered {
            tokens: Vec::new(alloc),
            lines: Vec::new(alloc),
            count: 0,
        },
        names,
        texts,
    };
    let mut out = Vec::new(alloc);
    append_at(alloc, &listing, at, b"note: it is included here", &mut out)?;
    if let Some(remedy) = library_remedy(wanted) {
        append_remedy(wanted, remedy, &mut out)?;
    }
    Ok(out)
}

/// The line of the `@include` that asks for the file of this name, in the configuration file `main` or one that it includes; none where
/// that is `main` itself. Names with variables aren't known, and 64 files are looked through at most.
pub fn include_note<F: Files>(
    alloc: Global,
    files: &mut F,
    main: &[u8],
    wanted: &[u8],
) -> Result<Option<Vec<u8>>, NoMemory>
    // Files were read, and nothing else.
    ensures { OnlyReads (F.state files.old) (F.state files.new) }
{
    if main == wanted {
        return Ok(None);
    }
    let mut names = Seq::empty(alloc);
    names.push(Name::new(alloc, main)?)?;
    let mut texts = Vec::new(alloc);
    for number in 0..MOST {
        let Some(text) = text_at(alloc, files, &names, number)? else {
            texts.push(Vec::new(alloc))?;
            continue;
        };
        let found = tokens_of(alloc, number as u32, &text)?;
        texts.push(text)?;
        if let Some(at) = location_of(&found, wanted) {
            return Ok(Some(note_at(alloc, names, texts, at, wanted)?));
        }
        list_included(alloc, &found, &mut names)?;
    }
    Ok(None)
}
