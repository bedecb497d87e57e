// The files of a configuration and their expanded tokens, read again.
ghost use Rattle.std.specs.Prelude.{◌≡◌};
ghost use Rattle.sg_outside.specs.World.{OnlyReads};

use sg_device::{Name, NoMemory};
use sg_expand::{ExpandRefusal, Expanded};
use sg_hint::{Numbered, expand_again, number_tokens, read};
use sg_lex::Token;
use sg_list::Seq;
use sg_outside::Files;
use std::alloc::{AllocError, Global};

/// A place in a file.
#[derive(Clone, Copy, PartialEq, Eq, Drop)]
pub struct Location {
    /// The number of the file.
    pub file: u32,
    /// Counted from 1.
    pub line: u32,
    /// The byte of the line, counted from 1.
    pub column: u32,
}

/// The files of a configuration, and their expanded tokens.
#[derive(Drop)]
pub struct Listing {
    /// None where the expansion stops.
    pub list: Numbered,
    /// The names of the files by number.
    pub names: Seq<Name>,
    /// What each file holds, empty where it can't be read again.
    pub texts: Vec<Vec<u8>>,
}

impl Listing {
    /// Where the token of this place was written.
    pub fn location(&self, at: usize) -> Option<Location> {
        let token = self.list.tokens.get(at)?;
        let line = self.list.lines.get(at)?;
        Some(Location {
            file: token.file,
            line: *line,
            column: token.column,
        })
    }

    pub fn tokens(&self) -> &[Token] {
        self.list.tokens.as_slice()
    }

    /// What the file of that number holds.
    pub fn text(&self, file: u32) -> &[u8] {
        match self.texts.get(file as usize) {
            Some(text) => text.as_slice(),
            None => b"",
        }
    }
}

// What the file of this name holds, nothing where it can't be read.
fn text_of<F: Files>(alloc: Global, files: &mut F, name: &[u8]) -> Result<Vec<u8>, NoMemory>
    ensures { OnlyReads (F.state files.old) (F.state files.new) }
{
    match read(alloc, files, name)? {
        Some(text) => Ok(text),
        None => Ok(Vec::new(alloc)),
    }
}

fn texts_of<F: Files>(
    alloc: Global,
    files: &mut F,
    names: &[Name],
) -> Result<Vec<Vec<u8>>, NoMemory>
    ensures { OnlyReads (F.state files.old) (F.state files.new) }
{
    let mut texts = Vec::new(alloc);
    for name in names {
        texts.push(text_of(alloc, files, name.bytes())?)?;
    }
    Ok(texts)
}

// The tokens and the names of the files, no tokens where the expansion stops.
fn parts_of(
    alloc: Global,
    expanded: Result<Expanded, ExpandRefusal>,
) -> Result<(Vec<Token>, Seq<Name>), NoMemory> {
    match expanded {
        Ok(Expanded { tokens, names }) => Ok((tokens.into_vec(), names)),
        Err(ExpandRefusal::Bad { fault: _, names }) => Ok((Vec::new(alloc), names)),
        Err(ExpandRefusal::ReadFault(_)) => Ok((Vec::new(alloc), Seq::empty(alloc))),
        Err(ExpandRefusal::NoMemory) => Err(AllocError),
    }
}

/// The files of the configuration in the file of this name, and their expanded tokens.
pub fn read_listing<F: Files>(
    alloc: Global,
    files: &mut F,
    main: &[u8],
) -> Result<Listing, NoMemory>
    // Files were read, and nothing else.
    ensures { OnlyReads (F.state files.old) (F.state files.new) }
{
    let text = text_of(alloc, files, main)?;
    let (tokens, names) = parts_of(alloc, expand_again(alloc, files, main, &text))?;
    let texts = texts_of(alloc, files, names.as_slice())?;
    Ok(Listing {
        list: number_tokens(alloc, tokens)?,
        names,
        texts,
    })
}
