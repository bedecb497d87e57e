// The state of an expansion, and its end.
ghost use Rattle.std.specs.Prelude.{◌≡◌, ◌≤◌, [], ◌∷◌, length, IfOk, OnOk};
ghost use Rattle.sg_expand.specs.Bounded.{IsExpanderBounded};
ghost use Rattle.sg_lex.specs.Tokens.{tokens_of};
ghost use Rattle.sg_expand.specs.Lexed.{PlaceWithin, FaultIn};
ghost use Rattle.sg_expand.specs.Expansion.{lexed, first_line, behind_version, main_tokens, IsExpanded};
ghost use Rattle.sg_expand.specs.Places.{AreFilesPlaced};
ghost use Rattle.sg_expand.specs.Whole.{IsNewExpander, GivesTokens, BeginsText, DoesFrame, WorksFrames, RunsWhole};
ghost use Rattle.sg_outside.specs.World.{OnlyReads};

use crate::block::BlockDefinition;
use crate::directive::{begins_version, is_version};
use crate::fault::{ExpandRefusal, ExpandStop, Expanded, fault_at};
use crate::frame::{Context, ExpandFrame, RestTokens, empty_scope, push_frame};
use crate::total::Total;
use sg_block::{FileLine, NameMap, TokenSpan, Values};
use sg_device::{Name, NoMemory};
use sg_lex::{ConfigFault, ConfigKind, LexFault, TEXT_LIMIT, Token, line_at, tokens};
use sg_list::Seq;
use sg_outside::Files;
use std::alloc::Global;

#[derive(Drop)]
pub struct Expander {
    pub alloc: Global,
    /// What is to be done, the first last.
    pub frames: Vec<ExpandFrame>,
    pub variables: Values,
    pub blocks: NameMap<BlockDefinition>,
    /// How many blocks were defined.
    pub serial: u64,
    pub total: Total,
    /// The files read, in order.
    pub names: Seq<Name>,
    /// The tokens of the list, or of the value that is expanded.
    pub out: Seq<Token>,
}

fn fault_in(file: u32, text: &[u8], fault: LexFault) -> ExpandStop
    requires text { length text.now ≤ TEXT_LIMIT }
    requires place { PlaceWithin (length text.now) fault }
    ensures { FaultIn file text.now fault result }
{
    match fault {
        LexFault::OpenString(place) => ExpandStop::Fault(ConfigFault {
            kind: ConfigKind::OpenString,
            file,
            line: line_at(text, place),
        }),
        LexFault::BadByte(place) => ExpandStop::Fault(ConfigFault {
            kind: ConfigKind::BadByte,
            file,
            line: line_at(text, place),
        }),
        LexFault::NoMemory => ExpandStop::NoMemory,
    }
}

/// The tokens of a file.
pub fn lex(alloc: Global, file: u32, text: &[u8]) -> Result<TokenSpan, ExpandStop>
    requires { length text.now ≤ TEXT_LIMIT }
    ensures { GivesTokens (lexed file text.now (tokens_of file text.now)) result }
{
    match tokens(alloc, file, text) {
        Ok(found) => Ok(TokenSpan::new(alloc, found)?),
        Err(fault) => Err(fault_in(file, text, fault)),
    }
}

fn first_line(tokens: &TokenSpan) -> FileLine
    ensures { result ≡ first_line tokens.now }
{
    if tokens.is_empty() {
        FileLine { file: 0, line: 1 }
    } else {
        tokens.line(0)
    }
}

/// The tokens behind the version with which a main file begins.
fn behind_version(tokens: TokenSpan) -> Result<TokenSpan, ExpandStop>
    ensures { GivesTokens (behind_version tokens) result }
{
    if begins_version(&tokens) && is_version(tokens.text(2)) {
        return Ok(tokens.behind(3));
    }
    Err(ExpandStop::Fault(fault_at(ConfigKind::Version, first_line(&tokens))))
}

/// The tokens of a main file's text behind its version.
fn main_tokens(alloc: Global, text: &[u8]) -> Result<TokenSpan, ExpandStop>
    ensures { GivesTokens (main_tokens text.now) result }
{
    if text.len() > TEXT_LIMIT {
        return Err(ExpandStop::Fault(fault_at(ConfigKind::TooLong, FileLine { file: 0, line: 1 })));
    }
    match lex(alloc, 0, text) {
        Ok(found) => behind_version(found),
        Err(stop) => Err(stop),
    }
}

impl Expander {
    fn new(alloc: Global, name: Name) -> Result<Expander, NoMemory>
        ensures { IfOk result (λ expander. IsNewExpander name expander) }
    {
        let mut names = Seq::empty(alloc);
        names.push(name)?;
        Ok(Expander {
            alloc,
            frames: Vec::new(alloc),
            variables: Values::new(alloc),
            blocks: NameMap::new(alloc),
            serial: 0,
            total: Total::new(),
            names,
            out: Seq::empty(alloc),
        })
    }

    /// Does what is to be done until nothing is left.
    fn work<F: Files>(&mut self, files: &mut F) -> Result<(), ExpandStop>
        requires bounded { IsExpanderBounded self.old.frames.items self.old }
        ensures does { WorksFrames self.old (F.state files.old) self.new (F.state files.new)
            result }
        ensures reads { OnlyReads (F.state files.old) (F.state files.new) }
    {
        'steps: for _ in 0..u64::MAX {
            match self.frames.pop() {
                Some(frame) => self.do_frame(files, frame)?,
                None => return Ok(()),
            }
        }
        Err(ExpandStop::NoMemory)
    }

    /// Does what was to be done first. The tokens of the list and of the values that are expanded are
    /// together at most 1,048,576 before and after it.
    fn do_frame<F: Files>(&mut self, files: &mut F, frame: ExpandFrame) -> Result<(), ExpandStop>
        requires bounded { IsExpanderBounded (frame ∷ self.old.frames.items) self.old }
        ensures bounded { OnOk result (IsExpanderBounded self.new.frames.items self.new) }
        ensures does { DoesFrame frame self.old (F.state files.old) self.new (F.state files.new)
            result }
        ensures reads { OnlyReads (F.state files.old) (F.state files.new) }
    {
        match frame {
            ExpandFrame::Expands(rest) => self.step(files, rest),
            ExpandFrame::Binds(wait) => self.bind(wait),
        }
    }

    fn begin(&mut self, text: &[u8]) -> Result<(), ExpandStop>
        requires { self.old.frames.items ≡ [] }
        ensures { BeginsText text.now self.old self.new result }
    {
        let tokens = main_tokens(self.alloc, text)?;
        let context = Context {
            depth: 0,
            scope: empty_scope(self.alloc)?,
            limit: None,
        };
        let rest = RestTokens {
            context,
            fresh: true,
            tokens,
        };
        push_frame(&mut self.frames, ExpandFrame::Expands(rest))?;
        Ok(())
    }

    fn run<F: Files>(&mut self, files: &mut F, text: &[u8]) -> Result<(), ExpandStop>
        requires empty { self.old.frames.items ≡ [] }
        requires bounded { IsExpanderBounded [] self.old }
        ensures does { RunsWhole text.now self.old (F.state files.old) self.new (F.state files.new)
            result }
        ensures reads { OnlyReads (F.state files.old) (F.state files.new) }
    {
        self.begin(text)?;
        self.work(files)?;
        Ok(())
    }
}

/// Expands the main file of this name and text, and the files that it includes.
///
/// The tokens that come out, into the list or into a value, the values of variables, the definitions
/// of blocks, at each use, and the files that are included, with their names, have together at most
/// 1,048,576 bytes, one more counted for each. So the list and all values that are expanded have at
/// most as many tokens.
pub fn expand<F: Files>(
    alloc: Global,
    name: Name,
    main: &[u8],
    files: &mut F,
) -> Result<Expanded, ExpandRefusal>
    ensures exact { IsExpanded (F.state files.old) (F.state files.new) name main.now result }
    ensures place { AreFilesPlaced result }
    ensures reads { OnlyReads (F.state files.old) (F.state files.new) }
{
    let mut expander = match Expander::new(alloc, name) {
        Ok(expander) => expander,
        Err(_) => return Err(ExpandRefusal::NoMemory),
    };
    match expander.run(files, main) {
        Ok(()) => Ok(Expanded {
            tokens: expander.out,
            names: expander.names,
        }),
        Err(ExpandStop::Fault(fault)) => Err(ExpandRefusal::Bad {
            fault,
            names: expander.names,
        }),
        Err(ExpandStop::ReadFault(name)) => Err(ExpandRefusal::ReadFault(name)),
        Err(ExpandStop::NoMemory) => Err(ExpandRefusal::NoMemory),
    }
}
