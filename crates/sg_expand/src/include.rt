// Included files.
ghost use Rattle.std.specs.Prelude.{◌≡◌, ◌<◌, ◌≤◌, length, drop, OnOk};
ghost use Rattle.sg_outside.specs.World.{OnlyReads};
ghost use Rattle.sg_block.specs.Tokens.{line_at};
ghost use Rattle.sg_expand.specs.Expansion.{include_read, named_file};
ghost use Rattle.sg_expand.specs.Machine.{DoesStep, TakesFile, NamesFile, ChecksName, state_of};

use crate::directive::names_no_file;
use crate::expander::{Expander, lex};
use crate::fault::{ExpandStop, fault_at};
use crate::frame::{Context, RestTokens, empty_scope};
use sg_block::{FileLine, Replaced, replace};
use sg_device::{FileRefusal, Name};
use sg_lex::ConfigKind;
use sg_outside::Files;

/// How many files one inside the other may include at most.
const DEPTH_LIMIT: u32 = 15;
/// How many files are read at most, the main file included.
const FILE_LIMIT: usize = 65_536;

impl Expander {
    /// The name of the file that an `@include` asks for, which is counted.
    fn file_name(&mut self, rest: &RestTokens) -> Result<Name, ExpandStop>
        requires { 1 < length rest.now.tokens }
        ensures depth { OnOk result (rest.now.context.depth < 15) }
        ensures names { OnOk result (length self.new.names < 65536) }
        ensures value { NamesFile (include_read rest.now.context rest.now.tokens
            (state_of self.old))
            (line_at rest.now.tokens 0) (drop 2 rest.now.tokens) self.old self.new result }
    {
        let line = rest.tokens.line(0);
        if rest.context.depth >= DEPTH_LIMIT {
            return Err(ExpandStop::Fault(fault_at(ConfigKind::IncludeDepth, line)));
        }
        let scope = rest.context.scope.value();
        match replace(
            self.alloc,
            scope,
            &self.variables,
            rest.tokens.text(1),
            self.total.room(),
        )? {
            Replaced::Unknown => Err(ExpandStop::Fault(fault_at(
                ConfigKind::UnknownVariable,
                rest.tokens.line(1),
            ))),
            Replaced::TooLong => Err(ExpandStop::Fault(fault_at(ConfigKind::TooLong, line))),
            Replaced::Text(name) => {
                self.total.charge(name.bytes().len() as u64 + 1, line)?;
                self.check_name(&name, line)?;
                Ok(name)
            }
        }
    }

    fn check_name(&self, name: &Name, line: FileLine) -> Result<(), ExpandStop>
        ensures names { OnOk result (length self.now.names < 65536) }
        ensures value { ChecksName self.now.names name.now line result }
    {
        if self.names.len() >= FILE_LIMIT {
            return Err(ExpandStop::Fault(fault_at(ConfigKind::TooLong, line)));
        }
        if names_no_file(name.bytes()) {
            return Err(ExpandStop::Fault(fault_at(ConfigKind::Unsupported, line)));
        }
        Ok(())
    }

    /// Expands the file that an `@include` names, and what stands behind it later.
    pub fn include<F: Files>(&mut self, files: &mut F, rest: RestTokens) -> Result<(), ExpandStop>
        requires { 1 < length rest.tokens }
        ensures does { DoesStep (include_read rest.context rest.tokens (state_of self.old))
            rest.context rest.fresh
            self.old (F.state files.old) self.new (F.state files.new) result }
        ensures reads { OnlyReads (F.state files.old) (F.state files.new) }
    {
        let name = self.file_name(&rest)?;
        let line = rest.tokens.line(0);
        let text = match files.read(self.alloc, name.bytes()) {
            Ok(text) => text,
            Err(FileRefusal::Failed) => return Err(ExpandStop::ReadFault(name)),
            Err(FileRefusal::TooLong) => return Err(ExpandStop::Fault(fault_at(
                ConfigKind::TooLong,
                line,
            ))),
            Err(FileRefusal::NoMemory) => return Err(ExpandStop::NoMemory),
        };
        self.take_file(rest, name, line, &text)?;
        Ok(())
    }

    fn take_file(
        &mut self,
        rest: RestTokens,
        name: Name,
        line: FileLine,
        text: &[u8],
    ) -> Result<(), ExpandStop>
        requires tokens { 1 < length rest.tokens }
        requires depth { rest.context.depth < 15 }
        requires names { length self.old.names < 65536 }
        requires text { length text.now ≤ 1048576 }
        ensures { TakesFile rest.context rest.fresh line name (drop 2 rest.tokens) text.now self.old
            self.new result }
    {
        let number = self.names.len() as u32;
        self.names.push(name)?;
        self.total.charge(text.len() as u64 + 1, line)?;
        let found = lex(self.alloc, number, text)?;
        let context = Context {
            depth: rest.context.depth + 1,
            scope: empty_scope(self.alloc)?,
            limit: None,
        };
        self.go_on(rest.context, rest.fresh, rest.tokens.behind(2))?;
        self.go_on(context, true, found)?;
        Ok(())
    }
}
