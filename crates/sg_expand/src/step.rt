// One step of an expansion.
ghost use Rattle.std.specs.Prelude.{◌≡◌, ◌<◌, true, [], ◌∷◌, length, slice_get, IfOk, OnOk};
ghost use Rattle.std.specs.Option.{option_map};
ghost use Rattle.std.specs.FinMap as map;
ghost use Rattle.sg_outside.specs.World.{OnlyReads};
ghost use Rattle.sg_list.specs.Lists.{passes_at};
ghost use Rattle.sg_block.specs.Tokens.{is_front, is_tick, is_string, text_at, line_at};
ghost use Rattle.sg_block.specs.Values.{reached, IsReplaced};
ghost use Rattle.sg_expand.specs.Expansion.{Moves, retold, front, step, version_read, define_read, text_of, text_in, plain, with_block, with_variable};
ghost use Rattle.sg_expand.specs.Machine.{DoesAsked, DoesStep, PushesFrames, tokens_frame, state_of, EmitsToken};

use crate::block::BlockDefinition;
use crate::directive::{begins_define, begins_ignored, begins_include, begins_version, is_version};
use crate::expander::Expander;
use crate::fault::{ExpandStop, fault_at};
use crate::frame::{Context, ExpandFrame, RestTokens, push_frame};
use crate::total::{put, put_all};
use sg_block::{
    Definition, Replaced, TokenSpan, find, is_front, is_tick, read_definition, replace,
};
use sg_device::{Name, NoMemory};
use sg_lex::{ConfigKind, Token};
use sg_list::Seq;
use sg_outside::Files;

/// The token at a place, of another text.
fn retold(tokens: &TokenSpan, place: usize, text: Name) -> Token
    requires { place < length tokens.now }
    ensures { retold (slice_get tokens.now place) text ≡ result ∷ [] }
{
    let token = tokens.at(place);
    Token {
        kind: token.kind,
        file: token.file,
        line: token.line,
        column: token.column,
        text,
    }
}

fn is_front_at(tokens: &TokenSpan, place: usize) -> bool
    ensures { result ≡ passes_at tokens.now place is_front }
{
    match tokens.get(place) {
        Some(token) => is_front(token),
        None => false,
    }
}

fn is_tick_at(tokens: &TokenSpan, place: usize) -> bool
    ensures { result ≡ passes_at tokens.now place is_tick }
{
    match tokens.get(place) {
        Some(token) => is_tick(token),
        None => false,
    }
}

impl Expander {
    /// Does what the front of these tokens asks for.
    pub fn step<F: Files>(&mut self, files: &mut F, rest: RestTokens) -> Result<(), ExpandStop>
        ensures does { DoesStep (step rest.context rest.fresh rest.tokens (state_of self.old))
            rest.context rest.fresh
            self.old (F.state files.old) self.new (F.state files.new) result }
        ensures reads { OnlyReads (F.state files.old) (F.state files.new) }
    {
        if begins_include(&rest.tokens) {
            return self.include(files, rest);
        }
        self.step_without_files(rest)
    }

    fn step_without_files(&mut self, rest: RestTokens) -> Result<(), ExpandStop>
        ensures { DoesAsked (front rest.context rest.fresh rest.tokens (state_of self.old))
            rest.context self.old self.new result }
    {
        if rest.tokens.is_empty() {
            return Ok(());
        }
        if begins_version(&rest.tokens) {
            return self.read_version(rest);
        }
        if begins_define(&rest.tokens) {
            return self.define(rest);
        }
        if begins_ignored(&rest.tokens) {
            return self.go_on(rest.context, rest.fresh, rest.tokens.behind(2));
        }
        match read_definition(self.alloc, &rest.tokens)? {
            Some(defined) => self.define_block(rest.context, defined),
            None => self.use_or_emit(rest),
        }
    }

    /// Leaves these tokens to be expanded next.
    pub fn go_on(
        &mut self,
        context: Context,
        fresh: bool,
        tokens: TokenSpan,
    ) -> Result<(), ExpandStop>
        ensures { PushesFrames (tokens_frame context fresh tokens ∷ []) self.old self.new result }
    {
        let rest = RestTokens {
            context,
            fresh,
            tokens,
        };
        push_frame(&mut self.frames, ExpandFrame::Expands(rest))?;
        Ok(())
    }

    fn read_version(&mut self, rest: RestTokens) -> Result<(), ExpandStop>
        requires { 2 < length rest.tokens }
        ensures { DoesAsked (version_read rest.fresh rest.tokens (state_of self.old)) rest.context
            self.old self.new result }
    {
        let word = rest.tokens.text(2);
        if is_version(word) || word == b"current".as_slice() {
            return self.go_on(rest.context, rest.fresh, rest.tokens.behind(3));
        }
        Err(ExpandStop::Fault(fault_at(ConfigKind::Version, rest.tokens.line(0))))
    }

    /// The text of a token, in which variables are replaced where it is a string.
    pub fn text_of(
        &self,
        context: &Context,
        tokens: &TokenSpan,
        place: usize,
        room: u64,
    ) -> Result<Replaced, NoMemory>
        requires { place < length tokens.now }
        ensures { IfOk result
            (IsReplaced room (text_in context.now.scope self.now.variables tokens.now place)) }
    {
        let text = tokens.text(place);
        if tokens.is_string_at(place) {
            return replace(
                self.alloc,
                context.scope.value(),
                &self.variables,
                text,
                room,
            );
        }
        if text.len() as u64 > room {
            return Ok(Replaced::TooLong);
        }
        Ok(Replaced::Text(Name::new(self.alloc, text)?))
    }

    fn define(&mut self, rest: RestTokens) -> Result<(), ExpandStop>
        requires { 2 < length rest.tokens }
        ensures { DoesAsked
            (define_read rest.fresh rest.tokens (state_of self.old)
            (text_of rest.context (state_of self.old) rest.tokens 2))
            rest.context self.old self.new result }
    {
        let line = rest.tokens.line(0);
        match self.text_of(&rest.context, &rest.tokens, 2, self.total.room())? {
            Replaced::Unknown => Err(ExpandStop::Fault(fault_at(
                ConfigKind::UnknownVariable,
                rest.tokens.line(2),
            ))),
            Replaced::TooLong => Err(ExpandStop::Fault(fault_at(ConfigKind::TooLong, line))),
            Replaced::Text(text) => {
                self.total.charge(text.bytes().len() as u64 + 1, line)?;
                self.set_variable(&rest.tokens, text)?;
                self.go_on(rest.context, rest.fresh, rest.tokens.behind(3))
            }
        }
    }

    fn set_variable(&mut self, tokens: &TokenSpan, text: Name) -> Result<(), NoMemory>
        requires { 2 < length tokens.now }
        ensures { OnOk result (self.new ≡ record self.old {
          variables = map.insert self.old.variables (text_at tokens.now 1)
              (retold (slice_get tokens.now 2) text);
        }) }
    {
        let name = tokens.text(1).to_vec(self.alloc)?;
        let mut value = Seq::empty(self.alloc);
        value.push(retold(tokens, 2, text))?;
        self.variables.insert(name, value)?;
        Ok(())
    }

    fn define_block(&mut self, context: Context, defined: Definition) -> Result<(), ExpandStop>
        ensures { DoesAsked (Moves true defined.behind (with_block defined (state_of self.old)))
            context self.old self.new result }
    {
        let block = BlockDefinition {
            serial: self.serial,
            parameters: defined.parameters,
            written: defined.written,
            body: defined.body,
        };
        self.blocks.insert(defined.name.into_vec(), block)?;
        self.serial = self.serial.saturating_add(1);
        self.go_on(context, true, defined.behind)
    }

    /// Puts out the token at the front, with variables replaced.
    pub fn emit(&mut self, rest: RestTokens) -> Result<(), ExpandStop>
        requires { 0 < length rest.tokens }
        ensures { DoesAsked (plain rest.context rest.tokens (state_of self.old)) rest.context
            self.old self.new result }
    {
        if is_tick_at(&rest.tokens, 0) {
            self.emit_variable(&rest)?;
            return self.go_on(rest.context, false, rest.tokens.behind(1));
        }
        self.emit_text(&rest)?;
        let fresh = is_front_at(&rest.tokens, 0);
        self.go_on(rest.context, fresh, rest.tokens.behind(1))
    }

    fn emit_variable(&mut self, rest: &RestTokens) -> Result<(), ExpandStop>
        requires { 0 < length rest.now.tokens }
        ensures { EmitsToken (reached rest.now.context.scope self.old.variables
            (text_at rest.now.tokens 0))
            (line_at rest.now.tokens 0) self.old self.new result }
    {
        match find(
            rest.context.scope.value(),
            &self.variables,
            rest.tokens.text(0),
        ) {
            Some(value) => put_all(&mut self.out, &mut self.total, value.as_slice()),
            None => Err(ExpandStop::Fault(fault_at(
                ConfigKind::UnknownVariable,
                rest.tokens.line(0),
            ))),
        }
    }

    fn emit_text(&mut self, rest: &RestTokens) -> Result<(), ExpandStop>
        requires { 0 < length rest.now.tokens }
        ensures { EmitsToken
            (option_map (retold (slice_get rest.now.tokens 0))
            (text_in rest.now.context.scope self.old.variables rest.now.tokens 0))
            (line_at rest.now.tokens 0) self.old self.new result }
    {
        let line = rest.tokens.line(0);
        match self.text_of(&rest.context, &rest.tokens, 0, self.total.room())? {
            Replaced::Unknown => Err(ExpandStop::Fault(fault_at(
                ConfigKind::UnknownVariable,
                line,
            ))),
            Replaced::TooLong => Err(ExpandStop::Fault(fault_at(ConfigKind::TooLong, line))),
            Replaced::Text(text) => put(
                &mut self.out,
                &mut self.total,
                retold(&rest.tokens, 0, text),
            ),
        }
    }
}
