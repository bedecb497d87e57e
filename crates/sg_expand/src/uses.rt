// Uses of blocks.
ghost use Rattle.std.specs.Prelude.{◌≡◌, ◌+◌, ◌^◌, ◌<◌, ◌≤◌, [], ◌∷◌, true, length, OnOk};
ghost use Rattle.std.specs.FinMap as map;
ghost use Rattle.sg_block.specs.Trimmed.{trimmed};
ghost use Rattle.sg_block.specs.Tokens.{size_of, line_at};
ghost use Rattle.sg_expand.specs.Total.{IsSize};
ghost use Rattle.sg_expand.specs.Expansion.{is_in_reach, word_or_use, body_context};
ghost use Rattle.sg_expand.specs.Machine.{IsAsked, FindsUse, BeginsUse, DoesAsked, DoesBind, CallsBlock, PushesFrames, tokens_frame, state_of};

use crate::block::BlockDefinition;
use crate::expander::Expander;
use crate::fault::{ExpandStop, fault_at};
use crate::frame::{BlockCall, Context, ExpandFrame, RestTokens, Scope, WaitingUse, push_frame};
use crate::total::TOTAL_LIMIT;
use sg_block::{Arguments, TokenSpan, Values, token_size, use_form};
use sg_device::NoMemory;
use sg_lex::{ConfigKind, Token};
use sg_list::Seq;
use std::alloc::Global;

/// A size with those of the tokens, as far as these are within the limit.
fn with_sizes(size: u64, tokens: &TokenSpan) -> u64
    requires { size ≤ 1048576 + 2 ^ 63 }
    ensures value { IsSize (size + size_of tokens.now) result }
    ensures bound { result ≤ 1048576 + 2 ^ 63 }
{
    let mut whole = size;
    for place in 0..tokens.len() {
        if whole > TOTAL_LIMIT {
            return whole;
        }
        whole += token_size(tokens.at(place));
    }
    whole
}

fn is_in_reach(limit: Option<u64>, block: &BlockDefinition) -> bool
    ensures { result ≡ is_in_reach limit block.now }
{
    match limit {
        Some(limit) => block.serial < limit,
        None => true,
    }
}

/// What a use of a block asks for.
#[derive(Drop)]
struct BlockUse {
    size: u64,
    serial: u64,
    body: TokenSpan,
    left: Arguments,
}

fn ask(
    alloc: Global,
    tokens: &TokenSpan,
    block: &BlockDefinition,
    given: Arguments,
) -> Result<BlockUse, ExpandStop>
    requires { 0 < length tokens.now }
    ensures { IsAsked tokens.now block.now given result }
{
    if block.parameters.is_missing(alloc, &given)? {
        return Err(ExpandStop::Fault(fault_at(ConfigKind::MissingArgument, tokens.line(0))));
    }
    if block.parameters.is_unknown(alloc, &given)? {
        return Err(ExpandStop::Fault(fault_at(ConfigKind::UnknownArgument, tokens.line(0))));
    }
    Ok(BlockUse {
        size: with_sizes(
            with_sizes(token_size(tokens.at(0)), &block.written),
            &block.body,
        ),
        serial: block.serial,
        body: block.body.share()?,
        left: block.parameters.bindings(alloc, given)?,
    })
}

impl Expander {
    /// What the use at the front asks for, and the tokens behind it: none where none stands there.
    fn find_use(&self, rest: &RestTokens) -> Result<Option<(BlockUse, TokenSpan)>, ExpandStop>
        requires { 0 < length rest.now.tokens }
        ensures { FindsUse rest.now.context rest.now.fresh rest.now.tokens (state_of self.now)
            result }
    {
        if !rest.fresh || !rest.tokens.is_word_at(0) {
            return Ok(None);
        }
        let Some(block) = self.blocks.get(rest.tokens.text(0)) else {
            return Ok(None);
        };
        if !is_in_reach(rest.context.limit, block) {
            return Ok(None);
        }
        match use_form(self.alloc, &rest.tokens)? {
            Some((given, behind)) => Ok(Some((
                ask(self.alloc, &rest.tokens, block, given)?,
                behind,
            ))),
            None => Ok(None),
        }
    }

    /// Begins the use at the front, or puts out the token.
    pub fn use_or_emit(&mut self, rest: RestTokens) -> Result<(), ExpandStop>
        requires { 0 < length rest.tokens }
        ensures { DoesAsked (word_or_use rest.context rest.fresh rest.tokens (state_of self.old))
            rest.context self.old self.new result }
    {
        match self.find_use(&rest)? {
            Some((asked, behind)) => self.begin_use(rest, asked, behind),
            None => self.emit(rest),
        }
    }

    fn begin_use(
        &mut self,
        rest: RestTokens,
        asked: BlockUse,
        behind: TokenSpan,
    ) -> Result<(), ExpandStop>
        requires { 0 < length rest.tokens }
        ensures { BeginsUse rest.context (line_at rest.tokens 0) asked behind self.old self.new
            result }
    {
        let line = rest.tokens.line(0);
        self.total.charge(asked.size, line)?;
        let call = BlockCall {
            context: rest.context.share()?,
            serial: asked.serial,
            body: asked.body,
            left: asked.left,
            bound: Values::new(self.alloc),
        };
        self.go_on(rest.context, false, behind)?;
        self.bind_next(call)
    }

    /// Expands the next argument of a use, or its body where none is left.
    fn bind_next(&mut self, mut call: BlockCall) -> Result<(), ExpandStop>
        ensures { CallsBlock call self.old self.new result }
    {
        match call.left.pop() {
            Some(argument) => {
                let context = call.context.share()?;
                let out = self.new_value();
                let wait = WaitingUse {
                    call,
                    name: argument.name,
                    out,
                };
                push_frame(&mut self.frames, ExpandFrame::Binds(wait))?;
                self.go_on(context, false, argument.tokens)
            }
            None => self.expand_body(call),
        }
    }

    /// Begins a value, and gives what came out before it.
    fn new_value(&mut self) -> Seq<Token>
        ensures before { result ≡ self.old.out }
        ensures value { self.new ≡ record self.old { out = [] } }
    {
        std::mem::replace(&mut self.out, Seq::empty(self.alloc))
    }

    fn expand_body(&mut self, call: BlockCall) -> Result<(), ExpandStop>
        ensures { PushesFrames (tokens_frame (body_context call.context call.bound call.serial) true
            (trimmed call.body) ∷ [])
            self.old self.new result }
    {
        let context = Context {
            depth: call.context.depth,
            scope: Scope::new(self.alloc, call.bound)?,
            limit: Some(call.serial),
        };
        self.go_on(context, true, call.body.trimmed())
    }

    /// Binds the value that is whole now.
    pub fn bind(&mut self, wait: WaitingUse) -> Result<(), ExpandStop>
        ensures { DoesBind wait self.old self.new result }
    {
        let value = std::mem::replace(&mut self.out, wait.out);
        let mut call = wait.call;
        insert_value(&mut call.bound, wait.name.into_vec(), value)?;
        self.bind_next(call)
    }
}

fn insert_value(bound: &mut Values, name: Vec<u8>, tokens: Seq<Token>) -> Result<(), NoMemory>
    ensures { OnOk result (bound.new ≡ map.insert bound.old name.items tokens) }
{
    bound.insert(name, tokens)?;
    Ok(())
}
