// What is still to be done.
ghost use Rattle.std.specs.Prelude.{◌≡◌, [], ◌∷◌, ◌++◌, IfOk, OnOk};
ghost use Rattle.std.specs.FinMap as map;

use sg_block::{Arguments, Shared, TokenSpan, Values};
use sg_device::{Name, NoMemory};
use sg_lex::Token;
use sg_list::Seq;
use std::alloc::Global;

/// The arguments in reach, which the tokens of a body share.
pub type Scope = Shared<Values>;

/// No arguments.
pub fn empty_scope(alloc: Global) -> Result<Scope, NoMemory>
    ensures { IfOk result (λ scope. scope ≡ map.empty) }
{
    Scope::new(alloc, Values::new(alloc))
}

/// Where tokens stand.
#[derive(Drop)]
pub struct Context {
    /// How deep their file is included.
    pub depth: u32,
    /// The arguments in reach.
    pub scope: Scope,
    /// Only the blocks before this one may be used, where it is one.
    pub limit: Option<u64>,
}

impl Context {
    pub fn share(&self) -> Result<Context, NoMemory>
        ensures { IfOk result (λ context. context ≡ self.now) }
    {
        Ok(Context {
            depth: self.depth,
            scope: self.scope.share()?,
            limit: self.limit,
        })
    }
}

/// Tokens that are still to be expanded.
#[derive(Drop)]
pub struct RestTokens {
    pub context: Context,
    /// Whether a use may stand at the front.
    pub fresh: bool,
    pub tokens: TokenSpan,
}

/// A use whose arguments are being bound.
#[derive(Drop)]
pub struct BlockCall {
    /// Where the use stands.
    pub context: Context,
    /// The block's number, and its body.
    pub serial: u64,
    pub body: TokenSpan,
    /// The arguments that are left.
    pub left: Arguments,
    pub bound: Values,
}

/// A use that waits for a value.
#[derive(Drop)]
pub struct WaitingUse {
    pub call: BlockCall,
    /// The name to which the value is bound.
    pub name: Name,
    /// What came out before the value began.
    pub out: Seq<Token>,
}

#[derive(Drop)]
pub enum ExpandFrame {
    Expands(RestTokens),
    Binds(WaitingUse),
}

/// Puts what is to be done first at the end.
pub fn push_frame(frames: &mut Vec<ExpandFrame>, frame: ExpandFrame) -> Result<(), NoMemory>
    ensures { OnOk result (frames.new.items ≡ frames.old.items ++ frame ∷ []) }
{
    frames.push(frame)?;
    Ok(())
}
