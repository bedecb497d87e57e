// Blocks.
use sg_block::{Arguments, TokenSpan};

/// A block: how many were defined before it, its parameters, of which those without tokens must be
/// given, and the parameters and the body as they are written.
#[derive(Drop)]
pub struct BlockDefinition {
    pub serial: u64,
    pub parameters: Arguments,
    pub written: TokenSpan,
    pub body: TokenSpan,
}
