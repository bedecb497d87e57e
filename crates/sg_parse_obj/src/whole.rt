// The statement at a place in a list of tokens.
ghost use Rattle.std.specs.Prelude.{◌≡◌, ◌<◌, ◌^◌, length, slice_get, Some, List, IfOk};
ghost use Rattle.sg_parse_base.specs.declared.spot.Spot.{Spot};
ghost use Rattle.sg_parse_obj.specs.declared.object.Object.{Object as Tree};
ghost use Rattle.sg_parse_obj.specs.Objects as spec;
ghost use Rattle.sg_parse_obj.specs.Answers.{AnswersObject, fault_of, IsObjectRefused};
ghost use Rattle.sg_parse_obj.specs.Grammar.{IsObject};

use crate::object::Object;
use crate::statements::object;
use sg_lex::{ConfigFault, Token};
use sg_parse_base::{Cursor, ParseFault, ParseStop};
use std::alloc::Global;

/// How deep statements, branches and groups may be nested.
pub const DEPTH_LIMIT: usize = 64;

/// Why a statement isn't read.
#[derive(Clone, Copy, Drop)]
pub enum ParseRefusal {
    Bad(ConfigFault),
    NoMemory,
}

/// The fault in a list that ends with this token: on its line where the list ends too early.
fn fault_of(fault: ParseFault, last: &Token) -> ConfigFault
    ensures { result ≡ fault_of fault last.now }
{
    match fault.at {
        Some(line) => ConfigFault {
            kind: fault.kind,
            file: line.file,
            line: line.line,
        },
        None => ConfigFault {
            kind: fault.kind,
            file: last.file,
            line: last.line,
        },
    }
}

fn token_at(tokens: &[Token], at: usize) -> &Token
    requires { at < length tokens.now }
    ensures { slice_get tokens.now at ≡ Some result.now }
{
    &tokens[at]
}

/// The statement other than a log statement that begins at that token, and the place behind it; else the
/// first token at which no statement goes on, with what is wrong there.
///
/// The kinds are `Unexpected`, which gives way to the others; `Unsupported` for a driver, an option, a
/// filter, a rewrite or a word in place of a value that isn't known, for `template-escape(yes)`,
/// an operator in place of a comparing word and a macro in the name of a destination's
/// file; `BadNumber` in place of a number or of yes or no; `DepthOver64` at the parenthesis that opens the
/// 65th group; `OpenBrace` and `Function` at a template.
pub fn statement(
    alloc: Global,
    tokens: &[Token],
    at: usize,
) -> Result<(Object, usize), ParseRefusal>
    requires place { at < length tokens.now }
    requires count { length tokens.now < 2 ^ 32 }
    // What is read is of the grammar, up to the place that is answered.
    ensures found { IfOk result (λ x. IsObject spec.depth_limit (spec.spots_at tokens.now at) x.0
        (spec.spots_at tokens.now x.1)) }
    // Where a fault is answered no statement stands there.
    ensures none { IsObjectRefused result → (tree : Tree) (rest : List Spot)
        → IsObject spec.depth_limit (spec.spots_at tokens.now at) tree rest → ⊥ }
    // The statement or the first fault.
    ensures exact { AnswersObject tokens.now (spec.object_at (spec.spots_at tokens.now at)) result }
{
    let mut cursor = Cursor::new(tokens, at);
    match object(alloc, &mut cursor, DEPTH_LIMIT) {
        Ok(found) => Ok((found, tokens.len() - cursor.left())),
        Err(ParseStop::Bad(fault)) => Err(ParseRefusal::Bad(fault_of(
            fault,
            token_at(tokens, tokens.len() - 1),
        ))),
        Err(ParseStop::NoMemory) => Err(ParseRefusal::NoMemory),
    }
}
