// The log statement at a place in a list of tokens.
ghost use Rattle.std.specs.Prelude.{◌≡◌, ◌<◌, ◌^◌, length, slice_get, Some, List, IfOk};
ghost use Rattle.sg_parse_base.specs.declared.spot.Spot.{Spot};
ghost use Rattle.sg_parse_obj.specs.Objects.{depth_limit, spots_at};
ghost use Rattle.sg_parse_obj.specs.Answers.{fault_of};
ghost use Rattle.sg_parse_path.specs.declared.tree.RawLog.{RawLog as Tree};
ghost use Rattle.sg_parse_path.specs.Paths.{log_in};
ghost use Rattle.sg_parse_path.specs.Answers.{AnswersLog, IsLogRefused};
ghost use Rattle.sg_parse_path.specs.Grammar.{IsLog};

use crate::path::log;
use crate::tree::RawLog;
use sg_lex::{ConfigFault, Token};
use sg_parse_base::{Cursor, ParseFault, ParseStop};
use sg_parse_obj::{DEPTH_LIMIT, ParseRefusal};
use std::alloc::Global;

/// The fault in a list that ends with this token: on its line where the list ends too early.
fn fault_of(fault: ParseFault, last: &Token) -> ConfigFault
    ensures { result ≡ fault_of fault last.now }
{
    match fault.at {
        Some(line) => ConfigFault {
            kind: fault.kind,
            file: line.file,
            line: line.line,
        },
        None => ConfigFault {
            kind: fault.kind,
            file: last.file,
            line: last.line,
        },
    }
}

fn token_at(tokens: &[Token], at: usize) -> &Token
    requires { at < length tokens.now }
    ensures { slice_get tokens.now at ≡ Some result.now }
{
    &tokens[at]
}

/// The log statement that begins at that token, and the place behind it; else the first token at which
/// no log statement goes on, with what is wrong there (syslog-ng's administration guide, "Log paths").
///
/// Elements stand first, then embedded log statements, then flags. The kinds are those of
/// `sg_parse_obj::statement`; further `Unsupported` at an `if` or `elif` with a brace behind it and at a
/// flag that isn't known, and `DepthOver64` at the brace or the parenthesis that opens the 65th level: each
/// statement, channel and branch is one, and each group of an expression.
pub fn log_statement(
    alloc: Global,
    tokens: &[Token],
    at: usize,
) -> Result<(RawLog, usize), ParseRefusal>
    requires place { at < length tokens.now }
    requires count { length tokens.now < 2 ^ 32 }
    // What is read is of the grammar, up to the place that is answered.
    ensures found { IfOk result
        (λ x. IsLog depth_limit (spots_at tokens.now at) x.0 (spots_at tokens.now x.1)) }
    // Where a fault is answered no log statement stands there.
    ensures none { IsLogRefused result → (tree : Tree) (rest : List Spot)
        → IsLog depth_limit (spots_at tokens.now at) tree rest → ⊥ }
    // The log statement or the first fault.
    ensures exact { AnswersLog tokens.now (log_in depth_limit (spots_at tokens.now at)) result }
{
    let mut cursor = Cursor::new(tokens, at);
    match log(alloc, &mut cursor, DEPTH_LIMIT) {
        Ok(found) => Ok((found, tokens.len() - cursor.left())),
        Err(ParseStop::Bad(fault)) => Err(ParseRefusal::Bad(fault_of(
            fault,
            token_at(tokens, tokens.len() - 1),
        ))),
        Err(ParseStop::NoMemory) => Err(ParseRefusal::NoMemory),
    }
}
