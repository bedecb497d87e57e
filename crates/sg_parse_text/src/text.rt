// All statements of a configuration.
ghost use Rattle.std.specs.Prelude.{◌≡◌, ◌<◌, ◌^◌, List, length, IfOk};
ghost use Rattle.sg_parse_obj.specs.Objects.{spots_at};
ghost use Rattle.sg_parse_base.specs.Input.{symbol};
ghost use Rattle.sg_parse_text.specs.declared.statement.Statement.{Statement as Parsed};
ghost use Rattle.sg_parse_text.specs.Texts.{statement_at, ended_at, text_at};
ghost use Rattle.sg_parse_text.specs.Answers.{Answers, AnswersPlace, AnswersAll, IsRefused};
ghost use Rattle.sg_parse_text.specs.Grammar.{IsConfigText};

use crate::place::{is_end, sees_keyword, sees_symbol, unexpected};
use crate::statement::Statement;
use sg_lex::Token;
use sg_parse_obj::{ParseRefusal, statement};
use sg_parse_path::log_statement;
use sqlite_items::Items;
use std::alloc::Global;

/// The statement at a place, and the place behind it.
fn read_statement(
    alloc: Global,
    tokens: &[Token],
    at: usize,
) -> Result<(Statement, usize), ParseRefusal>
    requires place { at < length tokens.now }
    requires count { length tokens.now < 2 ^ 32 }
    ensures { Answers tokens.now (statement_at (spots_at tokens.now at)) result }
{
    if sees_keyword(tokens, at, b"log") {
        match log_statement(alloc, tokens, at) {
            Ok((log, next)) => Ok((Statement::Log(log), next)),
            Err(refusal) => Err(refusal),
        }
    } else {
        match statement(alloc, tokens, at) {
            Ok((object, next)) => Ok((Statement::Object(object), next)),
            Err(refusal) => Err(refusal),
        }
    }
}

/// The place behind the semicolon at a place.
fn behind_semicolon(tokens: &[Token], at: usize) -> Result<usize, ParseRefusal>
    requires some { 0 < length tokens.now }
    requires count { length tokens.now < 2 ^ 32 }
    ensures { AnswersPlace tokens.now (symbol 59 (spots_at tokens.now at)) result }
{
    if sees_symbol(tokens, at, b';') {
        return Ok(at + 1);
    }
    Err(ParseRefusal::Bad(unexpected(tokens, at)))
}

/// The statement at a place with its semicolon, and the place behind them.
#[tactic(auto, unfolding(crate::specs::Texts::ended_at))]
fn read_ended(
    alloc: Global,
    tokens: &[Token],
    at: usize,
) -> Result<(Statement, usize), ParseRefusal>
    requires place { at < length tokens.now }
    requires count { length tokens.now < 2 ^ 32 }
    ensures { Answers tokens.now (ended_at (spots_at tokens.now at)) result }
{
    match read_statement(alloc, tokens, at) {
        Ok((statement, next)) => match behind_semicolon(tokens, next) {
            Ok(behind) => Ok((statement, behind)),
            Err(refusal) => Err(refusal),
        },
        Err(refusal) => Err(refusal),
    }
}

/// All statements of a configuration, each with a semicolon behind it and more semicolons anywhere, or the
/// first token at which no statement goes on, with what is wrong there.
///
/// The kinds are those of `sg_parse_obj::statement` and `sg_parse_path::log_statement`. `Unexpected` stands on
/// the line of the last token where one more had to follow.
pub fn statements(alloc: Global, tokens: &[Token]) -> Result<Items<Statement>, ParseRefusal>
    requires { length tokens.now < 2 ^ 32 }
    // What is read is of the grammar.
    ensures found { IfOk result (λ found. IsConfigText (spots_at tokens.now 0) found) }
    // Where a fault is answered the tokens are no configuration.
    ensures none { IsRefused result → (found : List Parsed)
        → IsConfigText (spots_at tokens.now 0) found
        → ⊥ }
    // The statements or the first fault.
    ensures exact { AnswersAll tokens.now (text_at (spots_at tokens.now 0)) result }
{
    let mut found = Items::new(alloc);
    let mut at = 0;
    for _turn in 0..tokens.len() {
        if is_end(tokens, at) {
            return Ok(found);
        }
        if sees_symbol(tokens, at, b';') {
            at += 1;
            continue;
        }
        match read_ended(alloc, tokens, at) {
            Ok((statement, next)) => {
                let Ok(()) = found.push(statement) else {
                    return Err(ParseRefusal::NoMemory);
                };
                at = next;
            }
            Err(refusal) => return Err(refusal),
        }
    }
    if is_end(tokens, at) {
        return Ok(found);
    }
    Err(ParseRefusal::Bad(unexpected(tokens, at)))
}
