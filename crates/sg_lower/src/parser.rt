// Parsers.
ghost use Rattle.std.specs.Prelude.{◌≡◌, ◌∷◌, [], IfOk, slice_index_or};
ghost use Rattle.sg_options.specs.Settings.{calls_of, last_value};
ghost use Rattle.sg_options.specs.Values.{text_or};
ghost use Rattle.sg_lower.specs.Parsers.{columns_in, csv_by, kv_by, parser_by, rule_by};

use crate::rewrite::texts_in;
use crate::value::template_of;
use sg_device::{Name, NoMemory};
use sg_options::{args_of, has_flag, is_called, last_argument, last_argument_value, text_or};
use sg_parse_expr::{Arg, Call};
use sg_parsers::{Csv, Kv, MessageParser, ParserRule};
use std::alloc::Global;

// The names in the last `columns`.
fn columns_in(alloc: Global, args: &[Arg]) -> Result<Vec<Name>, NoMemory>
    ensures { IfOk result (λ columns. columns.items ≡ columns_in args.now) }
{
    match last_argument(&[b"columns"], args) {
        Some(call) => texts_in(alloc, args_of(call)),
        None => Ok(Vec::new(alloc)),
    }
}

// The value of the last option of this word, or the default.
fn option_text<'a>(word: &[u8], args: &'a [Arg], default: &'a [u8]) -> &'a [u8]
    ensures { result.now ≡ text_or (last_value (word.now ∷ []) (calls_of args.now)) default.now }
{
    text_or(last_argument_value(&[word], args), default)
}

fn lower_csv(alloc: Global, args: &[Arg]) -> Result<Option<MessageParser>, NoMemory>
    ensures { IfOk result (λ parser. parser ≡ csv_by args.now) }
{
    let columns = columns_in(alloc, args)?;
    let prefix = option_text(b"prefix", args, b"");
    let delimiters = option_text(b"delimiters", args, b"");
    let flags = last_argument(&[b"flags"], args);
    let greedy = has_flag(b"greedy", flags);
    let drop_invalid = has_flag(b"drop-invalid", flags);
    match Csv::new(alloc, prefix, &columns, delimiters, greedy, drop_invalid)? {
        Some(csv) => Ok(Some(MessageParser::Csv(csv))),
        None => Ok(None),
    }
}

fn first_or(text: &[u8], default: u8) -> u8
    ensures { result ≡ slice_index_or text.now 0 default }
{
    match text.first() {
        Some(first) => *first,
        None => default,
    }
}

fn lower_kv(alloc: Global, args: &[Arg]) -> Result<MessageParser, NoMemory>
    ensures { IfOk result (λ parser. parser ≡ kv_by args.now) }
{
    Ok(MessageParser::Kv(Kv {
        prefix: Name::new(alloc, option_text(b"prefix", args, b""))?,
        pair_separator: Name::new(alloc, option_text(b"pair-separator", args, b", "))?,
        value_separator: first_or(option_text(b"value-separator", args, b"="), b'='),
    }))
}

fn lower_kind(alloc: Global, call: &Call) -> Result<Option<MessageParser>, NoMemory>
    ensures { IfOk result (λ parser. parser ≡ parser_by call.now) }
{
    if is_called(&[b"csv-parser"], call) {
        return lower_csv(alloc, args_of(call));
    }
    let parser = lower_kv(alloc, args_of(call))?;
    Ok(Some(parser))
}

/// The parser that a call stands for: none where the name of a column is none that a pair may have.
#[tactic(auto, unfolding(crate::specs::Parsers::rule_by))]
pub fn lower_parser(alloc: Global, call: &Call) -> Result<Option<ParserRule>, NoMemory>
    ensures { IfOk result (λ rule. rule ≡ rule_by call.now) }
{
    let text = template_of(alloc, option_text(b"template", args_of(call), b"$MESSAGE"))?;
    match lower_kind(alloc, call)? {
        Some(parser) => Ok(Some(ParserRule { text, parser })),
        None => Ok(None),
    }
}
