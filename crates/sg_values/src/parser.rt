// Parsers.
ghost use Rattle.std.specs.Prelude.{◌≡◌, ◌==◌, ◌+◌, ◌++◌, ◌∷◌, [], length, codes};
ghost use Rattle.std.specs.List.{flat_map, list_any};
ghost use Rattle.std.specs.Option.{option_copied};
ghost use Rattle.sg_msg.specs.Macros.{is_hard};
ghost use Rattle.sg_parsers.specs.Values.{is_key_byte};
ghost use Rattle.sg_fault.specs.Faults.{least};
ghost use Rattle.sg_options.specs.Settings.{calls_of, last_value};
ghost use Rattle.sg_options.specs.Values.{text_of};
ghost use Rattle.sg_values.specs.Parsers.{length_faults, quote_faults, delimiter_faults, is_separator, separator_faults, column_name_faults, column_faults, count_faults, columns_faults, wanted_faults, csv_faults, kv_faults, parser_faults};

use crate::setting::missing;
use sg_fault::{Placed, earlier};
use sg_lex::ConfigKind;
use sg_msg::is_hard;
use sg_options::{
    args_of, bad_value, is_called, item_of, last_argument, last_argument_value, text_of,
};
use sg_parse_base::{Spot, line_of};
use sg_parse_expr::{Arg, Call};

/// How many columns a parser may have.
const COLUMN_LIMIT: usize = 64;

/// How long delimiters and separators may be.
const SEPARATOR_LIMIT: usize = 16;

/// How long the name of a value may be.
const NAME_LIMIT: usize = 255;

/// How long the longest name of a macro may be.
const MACRO_LIMIT: usize = 16;

fn length_fault(value: Option<&Spot>) -> Option<Placed>
    ensures { result ≡ least (length_faults (option_copied value.entry)) }
{
    let Some(spot) = value else {
        return None;
    };
    let length = spot.token.text.bytes().len();
    if length == 0 || length > SEPARATOR_LIMIT {
        return Some(bad_value(spot));
    }
    None
}

fn has_quote(text: &[u8]) -> bool
    ensures { result ≡ list_any (λ b. b == 34) text.now }
{
    text.contains(&b'"')
}

fn quote_fault(value: Option<&Spot>) -> Option<Placed>
    ensures { result ≡ least (quote_faults (option_copied value.entry)) }
{
    match value {
        Some(spot) if has_quote(spot.token.text.bytes()) => Some(bad_value(spot)),
        _ => None,
    }
}

fn is_key_byte(byte: u8) -> bool
    ensures { result ≡ is_key_byte byte }
{
    (byte >= b'a' && byte <= b'z')
        || (byte >= b'A' && byte <= b'Z')
        || (byte >= b'0' && byte <= b'9')
        || (byte == b'_' || (byte == b'.' || byte == b'-'))
}

// Whether the text is one byte that may stand between a key and its value.
fn is_separator(text: &[u8]) -> bool
    ensures { result ≡ is_separator text.now }
{
    match text {
        [byte] => !(is_key_byte(*byte) || (*byte == b'"' || *byte == b'\\')),
        _ => false,
    }
}

fn separator_fault(value: Option<&Spot>) -> Option<Placed>
    ensures { result ≡ least (separator_faults (option_copied value.entry)) }
{
    match value {
        Some(spot) if !is_separator(spot.token.text.bytes()) => Some(bad_value(spot)),
        _ => None,
    }
}

// How long the name is with the prefix.
fn name_len(prefix: &[u8], name: &[u8]) -> usize
    ensures sum { result ≡ length prefix.now + length name.now }
    ensures joined { result ≡ length (prefix.now ++ name.now) }
{
    prefix.len() + name.len()
}

// Writes the name behind the prefix.
fn put_joined(room: &mut [u8], prefix: &[u8], name: &[u8])
    requires { length room.old ≡ length prefix.now + length name.now }
    ensures { room.new ≡ prefix.now ++ name.now }
{
    let (front, back) = room.split_at_mut(prefix.len());
    front.copy_from_slice(prefix);
    back.copy_from_slice(name);
}

fn is_joined_macro(room: &mut [u8], prefix: &[u8], name: &[u8]) -> bool
    requires { length room.old ≡ length prefix.now + length name.now }
    ensures { result ≡ is_hard (prefix.now ++ name.now) }
{
    put_joined(room, prefix, name);
    is_hard(&*room)
}

// Whether the name is with the prefix a macro's.
fn is_macro(prefix: &[u8], name: &[u8]) -> bool
    ensures { result ≡ is_hard (prefix.now ++ name.now) }
{
    let end = name_len(prefix, name);
    if end > MACRO_LIMIT {
        return false;
    }
    let mut room = [0u8; MACRO_LIMIT];
    is_joined_macro(&mut room[..end], prefix, name)
}

fn column_name_fault(word: &Spot, prefix: &[u8], column: &Spot) -> Option<Placed>
    ensures { result ≡ least (column_name_faults word.now prefix.now column.now) }
{
    let name = column.token.text.bytes();
    let length = name_len(prefix, name);
    if length == 0 || length > NAME_LIMIT {
        return Some(bad_value(column));
    }
    if is_macro(prefix, name) {
        return Some(Placed {
            kind: ConfigKind::HardMacro,
            line: line_of(&word.token, word.at),
        });
    }
    None
}

fn column_fault(word: &Spot, prefix: &[u8], arg: &Arg) -> Option<Placed>
    ensures { result ≡ least (column_faults word.now prefix.now arg.now) }
{
    match item_of(arg) {
        Some(column) => column_name_fault(word, prefix, column),
        None => None,
    }
}

fn count_fault(option: &Call) -> Option<Placed>
    ensures { result ≡ least (count_faults option.now) }
{
    let count = args_of(option).len();
    if count == 0 || count > COLUMN_LIMIT {
        return Some(bad_value(&option.word));
    }
    None
}

// The first fault of the names of columns.
fn column_names_fault(word: &Spot, prefix: &[u8], args: &[Arg]) -> Option<Placed>
    ensures { result ≡ least (flat_map (column_faults word.now prefix.now) args.now) }
{
    let mut first = None;
    for arg in args {
        first = earlier(first, column_fault(word, prefix, arg));
    }
    first
}

// The first fault of the last `columns`.
#[tactic(auto, using(sg_fault::proofs::Least::least_append))]
fn columns_fault(word: &Spot, prefix: &[u8], option: Option<&Call>) -> Option<Placed>
    ensures { result ≡ least (columns_faults word.now prefix.now (option_copied option.entry)) }
{
    match option {
        Some(option) => {
            let names = column_names_fault(word, prefix, args_of(option));
            earlier(count_fault(option), names)
        }
        None => None,
    }
}

#[tactic(auto, using(sg_fault::proofs::Least::least_append))]
fn wanted_fault(call: &Call) -> Option<Placed>
    ensures { result ≡ least (wanted_faults call.now) }
{
    earlier(missing(b"columns", call), missing(b"delimiters", call))
}

#[tactic(auto, using(sg_fault::proofs::Least::least_append))]
fn delimiter_fault(value: Option<&Spot>) -> Option<Placed>
    ensures { result ≡ least (delimiter_faults (option_copied value.entry)) }
{
    earlier(length_fault(value), quote_fault(value))
}

// What stands before the name of a column.
fn prefix_of(args: &[Arg]) -> &[u8]
    ensures { result.now ≡ text_of (last_value (codes "prefix" ∷ []) (calls_of args.now)) }
{
    text_of(last_argument_value(&[b"prefix"], args))
}

#[tactic(auto, using(sg_fault::proofs::Least::least_append))]
fn csv_fault(call: &Call) -> Option<Placed>
    ensures { result ≡ least (csv_faults call.now) }
{
    let args = args_of(call);
    let delimiters = delimiter_fault(last_argument_value(&[b"delimiters"], args));
    let wanted = earlier(wanted_fault(call), delimiters);
    let columns = last_argument(&[b"columns"], args);
    earlier(wanted, columns_fault(&call.word, prefix_of(args), columns))
}

#[tactic(auto, using(sg_fault::proofs::Least::least_append))]
fn kv_fault(call: &Call) -> Option<Placed>
    ensures { result ≡ least (kv_faults call.now) }
{
    let args = args_of(call);
    let pairs = length_fault(last_argument_value(&[b"pair-separator"], args));
    earlier(
        pairs,
        separator_fault(last_argument_value(&[b"value-separator"], args)),
    )
}

/// The first fault of a parser's values: `MissingOption` at the parser where `columns` or `delimiters` is
/// missing, and `HardMacro` there where a column is, with the prefix, a macro's name; `BadValue` at a column
/// that hasn't, with the prefix, 1 to 255 bytes, at `columns` with none or more than 64, at delimiters
/// or a pair separator that haven't 1 to 16 bytes, at a quote among delimiters, and at a value separator that
/// isn't one byte or is a byte of keys, a quote or a backslash.
#[tactic(auto, unfolding(crate::specs::Parsers::parser_faults))]
pub fn parser_fault(call: &Call) -> Option<Placed>
    ensures { result ≡ least (parser_faults call.now) }
{
    if is_called(&[b"csv-parser"], call) {
        return csv_fault(call);
    }
    kv_fault(call)
}
