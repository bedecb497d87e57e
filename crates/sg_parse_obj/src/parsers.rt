// Parsers.
ghost use Rattle.std.specs.Prelude.{◌≡◌};
ghost use Rattle.sg_parse_base.specs.Input.{ReadsTokens};
ghost use Rattle.sg_parse_expr.specs.Forms.{row_of};
ghost use Rattle.sg_parse_obj.specs.Parsers as spec;

use sg_parse_base::{
    Cursor, ItemRule, ParseStop, body, many, sees_word, symbol, unsupported, word,
};
use sg_parse_expr::{Arg, Call, Class, Flat, WordChoice, call_of, flat_args, row_of, value};
use sqlite_items::Items;
use std::alloc::Global;

/// The options of a parser.
#[derive(Clone, Copy, Drop)]
pub enum ParserTable {
    Csv,
    Kv,
}

/// The form of an option of a parser.
#[derive(Clone, Copy, Drop)]
pub enum ParserOption {
    Flat(Flat),
    /// A name, which may stand in `chars()`.
    Delimiters,
}

const PARSERS: [(&[u8], ParserTable); 2] = [
    (b"csv-parser", ParserTable::Csv),
    (b"kv-parser", ParserTable::Kv),
];

const CSV: [(&[u8], ParserOption); 5] = [
    (b"columns", ParserOption::Flat(Flat::Many(Class::Name))),
    (b"delimiters", ParserOption::Delimiters),
    (b"prefix", ParserOption::Flat(Flat::One(Class::Name))),
    (b"template", ParserOption::Flat(Flat::One(Class::Template))),
    (
        b"flags",
        ParserOption::Flat(Flat::Many(Class::Word(WordChoice::CsvFlag))),
    ),
];

const KV: [(&[u8], ParserOption); 4] = [
    (
        b"pair-separator",
        ParserOption::Flat(Flat::One(Class::Name)),
    ),
    (
        b"value-separator",
        ParserOption::Flat(Flat::One(Class::Name)),
    ),
    (b"prefix", ParserOption::Flat(Flat::One(Class::Name))),
    (b"template", ParserOption::Flat(Flat::One(Class::Template))),
];

#[tactic(auto, unfolding(crate::specs::Parsers::parsers))]
fn parser_form(text: &[u8]) -> Option<ParserTable>
    ensures { result ≡ row_of spec.parsers text.now }
{
    row_of(&PARSERS, text)
}

#[tactic(auto, unfolding(crate::specs::Parsers::csv_options))]
fn csv_option(text: &[u8]) -> Option<ParserOption>
    ensures { result ≡ row_of spec.csv_options text.now }
{
    row_of(&CSV, text)
}

#[tactic(auto, unfolding(crate::specs::Parsers::kv_options))]
fn kv_option(text: &[u8]) -> Option<ParserOption>
    ensures { result ≡ row_of spec.kv_options text.now }
{
    row_of(&KV, text)
}

fn parser_option(table: ParserTable, text: &[u8]) -> Option<ParserOption>
    ensures { result ≡ row_of (spec.parser_options table) text.now }
{
    match table {
        ParserTable::Csv => csv_option(text),
        ParserTable::Kv => kv_option(text),
    }
}

// The bytes between fields, in `chars()` or not.
#[tactic(auto, unfolding(crate::specs::Parsers::characters, sg_parse_expr::specs::Args::item))]
fn characters(alloc: Global, cursor: &mut Cursor<'_>) -> Result<Items<Arg>, ParseStop>
    ensures { ReadsTokens (spec.characters cursor.old) result cursor.new }
{
    if sees_word(cursor, b"chars") {
        cursor.skip();
        return flat_args(alloc, cursor, Flat::One(Class::Name));
    }
    let mut found = Items::new(alloc);
    found.push(Arg::Item(value(alloc, cursor, Class::Name)?))?;
    Ok(found)
}

#[tactic(auto, unfolding(crate::specs::Parsers::delimiters))]
fn delimiters(alloc: Global, cursor: &mut Cursor<'_>) -> Result<Items<Arg>, ParseStop>
    ensures { ReadsTokens (spec.delimiters cursor.old) result cursor.new }
{
    symbol(cursor, b'(')?;
    let found = characters(alloc, cursor)?;
    symbol(cursor, b')')?;
    Ok(found)
}

#[tactic(auto, unfolding(crate::specs::Parsers::option_args))]
fn option_args(
    alloc: Global,
    cursor: &mut Cursor<'_>,
    form: ParserOption,
) -> Result<Items<Arg>, ParseStop>
    ensures { ReadsTokens (spec.option_args form cursor.old) result cursor.new }
{
    match form {
        ParserOption::Flat(flat) => flat_args(alloc, cursor, flat),
        ParserOption::Delimiters => delimiters(alloc, cursor),
    }
}

#[tactic(auto, unfolding(crate::specs::Parsers::option, sg_parse_expr::specs::Args::nested, sg_parse_expr::specs::Args::called))]
fn read_option(alloc: Global, cursor: &mut Cursor<'_>, table: ParserTable) -> Result<Arg, ParseStop>
    ensures { ReadsTokens (spec.option table cursor.old) result cursor.new }
{
    let spot = word(cursor)?;
    let Some(form) = parser_option(table, spot.token.text.bytes()) else {
        return Err(unsupported(&spot));
    };
    let args = option_args(alloc, cursor, form)?;
    Ok(Arg::Nested(call_of(spot, args)))
}

#[derive(Drop)]
struct ParserChoices {
    table: ParserTable,
}

impl ItemRule for ParserChoices {
    type Item = Arg;

    ghost parser = { λ rule. spec.option rule.table };

    fn read(&self, alloc: Global, cursor: &mut Cursor<'_>) -> Result<Arg, ParseStop> {
        read_option(alloc, cursor, self.table)
    }
}

#[tactic(auto, unfolding(crate::specs::Parsers::parser_args))]
fn parser_args(
    alloc: Global,
    cursor: &mut Cursor<'_>,
    table: ParserTable,
) -> Result<Items<Arg>, ParseStop>
    ensures { ReadsTokens (spec.parser_args table cursor.old) result cursor.new }
{
    many(alloc, cursor, &ParserChoices { table })
}

#[tactic(auto, unfolding(crate::specs::Parsers::parser_call, sg_parse_expr::specs::Args::called))]
fn parser_call(alloc: Global, cursor: &mut Cursor<'_>) -> Result<Call, ParseStop>
    ensures { ReadsTokens (spec.parser_call cursor.old) result cursor.new }
{
    let spot = word(cursor)?;
    let Some(table) = parser_form(spot.token.text.bytes()) else {
        return Err(unsupported(&spot));
    };
    let args = parser_args(alloc, cursor, table)?;
    Ok(call_of(spot, args))
}

#[derive(Drop)]
struct OneParser;

impl ItemRule for OneParser {
    type Item = Call;

    ghost parser = { λ _. spec.parser_call };

    fn read(&self, alloc: Global, cursor: &mut Cursor<'_>) -> Result<Call, ParseStop> {
        parser_call(alloc, cursor)
    }
}

/// The parsers of a parser statement, in braces.
#[tactic(auto, unfolding(crate::specs::Parsers::parser_calls))]
pub fn parser_calls(alloc: Global, cursor: &mut Cursor<'_>) -> Result<Items<Call>, ParseStop>
    ensures { ReadsTokens (spec.parser_calls cursor.old) result cursor.new }
{
    body(alloc, cursor, &OneParser)
}
