// Parsers of rows.
use crate::parsers::rows::ParserRow;
use sg_device::Name;
use sg_parsers::{Csv, Kv, MessageParser, ParserRule};
use sg_template::Template;
use std::alloc::{AllocError, Global};

fn columns_of(alloc: Global, names: &str) -> Result<Vec<Name>, AllocError> {
    let mut columns = Vec::new(alloc);
    for name in names.split(',') {
        columns.push(Name::new(alloc, name.as_bytes())?)?;
    }
    Ok(columns)
}

fn csv_of(alloc: Global, row: &ParserRow<'_>) -> Result<Option<MessageParser>, AllocError> {
    let prefix = row.prefix.as_bytes();
    let columns = columns_of(alloc, row.names)?;
    let delimiters = row.between.as_bytes();
    match Csv::new(
        alloc,
        prefix,
        &columns,
        delimiters,
        row.greedy,
        row.drop_invalid,
    )? {
        Some(csv) => Ok(Some(MessageParser::Csv(csv))),
        None => Ok(None),
    }
}

fn kv_of(alloc: Global, row: &ParserRow<'_>) -> Result<Option<MessageParser>, AllocError> {
    let Some(value_separator) = row.names.as_bytes().first() else {
        return Ok(None);
    };
    Ok(Some(MessageParser::Kv(Kv {
        prefix: Name::new(alloc, row.prefix.as_bytes())?,
        pair_separator: Name::new(alloc, row.between.as_bytes())?,
        value_separator: *value_separator,
    })))
}

fn parser_of(alloc: Global, row: &ParserRow<'_>) -> Result<Option<MessageParser>, AllocError> {
    if row.is_csv {
        csv_of(alloc, row)
    } else {
        kv_of(alloc, row)
    }
}

fn message_template(alloc: Global) -> Option<Template> {
    Template::read(alloc, b"$MESSAGE").ok()
}

pub(crate) fn rule(alloc: Global, row: &ParserRow<'_>) -> Result<Option<ParserRule>, AllocError> {
    let Some(parser) = parser_of(alloc, row)? else {
        return Ok(None);
    };
    let Some(text) = message_template(alloc) else {
        return Ok(None);
    };
    let made = ParserRule { text, parser };
    Ok(Some(made.share(alloc)?))
}
