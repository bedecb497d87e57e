// Columns that are set in a message as they are read.
ghost use Rattle.std.specs.Prelude.{◌≡◌, ◌≤◌, ◌+◌, ◌-◌, false, length, take, drop, IfOk, OnOk, OnErr};
ghost use Rattle.sg_msg.specs.Message.{with_all, with_pair};
ghost use Rattle.sg_parsers.specs.Fields.{field_len, field_value};
ghost use Rattle.sg_parsers.specs.Csv.{column_value, csv_pairs};

use crate::Csv;
use crate::fields::{field_end, field_value, is_quoted};
use crate::key::Key;
use bytes::Bytes;
use sg_device::NoMemory;
use sg_msg::{Draft, Message};
use std::alloc::Global;

/// The value of the column whose field stands there. It shares the text's memory where that is written so.
pub(crate) fn value_between(
    alloc: Global,
    text: &Bytes,
    at: usize,
    end: usize,
) -> Result<Bytes, NoMemory>
    requires { (at ≤ end) × (end ≤ length text.now) }
    ensures { IfOk result (λ value. value ≡ field_value (take (end - at) (drop at text.now))) }
{
    field_value(alloc, text.slice(at..end)?)
}

// Gives the column the field between these places.
fn put_between(
    alloc: Global,
    name: &Key,
    text: &Bytes,
    at: usize,
    end: usize,
    draft: &mut Draft,
) -> Result<(), NoMemory>
    requires within { (at ≤ end) × (end ≤ length text.now) }
    requires text { draft.old.text ≡ text.now }
    ensures { OnOk result (draft.new ≡ record draft.old {
      message = record draft.old.message {
        pairs = with_pair name.now (field_value (take (end - at) (drop at text.now)))
            draft.old.message.pairs;
      };
    }) }
{
    if is_quoted(&text.as_slice()[at..end]) {
        draft.put(name.bytes(), value_between(alloc, text, at, end)?)?;
        return Ok(());
    }
    draft.put_part(name.bytes(), at, end)?;
    Ok(())
}

// Gives the column the field that begins at this place, and answers where it ends.
fn put_field(
    alloc: Global,
    delimiters: &[u8],
    name: &Key,
    text: &Bytes,
    at: usize,
    draft: &mut Draft,
) -> Result<usize, NoMemory>
    requires within { at ≤ length text.now }
    requires text { draft.old.text ≡ text.now }
    ensures pair { OnOk result (draft.new ≡ record draft.old {
      message = record draft.old.message {
        pairs = with_pair name.now (column_value delimiters.now false (drop at text.now))
            draft.old.message.pairs;
      };
    }) }
    ensures end { IfOk result (λ end. end ≡ at + field_len delimiters.now (drop at text.now)) }
    ensures within { IfOk result (λ end. end ≤ length text.now) }
{
    let end = field_end(delimiters, text.as_slice(), at);
    put_between(alloc, name, text, at, end, draft)?;
    Ok(end)
}

// Gives each column its field.
fn put_columns(alloc: Global, csv: &Csv, text: &Bytes, draft: &mut Draft) -> Result<(), NoMemory>
    requires { draft.old.text ≡ text.now }
    ensures { OnOk result (draft.new ≡ record draft.old {
      message = record draft.old.message {
        pairs = with_all (csv_pairs csv.now text.now) draft.old.message.pairs;
      };
    }) }
{
    let names = csv.names.as_slice();
    let mut at = 0;
    for place in 0..names.len() {
        if csv.greedy && place + 1 == names.len() {
            draft.put_part(names[place].bytes(), at, text.len())?;
            return Ok(());
        }
        let end = put_field(
            alloc,
            csv.delimiters.bytes(),
            &names[place],
            text,
            at,
            draft,
        )?;
        if end == text.len() {
            return Ok(());
        }
        at = end + 1;
    }
    Ok(())
}

/// Sets the columns one after another. On an error the message is as it was.
pub(crate) fn set_columns(
    alloc: Global,
    csv: &Csv,
    text: &Bytes,
    message: &mut Message,
) -> Result<(), NoMemory>
    ensures ok { OnOk result (message.new ≡ record message.old {
      pairs = with_all (csv_pairs csv.now text.now) message.old.pairs;
    }) }
    ensures err { OnErr result (message.new ≡ message.old) }
{
    let mut draft = message.draft(csv.names.len(), text.clone()?)?;
    put_columns(alloc, csv, text, &mut draft)?;
    *message = draft.message()?;
    Ok(())
}
