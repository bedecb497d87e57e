// Parsers of texts with columns.
ghost use Rattle.std.specs.Prelude.{◌≡◌, ◌≤◌, ◌+◌, ◌++◌, false, [], ◌∷◌, Some, None, length, drop, if◌then◌else◌, IfOk, OnOk, OnErr};
ghost use Rattle.std.specs.List.{list_all};
ghost use Rattle.sg_parsers.specs.Names.{may_name, if_name};
ghost use Rattle.sg_parsers.specs.Fields.{field_len};
ghost use Rattle.sg_parsers.specs.Csv.{prefixed, if_names, column_value, csv_pairs, csv_takes, csv_parsed, are_enough};

use crate::columns::{set_columns, value_between};
use crate::fields::{field_count, field_end};
use crate::found::Found;
use crate::key::{Key, joined, key_of};
use crate::set::{FEW, set_all};
use bytes::Bytes;
use sg_device::{Name, NoMemory};
use sg_list::Seq;
use sg_msg::Message;
use std::alloc::Global;

/// What `csv-parser()` does: it gives each column the value of its field.
pub struct Csv {
    /// With the prefix.
    pub(crate) names: Seq<Key>,
    /// Each of these bytes is a delimiter.
    pub(crate) delimiters: Name,
    /// The last column gets the rest of the text as it is written.
    pub(crate) greedy: bool,
    /// A text with another number of fields is refused.
    pub(crate) drop_invalid: bool,
}

impl Drop for Csv {
    fn drop(self) {
        let Csv {
            names: _names,
            delimiters: _delimiters,
            greedy: _greedy,
            drop_invalid: _drop_invalid,
        } = self;
    }
}

fn column_key(alloc: Global, prefix: &[u8], column: &Name) -> Result<Option<Key>, NoMemory>
    ensures { IfOk result (λ key. key ≡ if_name (prefix.now ++ column.now)) }
{
    Ok(key_of(joined(alloc, prefix, column.bytes())?))
}

fn column_keys(alloc: Global, prefix: &[u8], columns: &[Name]) -> Result<Option<Seq<Key>>, NoMemory>
    ensures { IfOk result (λ keys. keys ≡ (
        if list_all may_name (prefixed prefix.now columns.now)
        then Some (prefixed prefix.now columns.now)
        else None)) }
{
    let mut keys = Seq::empty(alloc);
    for column in columns {
        match column_key(alloc, prefix, column)? {
            Some(key) => keys.push(key)?,
            None => return Ok(None),
        }
    }
    Ok(Some(keys))
}

fn copied(alloc: Global, names: &[Key]) -> Result<Seq<Key>, NoMemory>
    ensures { IfOk result (λ copies. copies ≡ names.now) }
{
    let mut copies = Seq::empty(alloc);
    for name in names {
        copies.push(name.share()?)?;
    }
    Ok(copies)
}

fn push_pair(name: &Key, value: Bytes, pairs: &mut Seq<Found>) -> Result<(), NoMemory>
    ensures { OnOk result
        (pairs.new ≡ pairs.old ++ (record { name = name.now; value = value }) ∷ []) }
{
    pairs.push(Found::new(name.share()?, value))?;
    Ok(())
}

// Gives the column the field that begins at this place, and answers where it ends.
fn push_field(
    alloc: Global,
    delimiters: &[u8],
    name: &Key,
    text: &Bytes,
    at: usize,
    pairs: &mut Seq<Found>,
) -> Result<usize, NoMemory>
    requires { at ≤ length text.now }
    ensures pair { OnOk result (pairs.new ≡ pairs.old ++ (record {
      name = name.now;
      value = column_value delimiters.now false (drop at text.now);
    }) ∷ []) }
    ensures end { IfOk result (λ end. end ≡ at + field_len delimiters.now (drop at text.now)) }
    ensures within { IfOk result (λ end. end ≤ length text.now) }
{
    let end = field_end(delimiters, text.as_slice(), at);
    push_pair(name, value_between(alloc, text, at, end)?, pairs)?;
    Ok(end)
}

// Gives each column its field.
fn push_columns(
    alloc: Global,
    csv: &Csv,
    text: &Bytes,
    pairs: &mut Seq<Found>,
) -> Result<(), NoMemory>
    ensures { OnOk result (pairs.new ≡ pairs.old ++ csv_pairs csv.now text.now) }
{
    let names = csv.names.as_slice();
    let mut at = 0;
    for place in 0..names.len() {
        if csv.greedy && place + 1 == names.len() {
            return push_pair(&names[place], text.slice(at..text.len())?, pairs);
        }
        let end = push_field(
            alloc,
            csv.delimiters.bytes(),
            &names[place],
            text,
            at,
            pairs,
        )?;
        if end == text.len() {
            return Ok(());
        }
        at = end + 1;
    }
    Ok(())
}

fn are_enough(greedy: bool, columns: usize, fields: usize) -> bool
    ensures { result ≡ are_enough greedy columns fields }
{
    if greedy {
        columns <= fields
    } else {
        fields == columns
    }
}

impl Csv {
    /// The parser of these columns. None where a name hasn't, with the prefix, 1 to 255 bytes, or is a
    /// macro's (`sg_msg::is_hard`).
    pub fn new(
        alloc: Global,
        prefix: &[u8],
        columns: &[Name],
        delimiters: &[u8],
        greedy: bool,
        drop_invalid: bool,
    ) -> Result<Option<Csv>, NoMemory>
        ensures { IfOk result (λ csv. csv ≡ if_names (record {
          names = prefixed prefix.now columns.now;
          delimiters = delimiters.now;
          greedy = greedy;
          drop_invalid = drop_invalid;
        })) }
    {
        let Some(names) = column_keys(alloc, prefix, columns)? else {
            return Ok(None);
        };
        Ok(Some(Csv {
            names,
            delimiters: Name::new(alloc, delimiters)?,
            greedy,
            drop_invalid,
        }))
    }

    /// Whether the text isn't refused: with `drop_invalid` it has as many fields as columns, or with
    /// `greedy` at least as many.
    pub fn takes(&self, text: &[u8]) -> bool
        ensures { result ≡ csv_takes self.now text.now }
    {
        if !self.drop_invalid {
            return true;
        }
        are_enough(
            self.greedy,
            self.names.len(),
            field_count(self.delimiters.bytes(), text),
        )
    }

    /// Sets the columns that have a field in the text, and says whether the text isn't refused. Values that
    /// are written as they stand share its memory. A text that is refused changes nothing, and lack of
    /// memory neither. Other handles of the message say what they said before.
    pub fn apply(
        &self,
        alloc: Global,
        text: &Bytes,
        message: &mut Message,
    ) -> Result<bool, NoMemory>
        ensures taken { IfOk result (λ taken. taken ≡ csv_takes self.now text.now) }
        ensures ok { OnOk result (message.new ≡ csv_parsed self.now text.now message.old) }
        ensures err { OnErr result (message.new ≡ message.old) }
    {
        if !self.takes(text.as_slice()) {
            return Ok(false);
        }
        if self.names.len() <= FEW {
            set_columns(alloc, self, text, message)?;
            return Ok(true);
        }
        let mut pairs = Seq::empty(alloc);
        push_columns(alloc, self, text, &mut pairs)?;
        set_all(alloc, pairs.as_slice(), message)?;
        Ok(true)
    }

    /// An equal one, which shares the memory of its names.
    pub fn share(&self, alloc: Global) -> Result<Csv, NoMemory>
        ensures { IfOk result (λ csv. csv ≡ self.now) }
    {
        Ok(Csv {
            names: copied(alloc, self.names.as_slice())?,
            delimiters: self.delimiters.copy()?,
            greedy: self.greedy,
            drop_invalid: self.drop_invalid,
        })
    }
}
