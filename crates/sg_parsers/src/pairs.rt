// The pairs of a text.
ghost use Rattle.std.specs.Prelude.{◌≡◌, ◌<◌, ◌++◌, true, length, drop, IfOk, OnOk};
ghost use Rattle.sg_parsers.specs.Values.{key_len};
ghost use Rattle.sg_parsers.specs.Pairs.{begins_pair, named, front_pairs, front_len, pairs_from};

use crate::Kv;
use crate::found::Found;
use crate::key::{joined, key_of};
use crate::values::{key_len, take_value};
use bytes::Bytes;
use sg_device::NoMemory;
use sg_list::Seq;
use sg_msg::has_at;
use std::alloc::Global;

fn push_named(name: Bytes, value: Bytes, pairs: &mut Seq<Found>) -> Result<(), NoMemory>
    ensures { OnOk result (pairs.new ≡ pairs.old ++ named name value) }
{
    match key_of(name) {
        Some(key) => {
            pairs.push(Found::new(key, value))?;
            Ok(())
        }
        None => Ok(()),
    }
}

// The key with the prefix. Without one it shares the key's memory.
fn full_name(alloc: Global, prefix: &[u8], key: Bytes) -> Result<Bytes, NoMemory>
    ensures { IfOk result (λ name. name ≡ prefix.now ++ key) }
{
    if prefix.is_empty() {
        return Ok(key);
    }
    joined(alloc, prefix, key.as_slice())
}

// Whether the text begins with a key of so many bytes and the value separator.
fn begins_pair(kv: &Kv, len: usize, text: &[u8]) -> bool
    requires { len ≡ key_len text.now }
    ensures value { result ≡ begins_pair kv.now text.now }
    ensures within { result ≡ true → len < length text.now }
{
    if len == 0 {
        return false;
    }
    has_at(text, len, kv.value_separator)
}

// Takes a key of so many bytes, the value separator and the value.
fn take_pair(
    alloc: Global,
    kv: &Kv,
    len: usize,
    text: &mut Bytes,
    pairs: &mut Seq<Found>,
) -> Result<(), NoMemory>
    requires key { len ≡ key_len text.old }
    requires begins { begins_pair kv.now text.old ≡ true }
    requires within { len < length text.old }
    ensures pairs { OnOk result (pairs.new ≡ pairs.old ++ front_pairs kv.now text.old) }
    ensures rest { OnOk result (text.new ≡ drop (front_len kv.now text.old) text.old) }
{
    let key = text.split_to(len)?;
    text.advance(1);
    let value = take_value(alloc, kv.pair_separator.bytes(), text)?;
    let name = full_name(alloc, kv.prefix.bytes(), key)?;
    push_named(name, value, pairs)?;
    Ok(())
}

// Takes a pair, a run of key bytes without a value, or a byte.
fn take_front(
    alloc: Global,
    kv: &Kv,
    text: &mut Bytes,
    pairs: &mut Seq<Found>,
) -> Result<(), NoMemory>
    requires { 0 < length text.old }
    ensures pairs { OnOk result (pairs.new ≡ pairs.old ++ front_pairs kv.now text.old) }
    ensures rest { OnOk result (text.new ≡ drop (front_len kv.now text.old) text.old) }
{
    let len = key_len(text.as_slice());
    if begins_pair(kv, len, text.as_slice()) {
        return take_pair(alloc, kv, len, text, pairs);
    }
    if len == 0 {
        text.advance(1);
        return Ok(());
    }
    text.advance(len);
    Ok(())
}

/// Takes the pairs of the text.
pub(crate) fn push_pairs(
    alloc: Global,
    kv: &Kv,
    text: Bytes,
    pairs: &mut Seq<Found>,
) -> Result<(), NoMemory>
    ensures { OnOk result (pairs.new ≡ pairs.old ++ pairs_from kv.now 0 text) }
{
    let mut text = text;
    'fronts: while !text.is_empty() {
        take_front(alloc, kv, &mut text, pairs)?;
    }
    Ok(())
}
