// Structured data.
ghost use Rattle.std.specs.Prelude.{◌≡◌, ◌≤◌, ◌++◌, ◌∷◌, [], length, OnOk};
ghost use Rattle.sg_r5424.specs.Data.{IsElement, IsData, element_name};
ghost use Rattle.sg_r5424.specs.Takes.{PutsPairs};
ghost use Rattle.sg_r5424.specs.Spans.{span_text, IsWithin, EndsItem};

use crate::names::SdNames;
use crate::params::take_params;
use crate::take::{Span, first_is, span_text, take_name, take_text};
use bytes::Bytes;
use sg_msg::{MessageBuilder, PairName};
use std::alloc::{AllocError, Global};

// Puts the pair of an element without parameters.
fn put_element(
    names: &mut SdNames,
    builder: &mut MessageBuilder,
    id: Span,
) -> Result<(), AllocError>
    requires id { IsWithin (length builder.old.item) id }
    requires short { length (span_text builder.old.item id) ≤ 32 }
    ensures { OnOk result (builder.new ≡ record builder.old {
      put = builder.old.put ++ (record {
        name = element_name (span_text builder.old.item id);
        value = [];
      }) ∷ [];
    }) }
{
    let name = names.element(span_text(builder.item(), id))?;
    builder.put(PairName::Other(name), Bytes::new())?;
    Ok(())
}

// Takes an element, and puts its pairs.
fn take_element(
    alloc: Global,
    names: &mut SdNames,
    builder: &mut MessageBuilder,
    text: &mut Bytes,
    end: usize,
) -> Result<bool, AllocError>
    requires { EndsItem builder.old.item text.old × (length builder.old.item ≡ end) }
    ensures { PutsPairs IsElement text.old text.new builder.old builder.new result }
{
    if !take_text(text, b"[") {
        return Ok(false);
    }
    let Some(id) = take_name(text, end) else {
        return Ok(false);
    };
    if take_text(text, b"]") {
        put_element(names, builder, id)?;
        return Ok(true);
    }
    take_params(alloc, names, builder, text, end, id)
}

// Takes structured data, and puts its pairs.
pub(crate) fn take_data(
    alloc: Global,
    names: &mut SdNames,
    builder: &mut MessageBuilder,
    text: &mut Bytes,
    end: usize,
) -> Result<bool, AllocError>
    requires { EndsItem builder.old.item text.old × (length builder.old.item ≡ end) }
    ensures { PutsPairs IsData text.old text.new builder.old builder.new result }
{
    if take_text(text, b"-") {
        return Ok(true);
    }
    if !first_is(text.as_slice(), b'[') {
        return Ok(false);
    }
    'elements: loop {
        if !first_is(text.as_slice(), b'[') {
            return Ok(true);
        }
        if !take_element(alloc, names, builder, text, end)? {
            return Ok(false);
        }
    }
}
