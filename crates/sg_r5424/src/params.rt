// The parameters of an element.
ghost use Rattle.std.specs.Prelude.{◌≡◌, ◌≤◌, ◌++◌, ◌∷◌, [], length, IfOk, IfSome, OnOk};
ghost use Rattle.sg_r5424.specs.Data.{IsParam, HasParams, param_pair};
ghost use Rattle.sg_r5424.specs.Takes.{PutsPairs};
ghost use Rattle.sg_r5424.specs.Spans.{span_text, param_said, IsWithin, IsParamWithin, EndsItem, TakesSaid};

use crate::names::SdNames;
use crate::take::{Span, span_text, take_name, take_text};
use crate::values::{ParamValue, take_value};
use bytes::Bytes;
use sg_msg::{MessageBuilder, PairName};
use std::alloc::{AllocError, Global};

/// A parameter's name and value.
#[derive(Drop)]
pub(crate) struct ParamParts {
    name: Span,
    value: ParamValue,
}

// Takes a space and a parameter.
fn take_param(alloc: Global, text: &mut Bytes, end: usize) -> Result<Option<ParamParts>, AllocError>
    requires { length text.old ≤ end }
    ensures param { IfOk result
        (λ found. TakesSaid param_said IsParam end text.old text.new found) }
    ensures within { IfOk result (λ found. IfSome found (IsParamWithin end)) }
    ensures shorter { length text.new ≤ length text.old }
{
    if !take_text(text, b" ") {
        return Ok(None);
    }
    let Some(name) = take_name(text, end) else {
        return Ok(None);
    };
    if !take_text(text, b"=\"") {
        return Ok(None);
    }
    let Some(value) = take_value(alloc, text, end)? else {
        return Ok(None);
    };
    Ok(Some(ParamParts { name, value }))
}

// Puts the pair of a parameter of this element.
fn put_param(
    names: &mut SdNames,
    builder: &mut MessageBuilder,
    id: Span,
    param: ParamParts,
) -> Result<(), AllocError>
    requires id { IsWithin (length builder.old.item) id }
    requires short { length (span_text builder.old.item id) ≤ 32 }
    requires param { IsParamWithin (length builder.old.item) param }
    requires name { length (span_text builder.old.item param.name) ≤ 32 }
    ensures { OnOk result (builder.new ≡ record builder.old {
      put = builder.old.put
          ++ param_pair (span_text builder.old.item id) (param_said builder.old.item param) ∷ [];
    }) }
{
    let item = builder.item();
    let name = names.param(span_text(item, id), span_text(item, param.name))?;
    match param.value {
        ParamValue::Part(span) => builder.put_part(PairName::Other(name), span.from, span.to)?,
        ParamValue::Spelled(value) => builder.put(PairName::Other(name), value)?,
    }
    Ok(())
}

// Takes the parameters of this element, with the bracket that closes it, and puts their pairs.
pub(crate) fn take_params(
    alloc: Global,
    names: &mut SdNames,
    builder: &mut MessageBuilder,
    text: &mut Bytes,
    end: usize,
    id: Span,
) -> Result<bool, AllocError>
    requires ends { EndsItem builder.old.item text.old × (length builder.old.item ≡ end) }
    requires id { IsWithin end id }
    requires short { length (span_text builder.old.item id) ≤ 32 }
    ensures { PutsPairs (HasParams (span_text builder.old.item id)) text.old text.new builder.old
        builder.new result }
{
    'params: loop {
        if take_text(text, b"]") {
            return Ok(true);
        }
        let Some(param) = take_param(alloc, text, end)? else {
            return Ok(false);
        };
        put_param(names, builder, id, param)?;
    }
}
