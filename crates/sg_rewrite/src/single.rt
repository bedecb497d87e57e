// Rewrites of one name.
ghost use Rattle.std.specs.Prelude.{◌≡◌, OnOk, OnErr, None};
ghost use Rattle.sg_msg.specs.Message.{IsPairName, value_of};
ghost use Rattle.sg_rewrite.specs.Values.{with_value, text_over};
ghost use Rattle.sg_rewrite.specs.Rewritten.{substituted};

use crate::change::Substitution;
use crate::render::put;
use crate::replacing::replace;
use crate::rewrite::Buffers;
use crate::text::RewriteText;
use bytes::Bytes;
use sg_device::NoMemory;
use sg_msg::Message;
use sg_template::own_env;
use std::alloc::Global;

/// Gives the name the template's text.
pub(crate) fn set_text(
    alloc: Global,
    name: &Bytes,
    text: &RewriteText,
    message: &mut Message,
    buffers: &mut Buffers,
) -> Result<(), NoMemory>
    requires { IsPairName name.now }
    ensures ok { OnOk result
        (message.new ≡ with_value name.now (text_over text.now None message.old) message.old) }
    ensures err { OnErr result (message.new ≡ message.old) }
{
    let value = text.value(alloc, message, &mut buffers.text)?;
    message.put(name, value)?;
    Ok(())
}

/// Puts the template's text in the place of what is found in the name's value.
pub(crate) fn substitute(
    alloc: Global,
    search: &mut Substitution,
    message: &mut Message,
    buffers: &mut Buffers,
) -> Result<(), NoMemory>
    requires { IsPairName search.old.name }
    ensures ok { OnOk result (message.new
        ≡ substituted search.old (value_of search.old.name message.old.pairs) message.old) }
    ensures err { OnErr result (message.new ≡ message.old) }
    ensures same { search.new ≡ search.old }
{
    let name = search.name.as_slice();
    let Some(bytes) = message.get(name) else {
        return Ok(());
    };
    let spans = search.matcher.spans(alloc, bytes)?;
    if spans.is_empty() {
        return Ok(());
    }
    search
        .text
        .render(message, &own_env(None), &mut buffers.text)?;
    replace(bytes, &spans, &buffers.text, &mut buffers.value)?;
    put(alloc, message, &search.name, &buffers.value)?;
    Ok(())
}
