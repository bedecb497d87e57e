// Rewrites of groups of names.
ghost use Rattle.std.specs.Prelude.{◌≡◌, IfOk, OnOk, OnErr, if◌then◌else◌};
ghost use Rattle.sg_msg.specs.Message.{IsPairName, value_of};
ghost use Rattle.sg_rewrite.specs.Values.{without_value};
ghost use Rattle.sg_rewrite.specs.Rewritten.{is_picked, with_text, set_each, unset_each};

use crate::anew::without_group;
use crate::render::{set, unset};
use crate::rewrite::Buffers;
use crate::text::RewriteText;
use sg_device::{Name, NoMemory};
use sg_msg::Message;
use sg_pattern::glob_matches;
use sg_template::own_env;
use std::alloc::Global;
use std::mem::replace;

/// Whether a glob matches the name.
pub(crate) fn is_picked(globs: &[Name], name: &[u8]) -> bool
    ensures { result ≡ is_picked globs.now name.now }
{
    globs.iter().any(|glob| glob_matches(glob.bytes(), name))
}

// The value of the name, in the buffer's memory.
fn old_value(message: &Message, name: &[u8], buffer: Vec<u8>) -> Result<Option<Name>, NoMemory>
    ensures { IfOk result (λ old. old ≡ value_of name.now message.now.pairs) }
{
    let Some(value) = message.get(name) else {
        return Ok(None);
    };
    let mut old = buffer;
    old.clear();
    old.extend_from_slice(value)?;
    Ok(Some(Name::from_vec(old)))
}

// The buffer that an old value was in.
fn buffer_of(alloc: Global, old: Option<Name>) -> Vec<u8> {
    match old {
        Some(old) => old.into_vec(),
        None => Vec::new(alloc),
    }
}

// Gives the name the template's text, with its value as the old one.
fn set_text(
    alloc: Global,
    name: &[u8],
    text: &RewriteText,
    message: &mut Message,
    buffers: &mut Buffers,
) -> Result<(), NoMemory>
    requires { IsPairName name.now }
    ensures { OnOk result (message.new ≡ with_text text.now name.now message.old) }
{
    let buffer = replace(&mut buffers.old, Vec::new(alloc));
    let env = own_env(old_value(message, name, buffer)?);
    text.render(message, &env, &mut buffers.text)?;
    buffers.old = buffer_of(alloc, env.old);
    set(message, name, &buffers.text)
}

// As `set_text`, where a glob matches the name.
fn set_picked(
    alloc: Global,
    globs: &[Name],
    name: &[u8],
    text: &RewriteText,
    message: &mut Message,
    buffers: &mut Buffers,
) -> Result<(), NoMemory>
    requires { IsPairName name.now }
    ensures { OnOk result (message.new
        ≡ (if is_picked globs.now name.now then with_text text.now name.now message.old
        else message.old)) }
{
    if is_picked(globs, name) {
        set_text(alloc, name, text, message, buffers)?;
    }
    Ok(())
}

/// Gives each name that a glob matches the template's text, over the message as it then stands.
pub(crate) fn set_group(
    alloc: Global,
    globs: &[Name],
    text: &RewriteText,
    message: &mut Message,
    buffers: &mut Buffers,
) -> Result<(), NoMemory>
    ensures ok { OnOk result
        (message.new ≡ set_each globs.now text.now message.old.pairs message.old) }
    ensures err { OnErr result (message.new ≡ message.old) }
{
    let mut changed = message.share()?;
    let _pri = message.pri();
    for place in 0..message.pair_count() {
        let Some((name, _value)) = message.pair(place) else {
            unreachable!()
        };
        set_picked(alloc, globs, name, text, &mut changed, buffers)?;
    }
    *message = changed;
    Ok(())
}

// Takes the name's value away, where a glob matches it.
fn unset_picked(globs: &[Name], name: &[u8], message: &mut Message) -> Result<(), NoMemory>
    requires { IsPairName name.now }
    ensures { OnOk result (message.new
        ≡ (if is_picked globs.now name.now then without_value name.now message.old
        else message.old)) }
{
    if is_picked(globs, name) {
        unset(message, name)?;
    }
    Ok(())
}

// Takes the values away one by one, from the last one on, so that few pairs move up.
fn unset_few(globs: &[Name], message: &mut Message) -> Result<(), NoMemory>
    ensures ok { OnOk result (message.new ≡ unset_each globs.now message.old.pairs message.old) }
    ensures err { OnErr result (message.new ≡ message.old) }
{
    let mut changed = message.share()?;
    let _pri = message.pri();
    let mut place = message.pair_count();
    'pairs: while place > 0 {
        place -= 1;
        let Some((name, _value)) = message.pair(place) else {
            unreachable!()
        };
        unset_picked(globs, name, &mut changed)?;
    }
    *message = changed;
    Ok(())
}

// Up to so many pairs, moving them up takes less than copying those that stay.
const FEW: usize = 64;

/// Takes away the value of each name that a glob matches, in time in proportion to the pairs.
pub(crate) fn unset_group(
    alloc: Global,
    globs: &[Name],
    message: &mut Message,
) -> Result<(), NoMemory>
    ensures ok { OnOk result (message.new ≡ unset_each globs.now message.old.pairs message.old) }
    ensures err { OnErr result (message.new ≡ message.old) }
{
    if message.pair_count() <= FEW {
        return unset_few(globs, message);
    }
    *message = without_group(alloc, globs, message)?;
    Ok(())
}
