// The values that rewrites set, and the changes of one name.
ghost use Rattle.std.specs.Prelude.{◌≡◌, OnOk, OnErr};
ghost use Rattle.sg_msg.specs.Message.{IsPairName};
ghost use Rattle.sg_rewrite.specs.Values.{cut, with_value, without_value};

use bytes::Bytes;
use sg_device::NoMemory;
use sg_msg::{Message, MsgRefusal};
use std::alloc::{AllocError, Global};

/// The most bytes of a value that a rewrite sets.
pub(crate) const VALUE_LIMIT: usize = 1_048_576;

/// Gives the name this value.
pub(crate) fn set(message: &mut Message, name: &[u8], value: &[u8]) -> Result<(), NoMemory>
    requires { IsPairName name.now }
    ensures ok { OnOk result (message.new ≡ with_value name.now value.now message.old) }
    ensures err { OnErr result (message.new ≡ message.old) }
{
    match message.set(name, at_most(value)) {
        Ok(()) => Ok(()),
        Err(MsgRefusal::NoMemory) => Err(AllocError),
        Err(MsgRefusal::HardMacro) => unreachable!(),
    }
}

/// As `set`, with a name whose memory is shared.
pub(crate) fn put(
    alloc: Global,
    message: &mut Message,
    name: &Bytes,
    value: &[u8],
) -> Result<(), NoMemory>
    requires { IsPairName name.now }
    ensures ok { OnOk result (message.new ≡ with_value name.now value.now message.old) }
    ensures err { OnErr result (message.new ≡ message.old) }
{
    let value = Bytes::copy_from_slice(alloc, at_most(value))?;
    message.put(name, value)?;
    Ok(())
}

/// As much of the value as a rewrite sets.
#[tactic(auto, unfolding(crate::specs::Values::cut))]
pub(crate) fn at_most(value: &[u8]) -> &[u8]
    ensures { result.now ≡ cut value.now }
{
    if value.len() > VALUE_LIMIT {
        return &value[..VALUE_LIMIT];
    }
    value
}

/// Takes the name's value away.
pub(crate) fn unset(message: &mut Message, name: &[u8]) -> Result<(), NoMemory>
    requires { IsPairName name.now }
    ensures ok { OnOk result (message.new ≡ without_value name.now message.old) }
    ensures err { OnErr result (message.new ≡ message.old) }
{
    message.remove(name)?;
    Ok(())
}
