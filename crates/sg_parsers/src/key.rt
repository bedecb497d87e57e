// Names that pairs may have.
ghost use Rattle.std.specs.Prelude.{◌≡◌, ◌++◌, true, IfOk};
ghost use Rattle.sg_msg.specs.Message.{IsPairName};
ghost use Rattle.sg_parsers.specs.Names.{may_name, if_name};

use bytes::Bytes;
use sg_device::NoMemory;
use sg_msg::is_hard;
use std::alloc::Global;
use std::marker::Model;

/// A name that a pair may have.
#[derive(Drop)]
pub(crate) struct Key {
    bytes: Bytes,
}

impl Model for Key {
    ghost use Rattle.std.specs.Prelude.{List, ℕ};
    ghost use Rattle.sg_msg.specs.Message.{IsPairName};

    ghost Value = { List ℕ };

    ghost view = { λ k. k.bytes };

    ghost invariant = { λ k. IsPairName k.bytes };
}

fn may_name(name: &[u8]) -> bool
    ensures value { result ≡ may_name name.now }
    ensures name { result ≡ true → IsPairName name.now }
{
    if name.is_empty() || name.len() > 255 {
        return false;
    }
    !is_hard(name)
}

/// The name, where a pair may be called so.
pub(crate) fn key_of(name: Bytes) -> Option<Key>
    ensures { result ≡ if_name name }
{
    if may_name(name.as_slice()) {
        Some(Key::new(name))
    } else {
        None
    }
}

impl Key {
    fn new(bytes: Bytes) -> Key
        requires { IsPairName bytes }
        ensures { result ≡ bytes }
    {
        Key { bytes }
    }

    pub(crate) fn bytes(&self) -> &Bytes
        ensures value { result.now ≡ self.now }
        ensures name { IsPairName self.now }
    {
        &self.bytes
    }

    pub(crate) fn share(&self) -> Result<Key, NoMemory>
        ensures { IfOk result (λ key. key ≡ self.now) }
    {
        Ok(Key {
            bytes: self.bytes.clone()?,
        })
    }
}

/// Both, one behind the other.
pub(crate) fn joined(alloc: Global, prefix: &[u8], name: &[u8]) -> Result<Bytes, NoMemory>
    ensures { IfOk result (λ bytes. bytes ≡ prefix.now ++ name.now) }
{
    let mut bytes = prefix.to_vec(alloc)?;
    bytes.extend_from_slice(name)?;
    Ok(Bytes::from_vec(bytes)?)
}
