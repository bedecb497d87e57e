// Pairs that were read.
ghost use Rattle.std.specs.Prelude.{◌≡◌, IfOk};
ghost use Rattle.sg_msg.specs.Message.{IsPairName};

use crate::key::Key;
use bytes::Bytes;
use sg_device::NoMemory;
use std::marker::Model;

/// A name and its value.
#[derive(Drop)]
pub(crate) struct Found {
    name: Key,
    value: Bytes,
}

impl Model for Found {
    ghost use Rattle.sg_msg.specs.Message.{NameValue};

    ghost Value = { NameValue };

    ghost view = { λ f. record { name = f.name; value = f.value } };
}

impl Found {
    pub(crate) fn new(name: Key, value: Bytes) -> Found
        ensures { result ≡ record { name = name; value = value } }
    {
        Found { name, value }
    }

    pub(crate) fn name(&self) -> &Bytes
        ensures value { result.now ≡ self.now.name }
        ensures name { IsPairName self.now.name }
    {
        self.name.bytes()
    }

    pub(crate) fn value(&self) -> Result<Bytes, NoMemory>
        ensures { IfOk result (λ value. value ≡ self.now.value) }
    {
        self.value.clone()
    }
}
