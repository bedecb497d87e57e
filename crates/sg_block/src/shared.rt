// Values that several owners share.
ghost use Rattle.std.specs.Prelude.{◌≡◌, IfOk};

use sg_device::NoMemory;
use std::alloc::Global;
use std::marker::Model;
use std::sync::Arc;

/// A value that several owners share, seen as that value.
#[derive(Drop)]
pub struct Shared<T> {
    value: Arc<T>,
}

impl<T> Model for Shared<T> {
    ghost use Rattle.std.specs.Arc.{arc_value};

    ghost Value = { T };

    ghost coded = { T.code };

    ghost view = { λ s. arc_value s.value };
}

impl<T: Drop> Shared<T> {
    pub fn new(alloc: Global, value: T) -> Result<Shared<T>, NoMemory>
        ensures { IfOk result (λ shared. shared ≡ value) }
    {
        Ok(Shared {
            value: Arc::new(alloc, value)?,
        })
    }

    pub fn share(&self) -> Result<Shared<T>, NoMemory>
        ensures { IfOk result (λ shared. shared ≡ self.now) }
    {
        Ok(Shared {
            value: Arc::try_clone(&self.value)?,
        })
    }

    pub fn value(&self) -> &T
        ensures { result.now ≡ self.now }
    {
        &self.value
    }
}
