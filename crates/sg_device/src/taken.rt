// How many frames an outlet has taken, as it told.
ghost use Rattle.std.specs.Prelude.{◌≡◌};
ghost use Rattle.sg_device.specs.Outlet.{count_of};

use crate::Outlet;
use std::marker::PhantomData;

/// The number of frames that an outlet of the type `O` had taken when it was asked. None is made in
/// another way, so a function that is generic in `O` tells of the outlets that it was given.
pub struct Taken<O> {
    count: u64,
    outlet: PhantomData<*const O>,
}

impl<O> Drop for Taken<O> {
    fn drop(self) {
        let Taken {
            count: _,
            outlet: _,
        } = self;
    }
}

impl<O: Outlet> Taken<O> {
    /// Asks the outlet.
    pub fn of(outlet: &O) -> Taken<O>
        ensures { count_of result ≡ (O.state outlet.now).count }
    {
        Taken {
            count: outlet.taken(),
            outlet: PhantomData,
        }
    }

    /// The number.
    pub fn count(&self) -> u64
        ensures { result ≡ count_of self.now }
    {
        self.count
    }
}
