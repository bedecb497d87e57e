// An outlet that tells a count.
ghost use Rattle.std.specs.Prelude.{◌≡◌};
ghost use Rattle.sg_device.specs.Outlet.{count_of};

use sg_device::{Frames, Outlet, OutletFault, Reopened, SendRefusal, Taken};

/// It took so many frames, and takes no more.
#[derive(Drop)]
pub struct Teller {
    count: u64,
}

impl Outlet for Teller {
    ghost use Rattle.std.specs.Prelude.{None};

    ghost state = { λ told. record {
      taken = None;
      count = told.count;
      faults = 0;
      failing = 0;
      laters = 0;
    } };

    fn send(&mut self, _frames: &Frames) -> Result<(), SendRefusal> {
        Err(SendRefusal::NoMemory)
    }

    fn taken(&self) -> u64 {
        self.count
    }

    fn reopen(&mut self) -> Result<Reopened, OutletFault> {
        Ok(Reopened::Ready)
    }
}

/// What an outlet tells that took so many frames.
pub fn told(count: u64) -> Taken<Teller>
    ensures { count_of result ≡ count }
{
    Taken::of(&Teller { count })
}
