// Where frames go.
ghost use Rattle.std.specs.Prelude.{◌≡◌, ◌≢◌, []};
ghost use Rattle.sg_device.specs.Outlet.{OutletState, Sends, Reopens};

use crate::{Frames, OutletFault, SendRefusal};

/// What a reopening came to.
#[derive(Clone, Copy, PartialEq, Eq, Drop)]
pub enum Reopened {
    /// The file or the connection is open anew.
    Ready,
    /// It is too early to try. This is no fault.
    Later,
}

/// A taker of whole frames, in order.
pub trait Outlet {
    /// The frames taken since the outlet was made, and its counts.
    ghost state: { Self → OutletState };

    /// Takes the frames in order. A refusal took the first ones of them, fewer than all, perhaps
    /// none, and never a part of one. Where it is too early for the rest, nothing failed.
    fn send(&mut self, frames: &Frames) -> Result<(), SendRefusal>
        requires { frames.now ≢ [] }
        ensures { Sends (state self.old) (state self.new) frames.now result };

    /// The number of frames taken since the outlet was made.
    fn taken(&self) -> u64
        ensures { result ≡ (state self.now).count };

    /// Opens the file or the connection behind the outlet anew.
    fn reopen(&mut self) -> Result<Reopened, OutletFault>
        ensures { Reopens (state self.old) (state self.new) result };

    /// Sends on what the outlet has taken and still holds, as far as that goes now. Most outlets hold
    /// nothing.
    fn flush(&mut self)
        ensures { (state self.new) ≡ (state self.old) }
    {}
}
