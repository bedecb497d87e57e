// Laws. The function here does nothing: its contract is a law.
ghost use Rattle.std.specs.Prelude.{◌≡◌, ℕ, List, ◌++◌, Some};
ghost use Rattle.sg_overflow.specs.View.{loaded_of, taken_of, held_of};

use crate::Overflow;
use sg_device::{Disk, Outlet};

/// What the store held at the opening, and behind it what was taken, is what the outlet inside took, and
/// behind it what is held.
pub fn lists_add_up<O: Outlet, D: Disk>(overflow: &Overflow<O, D>)
    ensures { (loaded taken forwarded held : List (List ℕ))
        → loaded_of O.state D.state overflow.now ≡ Some loaded
        → taken_of O.state D.state overflow.now ≡ Some taken
        → (O.state overflow.now.inner).taken ≡ Some forwarded
        → held_of D.state overflow.now.held ≡ Some held → loaded ++ taken ≡ forwarded ++ held }
{}
