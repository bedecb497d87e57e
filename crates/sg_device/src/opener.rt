// Where texts go whose files are named by the texts themselves.
ghost use Rattle.std.specs.Prelude.{◌≡◌, ◌≢◌, []};
ghost use Rattle.std.specs.List.{Contains};
ghost use Rattle.sg_device.specs.Paths.{PathsState, PathOpens, PathSends, PathReopens, PathCloses};

use crate::{Frames, OutletFault, Reopened, SendRefusal};

/// A taker of texts for files that are opened and closed by their paths.
pub trait Opener {
    /// The open paths, the texts taken since the opener was made, and its counts.
    ghost state: { Self → PathsState };

    /// Opens the file of a path that isn't open. A refusal leaves the open ones as they were.
    fn open(&mut self, path: &[u8]) -> Result<(), SendRefusal>
        requires { Contains (state self.old).opened path.now → ⊥ }
        ensures { PathOpens (state self.old) (state self.new) path.now result };

    /// Takes the texts in order for the file of an open path. A refusal took the first ones of them,
    /// fewer than all, perhaps none, and never a part of one. Where it is too early for the rest,
    /// nothing failed.
    fn send(&mut self, path: &[u8], texts: &Frames) -> Result<(), SendRefusal>
        requires open { Contains (state self.old).opened path.now }
        requires some { texts.now ≢ [] }
        ensures { PathSends (state self.old) (state self.new) path.now texts.now result };

    /// The number of texts taken since the opener was made.
    fn taken(&self) -> u64
        ensures { result ≡ (state self.now).count };

    /// Opens the file of an open path anew.
    fn reopen(&mut self, path: &[u8]) -> Result<Reopened, OutletFault>
        requires { Contains (state self.old).opened path.now }
        ensures { PathReopens (state self.old) (state self.new) result };

    /// Whether the file of an open path has taken nothing for so long that it is to be closed.
    fn is_unused(&mut self, path: &[u8]) -> bool
        requires { Contains (state self.old).opened path.now }
        ensures { (state self.new) ≡ (state self.old) };

    /// Closes the file of an open path. It takes no memory.
    fn close(&mut self, path: &[u8])
        requires { Contains (state self.old).opened path.now }
        ensures { PathCloses (state self.old) (state self.new) path.now };
}
