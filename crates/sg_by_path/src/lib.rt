//! Openers of files that take texts for several open files by one call.
#![tactic(auto)]

ghost use Rattle.std.specs.Prelude.{◌≡◌, ◌≢◌, ◌<◌, [], length};
ghost use Rattle.std.specs.List.{All};
ghost use Rattle.sg_by_path.specs.Each.{SendsEach};

use sg_device::{Frames, Opener, SendRefusal};

/// An opener that takes texts for several of its open files by one call.
pub trait SendsByPath: Opener {
    /// Takes the texts in order, each for the file of the open path at its place: the number of the
    /// path among those that are open, in the order in which they were opened. A refusal took the first
    /// ones of all the texts, fewer than all, perhaps none, and never a part of one: none that stands
    /// behind the first that is refused, whatever its file. Where it is too early for the rest, nothing
    /// failed.
    fn send_each(&mut self, places: &[usize], texts: &Frames) -> Result<(), SendRefusal>
        requires many { length places.now ≡ length texts.now }
        requires some { texts.now ≢ [] }
        requires open { All (λ place. place < length (Self.state self.old).opened) places.now }
        ensures { SendsEach places.now texts.now (Self.state self.old) (Self.state self.new)
            result };
}
