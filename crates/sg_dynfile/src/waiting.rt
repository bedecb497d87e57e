// Texts on their way to their files.
ghost use Rattle.std.specs.Prelude.{◌≡◌, [], ◌∷◌, ◌++◌, OnOk, IfErr};
ghost use Rattle.sg_device.specs.declared.fault.SendRefusal.TheVariants.{NoMemory as SendNoMemory};

use sg_device::{Frames, NoMemory, SendRefusal};
use std::alloc::Global;

/// The texts that wait to be sent, and of each the place of its path among those that are open.
#[derive(Drop)]
pub struct Waiting {
    pub places: Vec<usize>,
    pub texts: Frames,
}

impl Waiting {
    /// None waits.
    pub(crate) fn new(alloc: Global) -> Waiting {
        Waiting {
            places: Vec::new(alloc),
            texts: Frames::new(alloc),
        }
    }

    /// None waits any longer. The memory stays.
    pub(crate) fn clear(&mut self)
        ensures places { self.new.places.items ≡ [] }
        ensures texts { self.new.texts ≡ [] }
    {
        self.places.clear();
        self.texts.clear();
    }

    /// Puts a text behind those that wait, for the file whose path stands at this place.
    pub(crate) fn push(&mut self, place: usize, text: &[u8]) -> Result<(), SendRefusal>
        ensures places { OnOk result
            (self.new.places.items ≡ self.old.places.items ++ place ∷ []) }
        ensures texts { OnOk result (self.new.texts ≡ self.old.texts ++ text.now ∷ []) }
        ensures starved { IfErr result (λ refusal. refusal ≡ SendNoMemory) }
    {
        push_place(&mut self.places, place)?;
        self.texts.push(text)?;
        Ok(())
    }
}

fn push_place(places: &mut Vec<usize>, place: usize) -> Result<(), NoMemory>
    ensures { OnOk result (places.new.items ≡ places.old.items ++ place ∷ []) }
{
    places.push(place)?;
    Ok(())
}
