// The frames in memory.
ghost use Rattle.std.specs.Prelude.{◌≡◌, ◌≤◌, ◌<◌, ◌+◌, ◌-◌, ◌^◌, [], ◌∷◌, ◌++◌, length, take, drop, slice_get, Some, None, OnOk, OnErr, IfOk, MatchOption};
ghost use Rattle.sg_overflow.specs.Memory.{size_of};

use sg_device::{Frames, Name, NoMemory};
use std::alloc::Global;
use std::collections::VecDeque;
use std::marker::Model;

/// Frames in memory, the oldest first.
#[derive(Drop)]
pub struct Memory {
    frames: VecDeque<Name>,
    size: u64,
}

impl Model for Memory {
    ghost use Rattle.std.specs.Prelude.{◌≡◌, List, ℕ};
    ghost use Rattle.sg_overflow.specs.Memory.{size_of};

    ghost Value = { List (List ℕ) };

    ghost view = { λ m. m.frames.items };

    ghost invariant = { λ m. m.size ≡ size_of m.frames.items };
}

impl Memory {
    // Nothing. It takes no memory.
    pub(crate) fn new(alloc: Global) -> Memory
        ensures { result ≡ [] }
    {
        Memory {
            frames: VecDeque::new(alloc),
            size: 0,
        }
    }

    pub(crate) fn len(&self) -> usize
        ensures { result ≡ length self.now }
    {
        self.frames.len()
    }

    // The bytes that the frames take as entries of the store.
    pub(crate) fn size(&self) -> u64
        ensures { result ≡ size_of self.now }
    {
        self.size
    }

    pub(crate) fn push(&mut self, alloc: Global, frame: &[u8]) -> Result<(), NoMemory>
        requires { size_of self.old + length frame.now + 6 ≤ 2 ^ 62 }
        ensures ok { OnOk result (self.new ≡ self.old ++ frame.now ∷ []) }
        ensures err { OnErr result (self.new ≡ self.old) }
    {
        let copy = Name::new(alloc, frame)?;
        self.frames.reserve(1)?;
        self.frames.push_back_reserved(copy);
        self.size += frame.len() as u64 + 6;
        Ok(())
    }

    // Takes the first frame out, where there is one.
    fn remove_one(&mut self)
        ensures { self.new ≡ drop 1 self.old }
    {
        if let Some(frame) = self.frames.pop_front() {
            self.size -= frame.bytes().len() as u64 + 6;
        }
    }

    // Takes the last frame out, where there is one.
    fn cut_one(&mut self)
        ensures { self.new ≡ take (length self.old - 1) self.old }
    {
        if let Some(frame) = self.frames.pop_back() {
            self.size -= frame.bytes().len() as u64 + 6;
        }
    }

    // Takes the first frames out, so many or all.
    pub(crate) fn remove_first(&mut self, n: usize)
        ensures { self.new ≡ drop n self.old }
    {
        for _turn in 0..n {
            self.remove_one();
        }
    }

    // Keeps the first frames, so many.
    pub(crate) fn truncate(&mut self, n: usize)
        ensures { self.new ≡ take n self.old }
    {
        for _turn in 0..self.frames.len().saturating_sub(n) {
            self.cut_one();
        }
    }

    // The frame at this place.
    pub(crate) fn get(&self, place: usize) -> Option<&[u8]>
        ensures { MatchOption result (slice_get self.now place ≡ None)
            (λ frame. slice_get self.now place ≡ Some frame.now) }
    {
        let frame = self.frames.get(place)?;
        Some(frame.bytes())
    }

    // The first frames, so many at most.
    pub(crate) fn first(&self, alloc: Global, most: usize) -> Result<Frames, NoMemory>
        ensures { IfOk result (λ frames. frames ≡ take most self.now) }
    {
        let mut frames = Frames::new(alloc);
        for place in 0..most {
            let Some(frame) = self.get(place) else {
                return Ok(frames);
            };
            frames.push(frame)?;
        }
        Ok(frames)
    }
}
