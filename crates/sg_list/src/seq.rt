// A list of values.
ghost use Rattle.std.specs.Prelude.{◌≡◌, ◌<◌, ◌==◌, List, ◌∷◌, ◌++◌, [], length, slice_get, option_copied, Some, IfOk, OnOk, OnErr};
ghost use Rattle.std.specs.Borrow.{sem};

use std::alloc::{AllocError, Global};
use std::marker::Model;

/// A list of values, which contracts see as that list, whatever memory it holds.
#[derive(Drop)]
pub struct Seq<T> {
    held: Vec<T>,
}

impl<T> Model for Seq<T> {
    ghost Value = { List T };

    ghost view = { λ s. s.held.items };
}

impl<T> Seq<T> {
    ghost use Rattle.sg_list.specs.Lending.{LendsItem};

    /// The list of these values. Takes no memory.
    pub fn new(held: Vec<T>) -> Self
        ensures { result ≡ held.items }
    {
        Seq { held }
    }

    /// A list of nothing. Takes no memory until the first push.
    pub fn empty(alloc: Global) -> Self
        ensures { result ≡ [] }
    {
        Seq {
            held: Vec::new(alloc),
        }
    }

    /// The values, as a vector. Takes no memory.
    pub fn into_vec(self) -> Vec<T>
        ensures { result.items ≡ self }
    {
        let Seq { held } = self;
        held
    }

    pub fn as_slice(&self) -> &[T]
        ensures { result.now ≡ self.now }
    {
        self.held.as_slice()
    }

    pub fn len(&self) -> usize
        ensures { result ≡ length self.now }
    {
        self.held.len()
    }

    pub fn is_empty(&self) -> bool
        ensures { result ≡ (length self.now == 0) }
    {
        self.held.is_empty()
    }

    /// The value at that place, counted from 0.
    pub fn get(&self, place: usize) -> Option<&T>
        ensures { option_copied result ≡ slice_get self.now place }
    {
        self.held.get(place)
    }

    /// The value at a place that the list has.
    pub fn at(&self, place: usize) -> &T
        requires { place < length self.now }
        ensures { slice_get self.now place ≡ Some result.now }
    {
        &self.held[place]
    }

    /// The value at a place that the list has, to be changed. The others stay as they are.
    pub fn at_mut(&mut self, place: usize) -> &mut T
        requires { place < length self.old }
        ensures* writes_back { sem 𝓛 (LendsItem T.row self.entry place result) }
        ensures value { slice_get self.old place ≡ Some result.now }
    {
        &mut self.held[place]
    }

    /// Puts the value at the end. Where memory runs out the list stays as it was.
    pub fn push(&mut self, item: T) -> Result<(), AllocError>
    where
        T: Drop,
        ensures ok { OnOk result (self.new ≡ self.old ++ item ∷ []) }
        ensures err { OnErr result (self.new ≡ self.old) }
    {
        self.held.push(item)?;
        Ok(())
    }

    /// Takes the first value off. The others move up, in time in proportion to their number.
    pub fn remove_first(&mut self) -> T
        requires { 0 < length self.old }
        ensures { self.old ≡ result ∷ self.new }
    {
        self.held.remove(0)
    }
}

impl<T: Copy> Seq<T> {
    /// Puts copies of these values at the end. Where memory runs out the list stays as it was.
    pub fn extend_from_slice(&mut self, items: &[T]) -> Result<(), AllocError>
        ensures ok { OnOk result (self.new ≡ self.old ++ items.now) }
        ensures err { OnErr result (self.new ≡ self.old) }
    {
        self.held.extend_from_slice(items)
    }

    /// Another list of the same values.
    pub fn copy(&self) -> Result<Seq<T>, AllocError>
        ensures { IfOk result (λ copy. copy ≡ self.now) }
    {
        Ok(Seq {
            held: Vec::from_slice(*self.held.allocator(), &self.held)?,
        })
    }
}
