// The paths that are open, and when each was used last.
ghost use Rattle.std.specs.Prelude.{◌≡◌, ◌<◌, ◌≤◌, ◌+◌, ◌-◌, [], ◌∷◌, ◌++◌, length, take, drop, slice_index_or, bytes_eq, MatchOption, IfSome, IsTrue, OnOk, OnErr};
ghost use Rattle.std.specs.List.{Contains};
ghost use Rattle.sg_dynfile.specs.Tracks.{IsPlaceOf, StandsAt};

use sg_device::{Name, NoMemory};
use std::alloc::Global;

/// The paths of the open files, in the order in which they were opened, and their uses.
pub struct OpenPaths {
    pub alloc: Global,
    pub names: Vec<Name>,
    /// How many files are open at most.
    pub held: u32,
    // When each of them was used last, in uses of all.
    uses: Vec<u64>,
    // A number made of the bytes of each, by which it is found.
    marks: Vec<u64>,
    // The uses of all so far.
    count: u64,
    // The place of the path that was used last.
    last: usize,
}

impl Drop for OpenPaths {
    fn drop(self) {
        let OpenPaths {
            alloc: _alloc,
            names: _names,
            held: _held,
            uses: _uses,
            marks: _marks,
            count: _count,
            last: _last,
        } = self;
    }
}

fn is_same(path: &[u8], other: &[u8]) -> bool
    ensures { result ≡ bytes_eq path.now other.now }
{
    path == other
}

// A number made of the bytes of a path.
fn mark_of(path: &[u8]) -> u64 {
    let mut mark: u64 = 0;
    for byte in path {
        mark = mark.wrapping_mul(31).wrapping_add(u64::from(*byte));
    }
    mark
}

// The first place of a path.
pub(crate) fn place_of(names: &[Name], path: &[u8]) -> Option<usize>
    ensures { MatchOption result (Contains names.now path.now → ⊥)
        (IsPlaceOf path.now names.now) }
{
    for i in 0..names.len() {
        if is_same(names[i].bytes(), path) {
            return Some(i);
        }
    }
    None
}

impl OpenPaths {
    /// None is open.
    pub(crate) fn new(alloc: Global, held: u32) -> OpenPaths
        ensures none { result.names.items ≡ [] }
        ensures held { result.held ≡ held }
    {
        OpenPaths {
            alloc,
            names: Vec::new(alloc),
            held,
            uses: Vec::new(alloc),
            marks: Vec::new(alloc),
            count: 0,
            last: 0,
        }
    }

    // Whether the path stands at this place.
    fn is_at(&self, place: usize, path: &[u8]) -> bool
        ensures { IsTrue result → StandsAt path.now self.now.names.items place }
    {
        match self.names.get(place) {
            Some(name) => name.bytes() == path,
            None => false,
        }
    }

    // The place of the path, where no other one before it has its mark.
    fn marked(&self, path: &[u8]) -> Option<usize>
        ensures { IfSome result (StandsAt path.now self.now.names.items) }
    {
        let mark = mark_of(path);
        let place = self.marks.iter().position(|other| *other == mark)?;
        if self.is_at(place, path) {
            Some(place)
        } else {
            None
        }
    }

    // The place of the path, where it is open.
    fn find(&self, path: &[u8]) -> Option<usize>
        ensures { MatchOption result (Contains self.now.names.items path.now → ⊥)
            (StandsAt path.now self.now.names.items) }
    {
        if self.is_at(self.last, path) {
            return Some(self.last);
        }
        if let Some(place) = self.marked(path) {
            return Some(place);
        }
        place_of(&self.names, path)
    }

    /// The place of the path, where it is open. It counts as used now.
    pub(crate) fn place_used(&mut self, path: &[u8]) -> Option<usize>
        ensures names { self.new.names ≡ self.old.names }
        ensures held { self.new.held ≡ self.old.held }
        ensures place { MatchOption result (Contains self.old.names.items path.now → ⊥)
            (StandsAt path.now self.old.names.items) }
    {
        let Some(place) = self.find(path) else {
            return None;
        };
        self.use_now(place);
        Some(place)
    }

    /// The path of the text of this number counts as used now, by the places of the texts' paths.
    pub(crate) fn use_of(&mut self, places: &[usize], number: u64)
        ensures names { self.new.names ≡ self.old.names }
        ensures held { self.new.held ≡ self.old.held }
    {
        if let Some(place) = places.get(number as usize) {
            self.use_now(*place);
        }
    }

    // The path at this place counts as used now.
    fn use_now(&mut self, place: usize)
        ensures names { self.new.names ≡ self.old.names }
        ensures held { self.new.held ≡ self.old.held }
    {
        self.last = place;
        self.count = self.count.saturating_add(1);
        if let Some(used) = self.uses.get_mut(place) {
            *used = self.count;
        }
    }

    /// The path that was used last, where it is open.
    pub(crate) fn latest(&self) -> Option<&[u8]>
        ensures { IfSome result (λ path. Contains self.now.names.items path.now) }
    {
        let name = self.names.get(self.last)?;
        Some(name.bytes())
    }

    // When the path at this place was used last.
    fn used(&self, place: usize) -> u64 {
        match self.uses.get(place) {
            Some(used) => *used,
            None => 0,
        }
    }

    /// The place of the path whose last use lies farthest back.
    pub(crate) fn oldest(&self) -> usize
        requires { 0 < length self.now.names.items }
        ensures { result < length self.now.names.items }
    {
        let mut oldest = 0;
        let mut first = u64::MAX;
        for place in 0..self.names.len() {
            let used = self.used(place);
            if used < first {
                oldest = place;
                first = used;
            }
        }
        oldest
    }

    /// Puts a path behind the others. It counts as used now.
    pub(crate) fn push(&mut self, path: &[u8]) -> Result<(), NoMemory>
        ensures ok { OnOk result
            (self.new.names.items ≡ self.old.names.items ++ path.now ∷ []) }
        ensures err { OnErr result (self.new.names.items ≡ self.old.names.items) }
        ensures held { self.new.held ≡ self.old.held }
    {
        let name = Name::new(self.alloc, path)?;
        self.uses.reserve(1)?;
        self.marks.reserve(1)?;
        self.names.push(name)?;
        let _ = self.uses.push(self.count);
        let _ = self.marks.push(mark_of(path));
        let place = self.names.len() - 1;
        self.use_now(place);
        Ok(())
    }

    /// Takes out the path at this place.
    pub(crate) fn remove(&mut self, place: usize)
        requires { place < length self.old.names.items }
        ensures names { self.new.names.items ≡ take place self.old.names.items
            ++ drop (place + 1) self.old.names.items }
        ensures held { self.new.held ≡ self.old.held }
    {
        self.names.remove(place);
        if place < self.uses.len() {
            self.uses.remove(place);
        }
        if place < self.marks.len() {
            self.marks.remove(place);
        }
        self.last = usize::MAX;
    }
}
