// An opener of files in memory by their paths.
ghost use Rattle.std.specs.Prelude.{◌≡◌, ◌≢◌, ◌≤◌, ◌<◌, ◌+◌, ◌-◌, [], ◌∷◌, ◌++◌, Ok, length, map, take, get_or, OnOk, OnErr};
ghost use Rattle.std.specs.List.{All, Contains};
ghost use Rattle.sg_by_path.specs.Each.{SendsEach, under_places};
ghost use Rattle.sg_device.specs.Paths.{PathOpens, PathSends, PathReopens, PathCloses, under_path, without_path};
ghost use Rattle.sg_device.specs.declared.outlet.Reopened.TheVariants.{Ready};
ghost use Rattle.sg_memory.specs.Paths.{text_of, without_at};

use crate::PathsPlan;
use sg_by_path::SendsByPath;
use sg_device::{Frames, Name, NoMemory, Opener, OutletFault, Reopened, SendRefusal};
use std::alloc::{AllocError, Global};

/// A text that was taken, and the path of its file.
#[derive(Drop)]
pub struct TakenText {
    pub path: Name,
    pub text: Vec<u8>,
}

/// An opener that keeps the texts it takes, and tells them.
pub struct MemoryPaths {
    alloc: Global,
    opened: Vec<Name>,
    taken: Vec<TakenText>,
    /// The calls that fail, and those that are too early.
    pub plan: PathsPlan,
    faults: u64,
    failing: u64,
    laters: u64,
}

impl Drop for MemoryPaths {
    fn drop(self) {
        let MemoryPaths {
            alloc: _alloc,
            opened: _opened,
            taken: _taken,
            plan: _plan,
            faults: _faults,
            failing: _failing,
            laters: _laters,
        } = self;
    }
}

impl MemoryPaths {
    ghost use Rattle.sg_memory.specs.Paths.{paths_of, new_paths, TakesUnder, TakesEach};
    ghost use Rattle.sg_memory.specs.Scripts.{ReopensBy};

    /// An opener with no open file.
    pub fn new(alloc: Global, plan: PathsPlan) -> MemoryPaths
        ensures opened { paths_of result ≡ new_paths }
        ensures plan { result.plan ≡ plan }
    {
        MemoryPaths {
            alloc,
            opened: Vec::new(alloc),
            taken: Vec::new(alloc),
            plan,
            faults: 0,
            failing: 0,
            laters: 0,
        }
    }

    /// The paths of the open files, the latest last.
    pub fn opened(&self) -> &[Name]
        ensures { result.now ≡ self.now.opened.items }
    {
        &self.opened
    }

    /// The texts taken, in order.
    pub fn texts(&self) -> &[TakenText]
        ensures { result.now ≡ self.now.taken.items }
    {
        &self.taken
    }

    // Counts an opening or a reopening, and tells whether it fails or is too early.
    fn begin(&mut self) -> Result<Reopened, OutletFault>
        ensures counted { PathReopens (paths_of self.old) (paths_of self.new) result }
        ensures fails { ReopensBy self.old.plan.calls self.old.laters result }
        ensures ready { result ≡ Ok Ready → paths_of self.new ≡ paths_of self.old }
    {
        let later = self.plan.calls.laters.next();
        if self.plan.calls.fails.next() || (later && self.laters == u64::MAX) {
            self.faults = self.faults.saturating_add(1);
            self.failing = self.failing.saturating_add(1);
            return Err(OutletFault);
        }
        if later {
            self.laters += 1;
            return Ok(Reopened::Later);
        }
        Ok(Reopened::Ready)
    }

    // Takes the first texts, fewer only where memory runs out, and says how many.
    fn take_texts(&mut self, path: &[u8], texts: &Frames, wanted: usize) -> usize
        requires { wanted ≤ length texts.now }
        ensures took { TakesUnder path.now texts.now result (paths_of self.old)
            (paths_of self.new) }
        ensures bound { result ≤ wanted }
    {
        let count = take_first(self.alloc, &mut self.taken, path, texts, wanted);
        if count > 0 {
            self.failing = 0;
        }
        count
    }

    // Takes the texts that a send takes before it fails or is too early, and says how many.
    fn take_some(&mut self, path: &[u8], texts: &Frames) -> usize
        requires { texts.now ≢ [] }
        ensures took { TakesUnder path.now texts.now result (paths_of self.old)
            (paths_of self.new) }
        ensures some { result < length texts.now }
    {
        let wanted = self.plan.calls.first.min(texts.len() - 1);
        self.take_texts(path, texts, wanted)
    }

    // The same two of texts for several files.
    fn take_each(&mut self, places: &[usize], texts: &Frames, wanted: usize) -> usize
        requires many { length places.now ≡ length texts.now }
        requires open { All (λ place. place < length self.old.opened.items) places.now }
        requires few { wanted ≤ length texts.now }
        ensures took { TakesEach places.now texts.now result (paths_of self.old)
            (paths_of self.new) }
        ensures bound { result ≤ wanted }
    {
        let count = each_first(
            self.alloc,
            &mut self.taken,
            &self.opened,
            places,
            texts,
            wanted,
        );
        if count > 0 {
            self.failing = 0;
        }
        count
    }

    fn take_some_each(&mut self, places: &[usize], texts: &Frames) -> usize
        requires many { length places.now ≡ length texts.now }
        requires open { All (λ place. place < length self.old.opened.items) places.now }
        requires some { texts.now ≢ [] }
        ensures took { TakesEach places.now texts.now result (paths_of self.old)
            (paths_of self.new) }
        ensures some { result < length texts.now }
    {
        let wanted = self.plan.calls.first.min(texts.len() - 1);
        self.take_each(places, texts, wanted)
    }
}

impl Opener for MemoryPaths {
    ghost use Rattle.sg_memory.specs.Paths.{paths_of};
    ghost use Rattle.sg_memory.specs.Scripts.{OpensBy, SendsByScript, ReopensBy};
    ghost use Rattle.sg_memory_disk.specs.Plan.{fails_now};

    ghost state = { paths_of };

    fn open(&mut self, path: &[u8]) -> Result<(), SendRefusal>
        requires { Contains (paths_of self.old).opened path.now → ⊥ }
        ensures opens { PathOpens (paths_of self.old) (paths_of self.new) path.now result }
        ensures fails { OpensBy self.old.plan.calls self.old.laters result }
    {
        match self.begin() {
            Ok(Reopened::Ready) => {}
            Ok(Reopened::Later) => return Err(SendRefusal::Later),
            Err(_) => return Err(SendRefusal::Fault),
        }
        let path = Name::new(self.alloc, path)?;
        if self.opened.push(path).is_err() {
            return Err(SendRefusal::NoMemory);
        }
        Ok(())
    }

    fn send(&mut self, path: &[u8], texts: &Frames) -> Result<(), SendRefusal>
        requires open { Contains (paths_of self.old).opened path.now }
        requires some { texts.now ≢ [] }
        ensures sends { PathSends (paths_of self.old) (paths_of self.new) path.now texts.now
            result }
        ensures fails { SendsByScript self.old.plan.calls self.old.laters result }
    {
        match self.plan.calls.next_send(self.laters) {
            Ok(Reopened::Ready) => {
                if self.take_texts(path, texts, texts.len()) < texts.len() {
                    return Err(SendRefusal::NoMemory);
                }
                Ok(())
            }
            Ok(Reopened::Later) => {
                let _count = self.take_some(path, texts);
                self.laters += 1;
                Err(SendRefusal::Later)
            }
            Err(_) => {
                let _count = self.take_some(path, texts);
                self.faults = self.faults.saturating_add(1);
                self.failing = self.failing.saturating_add(1);
                Err(SendRefusal::Fault)
            }
        }
    }

    fn taken(&self) -> u64 {
        self.taken.len() as u64
    }

    fn reopen(&mut self, path: &[u8]) -> Result<Reopened, OutletFault>
        requires { Contains (paths_of self.old).opened path.now }
        ensures reopens { PathReopens (paths_of self.old) (paths_of self.new) result }
        ensures fails { ReopensBy self.old.plan.calls self.old.laters result }
    {
        self.begin()
    }

    fn is_unused(&mut self, path: &[u8]) -> bool
        requires { Contains (paths_of self.old).opened path.now }
        ensures same { paths_of self.new ≡ paths_of self.old }
        ensures unused { result ≡ fails_now self.old.plan.unused }
    {
        self.plan.unused.next()
    }

    fn close(&mut self, path: &[u8])
        requires { Contains (paths_of self.old).opened path.now }
        ensures { PathCloses (paths_of self.old) (paths_of self.new) path.now }
    {
        take_out(&mut self.opened, path);
    }
}

impl SendsByPath for MemoryPaths {
    ghost use Rattle.sg_memory.specs.Paths.{paths_of};
    ghost use Rattle.sg_memory.specs.Scripts.{SendsByScript};

    fn send_each(&mut self, places: &[usize], texts: &Frames) -> Result<(), SendRefusal>
        requires many { length places.now ≡ length texts.now }
        requires some { texts.now ≢ [] }
        requires open { All (λ place. place < length (paths_of self.old).opened) places.now }
        ensures sends { SendsEach places.now texts.now (paths_of self.old) (paths_of self.new)
            result }
        ensures fails { SendsByScript self.old.plan.calls self.old.laters result }
    {
        match self.plan.calls.next_send(self.laters) {
            Ok(Reopened::Ready) => {
                if self.take_each(places, texts, texts.len()) < texts.len() {
                    return Err(SendRefusal::NoMemory);
                }
                Ok(())
            }
            Ok(Reopened::Later) => {
                let _count = self.take_some_each(places, texts);
                self.laters += 1;
                Err(SendRefusal::Later)
            }
            Err(_) => {
                let _count = self.take_some_each(places, texts);
                self.faults = self.faults.saturating_add(1);
                self.failing = self.failing.saturating_add(1);
                Err(SendRefusal::Fault)
            }
        }
    }
}

// Takes a text for the file of a path.
fn push_text(
    alloc: Global,
    taken: &mut Vec<TakenText>,
    path: &[u8],
    text: &[u8],
) -> Result<(), NoMemory>
    ensures ok { OnOk result (map text_of taken.new.items ≡ map text_of taken.old.items
        ++ (record { path = path.now; text = text.now }) ∷ []) }
    ensures counted { OnOk result (length taken.new.items ≡ length taken.old.items + 1) }
    ensures err { OnErr result (taken.new.items ≡ taken.old.items) }
{
    let text = TakenText {
        path: Name::new(alloc, path)?,
        text: text.to_vec(alloc)?,
    };
    if taken.push(text).is_err() {
        return Err(AllocError);
    }
    Ok(())
}

// Takes the first texts for the file of a path, fewer only where memory runs out, and says how many.
fn take_first(
    alloc: Global,
    taken: &mut Vec<TakenText>,
    path: &[u8],
    texts: &Frames,
    wanted: usize,
) -> usize
    requires { wanted ≤ length texts.now }
    ensures taken { map text_of taken.new.items
        ≡ map text_of taken.old.items ++ under_path path.now
        (take (length taken.new.items - length taken.old.items) texts.now) }
    ensures counted { length taken.new.items ≡ length taken.old.items + result }
    ensures bound { result ≤ wanted }
{
    let mut rest = texts.bytes();
    let mut count = 0;
    for size in &texts.sizes()[..wanted] {
        let (text, behind) = rest.split_at(*size);
        if push_text(alloc, taken, path, text).is_err() {
            return count;
        }
        rest = behind;
        count += 1;
    }
    count
}

// The path of the text of this number.
fn path_at<'a>(opened: &'a [Name], places: &[usize], number: usize) -> &'a [u8]
    requires inside { number < length places.now }
    requires open { All (λ place. place < length opened.now) places.now }
    ensures { result.now ≡ get_or opened.now (get_or places.now number 0) [] }
{
    opened[places[number]].bytes()
}

// Takes the first texts, each for the file of its path, fewer only where memory runs out, and says how
// many.
fn each_first(
    alloc: Global,
    taken: &mut Vec<TakenText>,
    opened: &[Name],
    places: &[usize],
    texts: &Frames,
    wanted: usize,
) -> usize
    requires many { length places.now ≡ length texts.now }
    requires open { All (λ place. place < length opened.now) places.now }
    requires few { wanted ≤ length texts.now }
    ensures taken { map text_of taken.new.items
        ≡ map text_of taken.old.items
        ++ take (length taken.new.items - length taken.old.items)
        (under_places opened.now places.now texts.now) }
    ensures counted { length taken.new.items ≡ length taken.old.items + result }
    ensures bound { result ≤ wanted }
{
    let mut rest = texts.bytes();
    let mut count = 0;
    for size in &texts.sizes()[..wanted] {
        let (text, behind) = rest.split_at(*size);
        let path = path_at(opened, places, count);
        if push_text(alloc, taken, path, text).is_err() {
            return count;
        }
        rest = behind;
        count += 1;
    }
    count
}

// Takes the first name of these bytes out. It takes no memory.
fn take_out(names: &mut Vec<Name>, path: &[u8])
    ensures { names.new.items ≡ without_path path.now names.old.items }
{
    let place = place_of(names, path);
    if place < names.len() {
        let _ = names.remove(place);
    }
}

// The place of the first name of these bytes, or the number of names where there is none.
fn place_of(names: &[Name], path: &[u8]) -> usize
    ensures within { result ≤ length names.now }
    ensures place { without_path path.now names.now ≡ without_at result names.now }
{
    let mut place = 0;
    for name in names {
        if name.bytes() == path {
            return place;
        }
        place += 1;
    }
    place
}
