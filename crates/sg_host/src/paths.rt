// Files that are opened and closed by their paths.
ghost use Rattle.std.specs.Prelude.{◌≡◌, ◌<◌, ◌+◌, [], ◌++◌, length, take, drop, IfOk, OnOk, OnErr, MatchOption, MatchResult};
ghost use Rattle.sg_outside.specs.World.{with_closed, IsByPath};
ghost use Rattle.sg_device.specs.Outlet.{Refuses};
ghost use Rattle.sg_device.specs.Paths.{KeepsPaths, counts_of, without_path};
ghost use Rattle.sg_host.specs.Counts.{paths_state, new_paths, OpensToo, SameCounts};
ghost use Rattle.sg_host.specs.Paths.{opener_of, paths_of, HostPathsOpen, PathsRefuse};

use crate::cells::{HostPathsCell, add_paths, paths_cell};
use crate::grouped::Grouped;
use sg_by_path::SendsByPath;
use sg_device::{Frames, Name, OpenRefusal, Opener, OutletFault, Reopened, SendRefusal};
use sg_file::{Appending, Health, IdleWait, OutletCounts, Retry, Target};
use sg_outside::OutletSpec;
use std::alloc::Global;
use std::time::Instant;

/// What an opener counts, and the paths that are open.
#[derive(Drop)]
pub struct PathCounts {
    /// The paths of the open files, in the order in which they were opened.
    pub opened: Vec<Name>,
    /// The texts taken, and the calls that failed or for which it was too early.
    pub calls: OutletCounts,
}

impl PathCounts {
    /// Of an opener that has opened nothing yet.
    pub fn new(alloc: Global) -> PathCounts
        ensures { paths_state result ≡ new_paths }
    {
        PathCounts {
            opened: Vec::new(alloc),
            calls: OutletCounts::new(),
        }
    }

    // Counts a refusal to open a file, and gives it.
    fn refused(&mut self, refusal: SendRefusal) -> SendRefusal
        ensures keeps { KeepsPaths (paths_state self.old) (paths_state self.new) }
        ensures counted { Refuses (counts_of (paths_state self.old))
            (counts_of (paths_state self.new)) result }
    {
        self.calls.refused(refusal)
    }
}

// An open file, and when it was opened or took something last.
#[derive(Drop)]
struct OpenFile {
    target: Target,
    used: Option<Instant>,
    // A number made of the bytes of its path, by which it is found.
    mark: u64,
}

// A number made of the bytes of a path.
fn mark_of(path: &[u8]) -> u64 {
    let mut mark: u64 = 0;
    for byte in path {
        mark = mark.wrapping_mul(31).wrapping_add(u64::from(*byte));
    }
    mark
}

impl OpenFile {
    // Appends the texts, and tells how many of them count.
    fn put(&mut self, rt: HostRuntime, texts: &Frames) -> usize {
        let whole = self.target.put(texts);
        if whole > 0 {
            self.used = Instant::now(&rt).ok();
        }
        whole
    }

    // Whether it took nothing for so many seconds.
    fn is_unused(&self, rt: HostRuntime, seconds: u32) -> bool {
        let Some(used) = self.used else {
            return false;
        };
        match used.elapsed(&rt) {
            Ok(since) => since.as_secs() >= u64::from(seconds),
            Err(_) => false,
        }
    }
}

// The path that couldn't be opened last, and its health, so that this is told once.
#[derive(Drop)]
struct Missed {
    path: Name,
    retry: Retry,
    health: Option<Health>,
}

/// The files that an opener has open. Each file is appended to by one write for all its texts of a send.
/// A path that can't be opened is tried again once in `time-reopen()` seconds.
#[derive(Drop)]
pub struct OpenedFiles {
    alloc: Global,
    rt: HostRuntime,
    rest: IdleWait,
    how: Appending,
    // The seconds after which a file is closed that took nothing, 0 where none is.
    reap: u32,
    counts: PathCounts,
    // The files, in the order of their paths.
    files: Vec<OpenFile>,
    grouped: Grouped,
    missed: Option<Missed>,
}

/// An opener of files, with the memory for its closing.
#[derive(Drop)]
pub struct HostOpener {
    opened: OpenedFiles,
    cell: Box<HostPathsCell>,
}

// The number of the first of the paths that is this one.
fn find(paths: &[Name], path: &[u8]) -> Option<usize>
    ensures { MatchOption result
        (without_path path.now paths.now ≡ paths.now)
        (λ i. (i < length paths.now) × (without_path path.now paths.now ≡ take i paths.now
        ++ drop (i + 1) paths.now)) }
{
    for i in 0..paths.len() {
        if paths[i].bytes() == path {
            return Some(i);
        }
    }
    None
}

// Takes a path out of the list, and tells its number.
fn take_out(paths: &mut Vec<Name>, path: &[u8]) -> Option<usize>
    ensures { paths.new.items ≡ without_path path.now paths.old.items }
{
    let i = find(paths, path)?;
    paths.remove(i);
    Some(i)
}

// The place that all of them are, where there is one.
fn same_place(places: &[usize]) -> Option<usize> {
    let first = places.first()?;
    if places.iter().all(|place| *place == *first) {
        Some(*first)
    } else {
        None
    }
}

impl HostOpener {
    /// What was counted so far.
    pub fn counts(&self) -> &PathCounts
        ensures { paths_state result.now ≡ opener_of self.now }
    {
        &self.opened.counts
    }
}

impl OpenedFiles {
    // Whether it is too early for another try to open the file of a path.
    fn is_early(&self, path: &[u8]) -> bool {
        match &self.missed {
            Some(missed) => missed.path.bytes() == path && missed.retry.is_early(),
            None => false,
        }
    }

    // The file of this path couldn't be opened now.
    fn miss(&mut self, path: Name, health: Option<Health>)
        ensures { self.new.counts ≡ self.old.counts }
    {
        let mut retry = Retry::new(self.rt, self.how.reopen);
        retry.begin();
        self.missed = Some(Missed {
            path,
            retry,
            health,
        });
    }

    // The health of a path that couldn't be opened when it was tried last.
    fn take_health(&mut self, path: &[u8]) -> Option<Health>
        ensures { self.new.counts ≡ self.old.counts }
    {
        let missed = self.missed.as_mut()?;
        if missed.path.bytes() == path {
            missed.health.take()
        } else {
            None
        }
    }

    // Opens the file of a path, and puts it behind the others.
    fn add(&mut self, path: &[u8]) -> Result<(), SendRefusal>
        ensures ok { OnOk result (OpensToo self.old.counts self.new.counts path.now) }
        ensures err { OnErr result (SameCounts self.old.counts self.new.counts) }
    {
        if self.is_early(path) {
            self.rest.wait();
            return Err(SendRefusal::Later);
        }
        let name = Name::new(self.alloc, path)?;
        let rest = self.rest.share()?;
        let mut health = self.take_health(path);
        match Target::open_again(self.alloc, self.rt, path, self.how, rest, &mut health) {
            Ok(target) => self.push(name, target),
            Err(OpenRefusal::NoMemory) => Err(SendRefusal::NoMemory),
            Err(OpenRefusal::Failed) => {
                self.miss(name, health);
                Err(SendRefusal::Fault)
            }
        }
    }

    fn push(&mut self, name: Name, target: Target) -> Result<(), SendRefusal>
        ensures ok { OnOk result (OpensToo self.old.counts self.new.counts name) }
        ensures err { OnErr result (SameCounts self.old.counts self.new.counts) }
    {
        let file = OpenFile {
            target,
            used: Instant::now(&self.rt).ok(),
            mark: mark_of(name.bytes()),
        };
        if self.files.push(file).is_err() {
            return Err(SendRefusal::NoMemory);
        }
        if self.counts.opened.push(name).is_err() {
            drop(self.files.pop());
            return Err(SendRefusal::NoMemory);
        }
        Ok(())
    }

    // The number of the open file of a path.
    fn place_of(&self, path: &[u8]) -> Option<usize> {
        let mark = mark_of(path);
        let place = self.files.iter().position(|file| file.mark == mark)?;
        match self.counts.opened.get(place) {
            Some(name) if name.bytes() == path => Some(place),
            _ => find(&self.counts.opened, path),
        }
    }

    // Appends the texts to the file of a path, where so many can be counted, and tells how many of them
    // count.
    fn put(&mut self, path: &[u8], texts: &Frames) -> usize
        ensures { self.new.counts ≡ self.old.counts }
    {
        if !self.counts.calls.has_room(texts.len()) {
            return 0;
        }
        let Some(i) = self.place_of(path) else {
            return 0;
        };
        self.put_at(i, texts)
    }

    // Appends the texts to the file of this number, and tells how many of them count.
    fn put_at(&mut self, file: usize, texts: &Frames) -> usize
        ensures { self.new.counts ≡ self.old.counts }
    {
        match self.files.get_mut(file) {
            Some(open) => open.put(self.rt, texts),
            None => 0,
        }
    }

    // Appends each text to the file of its place, where so many can be counted. It tells how many of the
    // first texts count, and why those behind them don't.
    fn put_each(&mut self, places: &[usize], texts: &Frames) -> (usize, SendRefusal)
        ensures { self.new.counts ≡ self.old.counts }
    {
        if !self.counts.calls.has_room(texts.len()) {
            return (0, SendRefusal::Fault);
        }
        if let Some(file) = same_place(places) {
            return (self.put_at(file, texts), SendRefusal::Fault);
        }
        if self.grouped.begin(places, texts, self.files.len()).is_err() {
            return (0, SendRefusal::NoMemory);
        }
        let ended = self.put_groups(places, texts);
        self.take_back(places, texts, ended.0);
        ended
    }

    // Appends to one file after another, to each the texts in front of the first that was refused.
    fn put_groups(&mut self, places: &[usize], texts: &Frames) -> (usize, SendRefusal)
        ensures { self.new.counts ≡ self.old.counts }
    {
        let mut ended = (texts.len(), SendRefusal::Fault);
        for number in 0..places.len() {
            let file = places[number];
            if number < ended.0
                && self.grouped.is_first(number, file)
                && let Some(refused) = self.put_group(texts, file, ended.0)
            {
                ended = refused;
            }
        }
        ended
    }

    // Appends those texts to a file that have a number below this one. It tells the number of the first
    // that is refused, and why.
    fn put_group(
        &mut self,
        texts: &Frames,
        file: usize,
        below: usize,
    ) -> Option<(usize, SendRefusal)>
        ensures { self.new.counts ≡ self.old.counts }
    {
        if self.grouped.gather(texts, file, below).is_err() {
            return Some((self.grouped.number_behind(file, 0), SendRefusal::NoMemory));
        }
        let count = match self.files.get_mut(file) {
            Some(open) => open.put(self.rt, &self.grouped.texts),
            None => 0,
        };
        self.grouped.was_appended(file, count);
        if count < self.grouped.texts.len() {
            return Some((self.grouped.number_behind(file, count), SendRefusal::Fault));
        }
        None
    }

    // Cuts those files back that have appended texts behind the first `whole` ones.
    fn take_back(&mut self, places: &[usize], texts: &Frames, whole: usize)
        ensures { self.new.counts ≡ self.old.counts }
    {
        if whole >= texts.len() {
            return;
        }
        for number in 0..places.len() {
            let file = places[number];
            if self.grouped.is_first(number, file)
                && let Some(keep) = self.grouped.kept(texts, file, whole)
            {
                self.cut(file, keep);
            }
        }
    }

    // Cuts a file back to the first `keep` bytes of what was appended last.
    fn cut(&mut self, file: usize, keep: usize)
        ensures { self.new.counts ≡ self.old.counts }
    {
        if let Some(open) = self.files.get_mut(file) {
            open.target.take_back(keep);
        }
    }

    // Whether the file of a path is one to be closed, since it took nothing for so long.
    fn is_unused(&self, path: &[u8]) -> bool {
        if self.reap == 0 {
            return false;
        }
        let Some(i) = self.place_of(path) else {
            return false;
        };
        match self.files.get(i) {
            Some(file) => file.is_unused(self.rt, self.reap),
            None => false,
        }
    }

    fn open_anew(&mut self, path: &[u8]) -> Result<Reopened, OutletFault>
        ensures { self.new.counts ≡ self.old.counts }
    {
        let Some(i) = self.place_of(path) else {
            return Err(OutletFault);
        };
        match self.files.get_mut(i) {
            Some(file) => file.target.reopen(),
            None => Err(OutletFault),
        }
    }
}

impl Opener for HostOpener {
    ghost state = { opener_of };

    fn open(&mut self, path: &[u8]) -> Result<(), SendRefusal> {
        match self.opened.add(path) {
            Ok(()) => Ok(()),
            Err(refusal) => Err(self.opened.counts.refused(refusal)),
        }
    }

    fn send(&mut self, path: &[u8], texts: &Frames) -> Result<(), SendRefusal> {
        let whole = self.opened.put(path, texts);
        self.opened
            .counts
            .calls
            .sent(whole, texts.len(), SendRefusal::Fault)
    }

    fn taken(&self) -> u64 {
        self.opened.counts.calls.taken
    }

    fn reopen(&mut self, path: &[u8]) -> Result<Reopened, OutletFault> {
        let got = self.opened.open_anew(path);
        self.opened.counts.calls.reopened(got)
    }

    fn is_unused(&mut self, path: &[u8]) -> bool {
        self.opened.is_unused(path)
    }

    fn close(&mut self, path: &[u8]) {
        if let Some(i) = take_out(&mut self.opened.counts.opened, path) {
            if i < self.opened.files.len() {
                self.opened.files.remove(i);
            }
        }
    }
}

impl SendsByPath for HostOpener {
    fn send_each(&mut self, places: &[usize], texts: &Frames) -> Result<(), SendRefusal> {
        let (whole, refusal) = self.opened.put_each(places, texts);
        self.opened.counts.calls.sent(whole, texts.len(), refusal)
    }
}

/// The openers opened, those closed, and the number of openings that failed.
pub struct HostPaths {
    rt: HostRuntime,
    rest: IdleWait,
    opened: Vec<OutletSpec>,
    closed: Option<Box<HostPathsCell>>,
    pub faults: u64,
}

impl Drop for HostPaths {
    fn drop(self) {
        let HostPaths {
            rt: _rt,
            rest: _rest,
            opened: _opened,
            closed: _closed,
            faults: _faults,
        } = self;
    }
}

impl HostPaths {
    /// None was opened yet.
    pub fn new(alloc: Global, rt: HostRuntime, rest: IdleWait) -> HostPaths
        ensures none { paths_of result ≡ record { opened = []; closed = [] } }
        ensures faults { result.faults ≡ 0 }
    {
        HostPaths {
            rt,
            rest,
            opened: Vec::new(alloc),
            closed: None,
            faults: 0,
        }
    }

    /// Opens an opener of files by their paths.
    pub fn open(&mut self, alloc: Global, spec: &OutletSpec) -> Result<HostOpener, OpenRefusal>
        ensures { MatchResult result
            (λ opener. HostPathsOpen self.old self.new spec.now (opener_of opener))
            (λ refusal. PathsRefuse self.old self.new refusal) }
    {
        let OutletSpec::ByPath {
            fsync,
            mode,
            folders,
            reopen,
            reap,
        } = spec
        else {
            self.faults = self.faults.saturating_add(1);
            return Err(OpenRefusal::Failed);
        };
        let opened = OpenedFiles {
            alloc,
            rt: self.rt,
            rest: self.rest.share()?,
            how: Appending {
                fsync: *fsync,
                mode: *mode,
                folders: *folders,
                reopen: *reopen,
            },
            reap: *reap,
            counts: PathCounts::new(alloc),
            files: Vec::new(alloc),
            grouped: Grouped::new(alloc),
            missed: None,
        };
        let opener = HostOpener {
            opened,
            cell: paths_cell(alloc)?,
        };
        if self.opened.push(spec.copy()?).is_err() {
            return Err(OpenRefusal::NoMemory);
        }
        Ok(opener)
    }

    /// Closes an opener, and its files. It takes no memory.
    pub fn close(&mut self, opener: HostOpener)
        ensures closed { paths_of self.new ≡ with_closed (paths_of self.old) (opener_of opener) }
        ensures faults { self.new.faults ≡ self.old.faults }
    {
        let HostOpener { opened, cell } = opener;
        let OpenedFiles { counts, .. } = opened;
        add_paths(&mut self.closed, cell, counts);
    }
}
