// The machine around the daemon.
ghost use Rattle.std.specs.Prelude.{◌≡◌, MatchResult};
ghost use Rattle.sg_outside.specs.World.{InletOpens, InletRefused, OutletOpens, OutletRefused, StoreOpens, StoreRefused, PathsOpen, PathsRefused, ClosesInlet, ClosesOutlet, ClosesStore, ClosesPaths, Says, IsByPath};

use sg_by_path::SendsByPath;
use sg_device::{Disk, Inlet, OpenRefusal, Outlet, SayRefusal};
use sg_outside::{Files, InletSpec, OutletSpec, StoreSpec};
use sg_pattern::Builder;
use std::alloc::Global;

/// The bytes of the longest file of a configuration.
pub const LONGEST: u64 = 1_048_576;

/// A machine: it reads files, makes patterns, opens and closes devices, and says text to the operator. What it holds
/// is its `state` as `Machine`: the files, the devices that were opened and closed, the bytes said,
/// and the counts of faults. Its devices may cross threads.
pub trait World: Files + Builder {
    type Feed: Inlet + Send;

    type Drain: Outlet + Send;

    type Store: Disk + Send;

    type Paths: SendsByPath + Send;

    /// Opens a store. Where its file is missing and is to be made, it comes to be with 128 zero
    /// bytes, all of them stable.
    fn open_store(&mut self, alloc: Global, spec: &StoreSpec) -> Result<Self::Store, OpenRefusal>
        ensures { MatchResult result
            (λ store. StoreOpens (Self.state self.old) (Self.state self.new) spec.now
            (Self.Store.state store))
            (λ refusal. StoreRefused (Self.state self.old) (Self.state self.new) refusal) };

    /// Opens an inlet for reading from a place on, in bytes, and answers the place from which it
    /// gives. A file is read from its beginning where it is shorter, or where no record can have
    /// ended at that place.
    fn open_inlet(
        &mut self,
        alloc: Global,
        spec: &InletSpec,
        from: u64,
    ) -> Result<(Self::Feed, u64), OpenRefusal>
        ensures { MatchResult result
            (λ opened. InletOpens (Self.state self.old) (Self.state self.new) spec.now from
            (Self.Feed.state opened.0) opened.1)
            (λ refusal. InletRefused (Self.state self.old) (Self.state self.new) refusal) };

    /// Opens an outlet for one file or one connection.
    fn open_outlet(&mut self, alloc: Global, spec: &OutletSpec) -> Result<Self::Drain, OpenRefusal>
        requires { IsByPath spec.now → ⊥ }
        ensures { MatchResult result
            (λ drain. OutletOpens (Self.state self.old) (Self.state self.new) spec.now
            (Self.Drain.state drain))
            (λ refusal. OutletRefused (Self.state self.old) (Self.state self.new) refusal) };

    /// Opens an opener of files by their paths.
    fn open_paths(&mut self, alloc: Global, spec: &OutletSpec) -> Result<Self::Paths, OpenRefusal>
        requires { IsByPath spec.now }
        ensures { MatchResult result
            (λ opener. PathsOpen (Self.state self.old) (Self.state self.new) spec.now
            (Self.Paths.state opener))
            (λ refusal. PathsRefused (Self.state self.old) (Self.state self.new) refusal) };

    /// Closes a store. It takes no memory.
    fn close_store(&mut self, store: Self::Store)
        ensures { ClosesStore (Self.state self.old) (Self.state self.new)
            (Self.Store.state store) };

    /// Closes an inlet. It takes no memory.
    fn close_inlet(&mut self, feed: Self::Feed)
        ensures { ClosesInlet (Self.state self.old) (Self.state self.new) (Self.Feed.state feed) };

    /// Closes an outlet. It takes no memory.
    fn close_outlet(&mut self, drain: Self::Drain)
        ensures { ClosesOutlet (Self.state self.old) (Self.state self.new)
            (Self.Drain.state drain) };

    /// Closes an opener, and the files that are open. It takes no memory.
    fn close_paths(&mut self, opener: Self::Paths)
        ensures { ClosesPaths (Self.state self.old) (Self.state self.new)
            (Self.Paths.state opener) };

    /// Says bytes to the operator, all of them or, on a refusal, nothing that is claimed.
    fn say(&mut self, alloc: Global, bytes: &[u8]) -> Result<(), SayRefusal>
        ensures { Says (Self.state self.old) (Self.state self.new) bytes.now result };

    /// Writes a hint for the operator, as an excerpt of a configuration's line. Nothing is claimed of
    /// it but that it changes nothing else.
    fn tell(&mut self, bytes: &[u8])
        ensures { Self.state self.new ≡ Self.state self.old };

    /// Whether so many seconds have passed since it answered true last, or since the machine was made.
    /// Nothing is claimed of it but that it changes nothing else.
    fn is_due(&mut self, seconds: u32) -> bool
        ensures { Self.state self.new ≡ Self.state self.old };

    /// The time, in microseconds since 1970; 0 where the machine doesn't know it.
    fn clock(&self) -> i64;
}
