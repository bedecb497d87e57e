// A machine in memory: files by name, devices over them, and the bytes said.
ghost use Rattle.std.specs.Prelude.{◌≡◌, ◌≤◌, ◌||◌, ◌++◌, ◌∷◌, [], false, is_none, MatchResult, IfOk, OnOk, OnErr};
ghost use Rattle.std.specs.Bool.{OnFalse, OnTrue};
ghost use Rattle.sg_device.specs.Faults.{Rose};
ghost use Rattle.sg_outside.specs.World.{ReadsFile, InletOpens, InletRefused, OutletOpens, OutletRefused, StoreOpens, StoreRefused, PathsOpen, PathsRefused, ClosesInlet, ClosesOutlet, ClosesStore, ClosesPaths, OnlyBuilds, Says};
ghost use Rattle.sg_memory_disk.specs.Plan.{IsFaultless, after_call, failing, fails_now};
ghost use Rattle.sg_memory_disk.specs.Stores.{store_of, at_opening as store_at_opening, any_starved, AreStoresQuiet, OpensAsPlanned};
ghost use Rattle.sg_memory.specs.Files.{file_of};
ghost use Rattle.sg_memory.specs.Inlet.{inlet_of, GoesBy};
ghost use Rattle.sg_memory.specs.Open.{feed_of, drain_of, opener_of};
ghost use Rattle.sg_memory.specs.Plans.{AreQuiet, IsOutletQuiet, IsPathsQuiet, IsFirstOutlet, IsFirstPaths, first_failing};
ghost use Rattle.sg_memory.specs.World.{world_of, new_world, opened_state, with_inlet, once_of, lacks_file, IsMemoryOpenedFor, ReadFails, OpenFails, SayFails};

use crate::cells::{
    MemoryInletCell, MemoryOutletCell, MemoryPathsCell, add_inlet, add_outlet, add_paths,
    inlet_cell, outlet_cell, paths_cell,
};
use crate::connection::parts_for;
use crate::files::find;
use crate::place::place_at;
use crate::plans::{take_inlet, take_outlet, take_paths};
use crate::{
    MemoryConnection, MemoryDrain, MemoryFeed, MemoryFile, MemoryInlet, MemoryOpenedInlet,
    MemoryOpener, MemoryOutlet, MemoryPaths, Pace, WorldPlans,
};
use sg_device::{FileRefusal, Name, NoMemory, OpenRefusal, SayRefusal};
use sg_memory_disk::{FaultPlan, MemoryStore, MemoryStores};
use sg_outside::{InletSpec, OutletSpec, StoreSpec};
use std::alloc::Global;

/// A machine in memory, which tells its files, its devices and the bytes said. No call changes a
/// file: what an outlet takes stands in the outlet.
pub struct MemoryWorld {
    files: Vec<MemoryFile>,
    /// The connections that peers make to the slots, in order.
    pub connections: Vec<MemoryConnection>,
    /// How the inlets give their bytes.
    pub pace: Pace,
    /// The calls that fail.
    pub plans: WorldPlans,
    /// The stores, and the openings and disks that fail.
    pub stores: MemoryStores,
    opened_inlets: Vec<MemoryOpenedInlet>,
    opened_outlets: Vec<OutletSpec>,
    opened_paths: Vec<OutletSpec>,
    closed_inlets: Option<Box<MemoryInletCell>>,
    closed_outlets: Option<Box<MemoryOutletCell>>,
    closed_paths: Option<Box<MemoryPathsCell>>,
    unread: Option<Name>,
    said: Vec<u8>,
    hints: Vec<u8>,
    read_faults: u64,
    inlet_faults: u64,
    outlet_faults: u64,
    paths_faults: u64,
    say_faults: u64,
    build_faults: u64,
}

impl Drop for MemoryWorld {
    fn drop(self) {
        let MemoryWorld {
            files: _files,
            connections: _connections,
            pace: _pace,
            plans: _plans,
            stores: _stores,
            opened_inlets: _opened_inlets,
            opened_outlets: _opened_outlets,
            opened_paths: _opened_paths,
            closed_inlets: _closed_inlets,
            closed_outlets: _closed_outlets,
            closed_paths: _closed_paths,
            unread: _unread,
            said: _said,
            hints: _hints,
            read_faults: _read_faults,
            inlet_faults: _inlet_faults,
            outlet_faults: _outlet_faults,
            paths_faults: _paths_faults,
            say_faults: _say_faults,
            build_faults: _build_faults,
        } = self;
    }
}

impl MemoryWorld {
    /// A machine over these files. No call fails, and nobody connects.
    pub fn new(alloc: Global, files: Vec<MemoryFile>, pace: Pace) -> MemoryWorld
        ensures made { world_of result ≡ new_world files.items }
        ensures quiet { AreQuiet result.plans }
        ensures quiet_stores { AreStoresQuiet result.stores }
    {
        MemoryWorld::failing(alloc, files, pace, WorldPlans::never(alloc))
    }

    /// A machine over these files, of which these calls fail.
    pub fn failing(
        alloc: Global,
        files: Vec<MemoryFile>,
        pace: Pace,
        plans: WorldPlans,
    ) -> MemoryWorld
        ensures made { world_of result ≡ new_world files.items }
        ensures plans { result.plans ≡ plans }
        ensures quiet_stores { AreStoresQuiet result.stores }
    {
        MemoryWorld {
            files,
            connections: Vec::new(alloc),
            pace,
            plans,
            stores: MemoryStores::new(alloc),
            opened_inlets: Vec::new(alloc),
            opened_outlets: Vec::new(alloc),
            opened_paths: Vec::new(alloc),
            closed_inlets: None,
            closed_outlets: None,
            closed_paths: None,
            unread: None,
            said: Vec::new(alloc),
            hints: Vec::new(alloc),
            read_faults: 0,
            inlet_faults: 0,
            outlet_faults: 0,
            paths_faults: 0,
            say_faults: 0,
            build_faults: 0,
        }
    }

    /// The bytes said.
    pub fn said(&self) -> &[u8]
        ensures { result.now ≡ self.now.said.items }
    {
        &self.said
    }

    /// The hints for the operator.
    pub fn hints(&self) -> &[u8]
        ensures { result.now ≡ self.now.hints.items }
    {
        &self.hints
    }

    /// The inlet closed last, with those closed before it.
    pub fn closed_inlets(&self) -> &Option<Box<MemoryInletCell>>
        ensures { result.now ≡ self.now.closed_inlets }
    {
        &self.closed_inlets
    }

    /// The outlet closed last, with those closed before it.
    pub fn closed_outlets(&self) -> &Option<Box<MemoryOutletCell>>
        ensures { result.now ≡ self.now.closed_outlets }
    {
        &self.closed_outlets
    }

    /// The opener closed last, with those closed before it.
    pub fn closed_paths(&self) -> &Option<Box<MemoryPathsCell>>
        ensures { result.now ≡ self.now.closed_paths }
    {
        &self.closed_paths
    }

    /// A whole file, which has at most so many bytes. `Failed` where there is none of this name.
    pub fn read_file(
        &mut self,
        alloc: Global,
        name: &[u8],
        limit: u64,
    ) -> Result<Vec<u8>, FileRefusal>
        ensures reads { ReadsFile (world_of self.old) (world_of self.new) name.now limit result }
        ensures fails { ReadFails
            (fails_now self.old.plans.reads || is_none (file_of self.old.files.items name.now))
            result }
        ensures plans { self.new.plans
            ≡ record self.old.plans { reads = after_call self.old.plans.reads } }
        ensures quiet { AreQuiet self.old.plans → AreQuiet self.new.plans }
    {
        let fails = self.plans.reads.next();
        let file = match find(&self.files, name) {
            Some(file) if !fails => file,
            _ => {
                self.unread = Some(Name::new(alloc, name)?);
                self.read_faults = self.read_faults.saturating_add(1);
                return Err(FileRefusal::Failed);
            }
        };
        if file.bytes.len() as u64 > limit {
            return Err(FileRefusal::TooLong);
        }
        Ok(file.bytes.to_vec(alloc)?)
    }

    /// An inlet, and the place at which it begins: a byte's number from 0. `Failed` where there is no
    /// file of this name.
    pub fn open_inlet(
        &mut self,
        alloc: Global,
        spec: &InletSpec,
        from: u64,
    ) -> Result<(MemoryFeed, u64), OpenRefusal>
        ensures opens { MatchResult result
            (λ opened. InletOpens (world_of self.old) (world_of self.new) spec.now from
            (feed_of opened.0) opened.1)
            (λ refusal. InletRefused (world_of self.old) (world_of self.new) refusal) }
        ensures fails { OpenFails
            (fails_now self.old.plans.inlet_opens || lacks_file self.old.files.items spec.now)
            result }
        ensures goes { IfOk result (λ opened. GoesBy opened.0.inlet self.old.pace (once_of spec.now)
            (first_failing self.old.plans.inlets.items)) }
        ensures quiet { AreQuiet self.old.plans → AreQuiet self.new.plans }
        ensures quiet_inlet { IfOk result
            (λ opened. AreQuiet self.old.plans → IsFaultless opened.0.inlet.plan) }
    {
        if self.plans.inlet_opens.next() || self.lacks_file(spec) {
            self.inlet_faults = self.inlet_faults.saturating_add(1);
            return Err(OpenRefusal::Failed);
        }
        let opened = self.opened_for(alloc, spec, from)?;
        let inlet = self.inlet_for(alloc, &opened)?;
        Ok(self.begin_inlet(alloc, opened, inlet)?)
    }

    // Whether a file is asked for that isn't there.
    fn lacks_file(&self, spec: &InletSpec) -> bool
        ensures { result ≡ lacks_file self.now.files.items spec.now }
    {
        match spec {
            InletSpec::File { path, .. } => find(&self.files, path.bytes()).is_none(),
            InletSpec::Slot { .. } => false,
        }
    }

    // What an inlet is opened for.
    fn opened_for(
        &self,
        alloc: Global,
        spec: &InletSpec,
        from: u64,
    ) -> Result<MemoryOpenedInlet, NoMemory>
        ensures { IfOk result (λ opened.
            IsMemoryOpenedFor self.now.files.items spec.now from opened) }
    {
        let mut place = 0;
        let mut left = Vec::new(alloc);
        if let InletSpec::File { path, limit, .. } = spec
            && let Some(file) = find(&self.files, path.bytes())
        {
            place = place_at(*limit, &file.bytes, from);
            left = file.bytes[place..].to_vec(alloc)?;
        }
        Ok(MemoryOpenedInlet {
            spec: spec.copy()?,
            from: place as u64,
            left,
        })
    }

    // An inlet at its opening, of which no call fails.
    fn inlet_for(&self, alloc: Global, opened: &MemoryOpenedInlet) -> Result<MemoryInlet, NoMemory>
        ensures state { IfOk result (λ inlet. inlet_of inlet ≡ opened_state opened.now) }
        ensures goes { IfOk result
            (λ inlet. GoesBy inlet self.now.pace (once_of opened.now.spec) []) }
    {
        let plan = FaultPlan::never(alloc);
        match &opened.spec {
            InletSpec::File { once, .. } => {
                let left = opened.left.to_vec(alloc)?;
                Ok(MemoryInlet::file(alloc, left, opened.from, self.pace, *once, plan)?)
            }
            InletSpec::Slot {
                ip,
                port,
                slot,
                once,
            } => {
                let parts = parts_for(alloc, &self.connections, ip, *port, *slot)?;
                Ok(MemoryInlet::slot(alloc, parts, self.pace, *once, plan)?)
            }
        }
    }

    // Opens an inlet of which all is known but its plan.
    fn begin_inlet(
        &mut self,
        alloc: Global,
        opened: MemoryOpenedInlet,
        mut inlet: MemoryInlet,
    ) -> Result<(MemoryFeed, u64), NoMemory>
        requires { inlet_of inlet ≡ opened_state opened }
        ensures opens { MatchResult result
            (λ feed. (world_of self.new ≡ with_inlet (world_of self.old) opened)
            × (feed_of feed.0 ≡ inlet_of inlet) × (feed.1 ≡ opened.from))
            (λ _. world_of self.new ≡ world_of self.old) }
        ensures plan { IfOk result
            (λ feed. failing feed.0.inlet.plan ≡ first_failing self.old.plans.inlets.items) }
        ensures paced { IfOk result
            (λ feed. feed.0.inlet ≡ record inlet { plan = feed.0.inlet.plan }) }
        ensures quiet { AreQuiet self.old.plans → AreQuiet self.new.plans }
        ensures quiet_inlet { IfOk result
            (λ feed. AreQuiet self.old.plans → IsFaultless feed.0.inlet.plan) }
    {
        let from = opened.from;
        let cell = inlet_cell(alloc)?;
        add_opened(&mut self.opened_inlets, opened)?;
        inlet.plan = take_inlet(alloc, &mut self.plans.inlets);
        Ok((MemoryFeed { inlet, cell }, from))
    }

    /// An outlet that takes frames.
    pub fn open_outlet(
        &mut self,
        alloc: Global,
        spec: &OutletSpec,
    ) -> Result<MemoryDrain, OpenRefusal>
        ensures opens { MatchResult result
            (λ drain. OutletOpens (world_of self.old) (world_of self.new) spec.now (drain_of drain))
            (λ refusal. OutletRefused (world_of self.old) (world_of self.new) refusal) }
        ensures fails { OpenFails (fails_now self.old.plans.outlet_opens) result }
        ensures goes { IfOk result
            (λ drain. IsFirstOutlet self.old.plans.outlets.items drain.outlet.plan) }
        ensures quiet { AreQuiet self.old.plans → AreQuiet self.new.plans }
        ensures quiet_outlet { IfOk result
            (λ drain. AreQuiet self.old.plans → IsOutletQuiet drain.outlet.plan) }
    {
        if fails_to_open(&mut self.plans.outlet_opens, &mut self.outlet_faults) {
            return Err(OpenRefusal::Failed);
        }
        let cell = outlet_cell(alloc)?;
        add_asked(&mut self.opened_outlets, spec)?;
        let plan = take_outlet(alloc, &mut self.plans.outlets);
        Ok(MemoryDrain {
            outlet: MemoryOutlet::new(alloc, plan),
            cell,
        })
    }

    /// An opener of files by their paths.
    pub fn open_paths(
        &mut self,
        alloc: Global,
        spec: &OutletSpec,
    ) -> Result<MemoryOpener, OpenRefusal>
        ensures opens { MatchResult result
            (λ opener. PathsOpen (world_of self.old) (world_of self.new) spec.now
            (opener_of opener))
            (λ refusal. PathsRefused (world_of self.old) (world_of self.new) refusal) }
        ensures fails { OpenFails (fails_now self.old.plans.paths_opens) result }
        ensures goes { IfOk result
            (λ opener. IsFirstPaths self.old.plans.paths.items opener.paths.plan) }
        ensures quiet { AreQuiet self.old.plans → AreQuiet self.new.plans }
        ensures quiet_paths { IfOk result
            (λ opener. AreQuiet self.old.plans → IsPathsQuiet opener.paths.plan) }
    {
        if fails_to_open(&mut self.plans.paths_opens, &mut self.paths_faults) {
            return Err(OpenRefusal::Failed);
        }
        let cell = paths_cell(alloc)?;
        add_asked(&mut self.opened_paths, spec)?;
        let plan = take_paths(alloc, &mut self.plans.paths);
        Ok(MemoryOpener {
            paths: MemoryPaths::new(alloc, plan),
            cell,
        })
    }

    /// Opens a store. One that is there is as it was closed, and can't be opened before that; another
    /// one comes to be with 128 zero bytes, all of them stable, where it is to be made.
    pub fn open_store(
        &mut self,
        alloc: Global,
        spec: &StoreSpec,
    ) -> Result<MemoryStore, OpenRefusal>
        ensures opens { MatchResult result
            (λ store. StoreOpens (world_of self.old) (world_of self.new) spec.now (store_of store))
            (λ refusal. StoreRefused (world_of self.old) (world_of self.new) refusal) }
        ensures state { IfOk result
            (λ store. store_of store ≡ store_at_opening self.old.stores spec.now) }
        ensures fails { OpensAsPlanned self.old.stores spec.now result }
        ensures plans { self.new.plans ≡ self.old.plans }
    {
        self.stores.open(alloc, spec)
    }

    /// Closes a store. It takes no memory.
    pub fn close_store(&mut self, store: MemoryStore)
        ensures closes { ClosesStore (world_of self.old) (world_of self.new) (store_of store) }
        ensures plans { self.new.plans ≡ self.old.plans }
    {
        self.stores.close(store);
    }

    /// Whether a disk that was closed has found no memory.
    pub fn starved(&self) -> bool
        ensures { result ≡ any_starved self.now.stores.closed }
    {
        self.stores.starved()
    }

    /// Closes an inlet. It takes no memory.
    pub fn close_inlet(&mut self, feed: MemoryFeed)
        ensures closes { ClosesInlet (world_of self.old) (world_of self.new) (feed_of feed) }
        ensures plans { self.new.plans ≡ self.old.plans }
    {
        let MemoryFeed { inlet, cell } = feed;
        add_inlet(&mut self.closed_inlets, cell, inlet);
    }

    /// Closes an outlet. It takes no memory.
    pub fn close_outlet(&mut self, drain: MemoryDrain)
        ensures closes { ClosesOutlet (world_of self.old) (world_of self.new) (drain_of drain) }
        ensures plans { self.new.plans ≡ self.old.plans }
    {
        let MemoryDrain { outlet, cell } = drain;
        add_outlet(&mut self.closed_outlets, cell, outlet);
    }

    /// Closes an opener. It takes no memory.
    pub fn close_paths(&mut self, opener: MemoryOpener)
        ensures closes { ClosesPaths (world_of self.old) (world_of self.new) (opener_of opener) }
        ensures plans { self.new.plans ≡ self.old.plans }
    {
        let MemoryOpener { paths, cell } = opener;
        add_paths(&mut self.closed_paths, cell, paths);
    }

    /// Counts the build of a pattern, and tells whether it is refused as too large.
    pub fn fails_build(&mut self) -> bool
        ensures only { OnlyBuilds (world_of self.old) (world_of self.new) }
        ensures rose { OnTrue result (Rose self.old.build_faults self.new.build_faults) }
        ensures calm { OnFalse result (self.new.build_faults ≡ self.old.build_faults) }
        ensures fails { result ≡ fails_now self.old.plans.builds }
        ensures plans { self.new.plans
            ≡ record self.old.plans { builds = after_call self.old.plans.builds } }
        ensures quiet { AreQuiet self.old.plans → AreQuiet self.new.plans }
    {
        let fails = self.plans.builds.next();
        if fails {
            self.build_faults = self.build_faults.saturating_add(1);
        }
        fails
    }

    /// Counts a pattern that was refused as too large.
    pub fn refuse_build(&mut self)
        ensures only { OnlyBuilds (world_of self.old) (world_of self.new) }
        ensures rose { Rose self.old.build_faults self.new.build_faults }
        ensures plans { self.new.plans ≡ self.old.plans }
    {
        self.build_faults = self.build_faults.saturating_add(1);
    }

    /// Says the bytes. On a refusal nothing was said.
    pub fn say(&mut self, bytes: &[u8]) -> Result<(), SayRefusal>
        ensures says { Says (world_of self.old) (world_of self.new) bytes.now result }
        ensures fails { SayFails (fails_now self.old.plans.says) result }
        ensures plans { self.new.plans
            ≡ record self.old.plans { says = after_call self.old.plans.says } }
        ensures quiet { AreQuiet self.old.plans → AreQuiet self.new.plans }
    {
        if self.plans.says.next() {
            self.say_faults = self.say_faults.saturating_add(1);
            return Err(SayRefusal::Fault);
        }
        self.said.extend_from_slice(bytes)?;
        Ok(())
    }

    /// Counts a question for the time, and tells whether something is due.
    pub fn is_due(&mut self) -> bool
        ensures same { world_of self.new ≡ world_of self.old }
        ensures due { result ≡ fails_now self.old.plans.dues }
        ensures plans { self.new.plans
            ≡ record self.old.plans { dues = after_call self.old.plans.dues } }
        ensures quiet { AreQuiet self.old.plans → AreQuiet self.new.plans }
    {
        self.plans.dues.next()
    }

    /// Keeps a hint for the operator, where there is memory for it.
    pub fn tell(&mut self, bytes: &[u8])
        ensures same { world_of self.new ≡ world_of self.old }
        ensures plans { self.new.plans ≡ self.old.plans }
    {
        let _ = self.hints.extend_from_slice(bytes);
    }
}

// One opened inlet more.
fn add_opened(opened: &mut Vec<MemoryOpenedInlet>, inlet: MemoryOpenedInlet) -> Result<(), NoMemory>
    ensures ok { OnOk result (opened.new.items ≡ opened.old.items ++ inlet ∷ []) }
    ensures err { OnErr result (opened.new.items ≡ opened.old.items) }
{
    opened.push(inlet)?;
    Ok(())
}

// Counts an opening, and its fault where it fails.
fn fails_to_open(plan: &mut FaultPlan, faults: &mut u64) -> bool
    ensures fails { result ≡ fails_now plan.old }
    ensures plan { plan.new ≡ after_call plan.old }
    ensures kept { result ≡ false → faults.new ≡ faults.old }
    ensures later { faults.old ≤ faults.new }
    ensures rose { OnTrue result (Rose faults.old faults.new) }
{
    let fails = plan.next();
    if fails {
        *faults = faults.saturating_add(1);
    }
    fails
}

// One opening more that was asked for.
fn add_asked(opened: &mut Vec<OutletSpec>, spec: &OutletSpec) -> Result<(), NoMemory>
    ensures ok { OnOk result (opened.new.items ≡ opened.old.items ++ spec.now ∷ []) }
    ensures err { OnErr result (opened.new.items ≡ opened.old.items) }
{
    opened.push(spec.copy()?)?;
    Ok(())
}
