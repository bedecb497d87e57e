// What real devices count. They tell nothing of content.
ghost use Rattle.std.specs.Prelude.{◌≡◌, ◌⊎◌, ◌↔◌, ◌+◌, ◌<◌, ◌≤◌, ◌^◌, ◌-◌, List, ℕ, length, Result, Ok, IfOk, IsOk, IsErr, IsTrue, OnOk};
ghost use Rattle.sg_device.specs.Outlet.{Sends, Reopens, Refuses, one_more};
ghost use Rattle.sg_device.specs.declared.inlet.Pull.{Pull as AnyPull};
ghost use Rattle.sg_device.specs.declared.inlet.Pull.TheVariants.{Bytes, Next, Idle};
ghost use Rattle.sg_device.specs.declared.fault.InletFault.{InletFault as AnyFault};
ghost use Rattle.sg_device.specs.declared.fault.SendRefusal.TheVariants.{Fault as SendFault};
ghost use Rattle.sg_file.specs.Counts.{inlet_state, new_inlet, outlet_state, new_outlet, IsAnswered};

use sg_device::{InletFault, NoMemory, OutletFault, Pull, Reopened, SendRefusal};
use std::mem;

// Places stay below this.
const PLACES: u64 = 1 << 63;

/// What an inlet counts, and the name of its present part's peer.
#[derive(Drop)]
pub struct InletCounts {
    pub peer: Vec<u8>,
    /// The place at which the reading of a part begins, in bytes.
    pub from: u64,
    /// That, and the bytes given of the present part.
    pub place: u64,
    pub bytes: u64,
    /// The pulls that didn't fail.
    pub pulls: u64,
    pub idles: u64,
    pub parts: u64,
    pub faults: u64,
    pub ended: bool,
    pub hung: bool,
    /// All bytes are one part.
    pub single: bool,
}

impl InletCounts {
    /// Of an inlet that gave nothing yet. A single one has its part, another has none.
    pub fn new(peer: Vec<u8>, from: u64, single: bool) -> InletCounts
        ensures { inlet_state result ≡ new_inlet peer.items from single }
    {
        InletCounts {
            peer,
            from,
            place: from,
            bytes: 0,
            pulls: 0,
            idles: 0,
            parts: if single { 1 } else { 0 },
            faults: 0,
            ended: false,
            hung: false,
            single,
        }
    }

    /// Equal counts.
    pub fn copy(&self) -> Result<InletCounts, NoMemory>
        ensures { IfOk result (λ copy. inlet_state copy ≡ inlet_state self.now) }
    {
        Ok(InletCounts {
            peer: self.peer.clone()?,
            from: self.from,
            place: self.place,
            bytes: self.bytes,
            pulls: self.pulls,
            idles: self.idles,
            parts: self.parts,
            faults: self.faults,
            ended: self.ended,
            hung: self.hung,
            single: self.single,
        })
    }

    /// Whether so many bytes more can be counted.
    pub fn has_room(&self, len: usize) -> bool
        ensures { IsTrue result
            → (self.now.place + len < 2 ^ 63) × (self.now.bytes + len < 2 ^ 64) }
    {
        if self.place >= PLACES || len as u64 >= PLACES - self.place {
            return false;
        }
        len as u64 <= u64::MAX - self.bytes
    }

    /// Counts what a pull came to, and answers it; or counts a fault where that can't be counted.
    /// With a new part the name becomes its peer's.
    pub fn answer(
        &mut self,
        got: Result<Pull, InletFault>,
        name: &mut Vec<u8>,
    ) -> Result<Pull, InletFault>
        ensures { IsAnswered (inlet_state self.old) (inlet_state self.new) got result }
    {
        if self.pulls == u64::MAX {
            return self.fail();
        }
        match got {
            Err(_) => self.fail(),
            Ok(Pull::Bytes { len, at }) => self.give(len, at),
            Ok(Pull::Next) => self.begin(name),
            Ok(Pull::Idle) => self.wait(),
            Ok(Pull::End) => {
                self.ended = true;
                self.pulls += 1;
                Ok(Pull::End)
            }
        }
    }

    fn fail(&mut self) -> Result<Pull, InletFault>
        ensures { (got : Result AnyPull AnyFault)
            → IsAnswered (inlet_state self.old) (inlet_state self.new) got result }
    {
        self.faults = self.faults.saturating_add(1);
        Err(InletFault)
    }

    fn give(&mut self, len: usize, at: i64) -> Result<Pull, InletFault>
        requires { self.old.pulls < 2 ^ 64 - 1 }
        ensures { IsAnswered (inlet_state self.old) (inlet_state self.new) (Ok (Bytes len at))
            result }
    {
        if self.ended || self.hung || !self.has_room(len) {
            return self.fail();
        }
        self.place += len as u64;
        self.bytes += len as u64;
        self.parts = self.parts.max(1);
        self.pulls += 1;
        Ok(Pull::Bytes { len, at })
    }

    fn begin(&mut self, name: &mut Vec<u8>) -> Result<Pull, InletFault>
        requires { self.old.pulls < 2 ^ 64 - 1 }
        ensures { IsAnswered (inlet_state self.old) (inlet_state self.new) (Ok Next) result }
    {
        if self.ended || self.single || self.parts == u64::MAX {
            return self.fail();
        }
        mem::swap(&mut self.peer, name);
        self.place = self.from;
        self.parts += 1;
        self.hung = false;
        self.pulls += 1;
        Ok(Pull::Next)
    }

    fn wait(&mut self) -> Result<Pull, InletFault>
        requires { self.old.pulls < 2 ^ 64 - 1 }
        ensures { IsAnswered (inlet_state self.old) (inlet_state self.new) (Ok Idle) result }
    {
        if self.ended || self.idles == u64::MAX {
            return self.fail();
        }
        self.idles += 1;
        self.pulls += 1;
        Ok(Pull::Idle)
    }
}

/// What an outlet counts: the frames taken, the sends and reopenings that failed, those of them
/// since a frame was taken last, and the sends and reopenings for which it was too early.
#[derive(Clone, Copy, Drop)]
pub struct OutletCounts {
    pub taken: u64,
    pub faults: u64,
    pub failing: u64,
    pub laters: u64,
}

impl OutletCounts {
    /// Of an outlet that took nothing yet.
    pub fn new() -> OutletCounts
        ensures { outlet_state result ≡ new_outlet }
    {
        OutletCounts {
            taken: 0,
            faults: 0,
            failing: 0,
            laters: 0,
        }
    }

    /// Whether so many frames more can be counted.
    pub fn has_room(&self, count: usize) -> bool
        ensures { IsTrue result ↔ (self.now.taken + count < 2 ^ 64) }
    {
        count as u64 <= u64::MAX - self.taken
    }

    /// Counts a send of `all` frames, of which the first `whole` were taken, and answers it: where
    /// those are fewer than all, by this refusal. Where they are too many to be counted, or the sends
    /// for which it was too early are, it is a fault.
    pub fn sent(
        &mut self,
        whole: usize,
        all: usize,
        refusal: SendRefusal,
    ) -> Result<(), SendRefusal>
        ensures done { all ≤ whole → self.old.taken + all < 2 ^ 64 → IsOk result }
        ensures refused { whole < all → IsErr result }
        ensures taken { whole < all → self.old.taken + all < 2 ^ 64
            → self.new.taken ≡ self.old.taken + whole }
        ensures counted { (frames : List (List ℕ)) → length frames ≡ all
            → Sends (outlet_state self.old) (outlet_state self.new) frames result }
        ensures well { OnOk result (self.new.faults ≡ self.old.faults) }
    {
        if !self.has_room(all) {
            self.fail();
            return Err(SendRefusal::Fault);
        }
        let taken = whole.min(all);
        if taken > 0 {
            self.taken += taken as u64;
            self.failing = 0;
        }
        if taken == all {
            self.failing = 0;
            return Ok(());
        }
        match refusal {
            SendRefusal::NoMemory => Err(SendRefusal::NoMemory),
            SendRefusal::Later if self.laters < u64::MAX => {
                self.laters = self.laters.saturating_add(1);
                Err(SendRefusal::Later)
            }
            _ => {
                self.fail();
                Err(SendRefusal::Fault)
            }
        }
    }

    /// Counts what a reopening came to, and answers it.
    pub fn reopened(&mut self, got: Result<Reopened, OutletFault>) -> Result<Reopened, OutletFault>
        ensures same { (result ≡ got) ⊎ IsErr result }
        ensures counted { Reopens (outlet_state self.old) (outlet_state self.new) result }
    {
        match got {
            Ok(Reopened::Ready) => Ok(Reopened::Ready),
            Ok(Reopened::Later) if self.laters < u64::MAX => {
                self.laters += 1;
                Ok(Reopened::Later)
            }
            _ => {
                self.fail();
                Err(OutletFault)
            }
        }
    }

    /// Counts a refusal that took nothing, and gives it. Where the calls for which it was too early
    /// are too many to be counted, it is a fault.
    pub fn refused(&mut self, refusal: SendRefusal) -> SendRefusal
        ensures counted { Refuses (outlet_state self.old) (outlet_state self.new) result }
        ensures same { (result ≡ refusal) ⊎ (result ≡ SendFault) }
    {
        match refusal {
            SendRefusal::NoMemory => SendRefusal::NoMemory,
            SendRefusal::Later if self.laters < u64::MAX => {
                self.laters = self.laters.saturating_add(1);
                SendRefusal::Later
            }
            _ => {
                self.fail();
                SendRefusal::Fault
            }
        }
    }

    fn fail(&mut self)
        ensures counted { self.new ≡ record self.old
            { faults = one_more self.old.faults; failing = one_more self.old.failing } }
        ensures faults { self.old.faults ≤ self.new.faults }
    {
        self.faults = self.faults.saturating_add(1);
        self.failing = self.failing.saturating_add(1);
    }
}
