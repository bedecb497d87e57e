// An outlet that holds frames back while another can't take them.
ghost use Rattle.std.specs.Prelude.{◌≡◌, ◌≢◌, ◌≤◌, ◌-◌, ◌^◌, min, [], IfOk, IfErr, true};
ghost use Rattle.sg_device.specs.Outlet.{IsUnusedOutlet, Sends};
ghost use Rattle.sg_overflow.specs.View.{outlet_of, held_count, IsHeldTold, IsWithinMemory};
ghost use Rattle.sg_overflow.specs.Line.{Lasts, Accepts, Forwards, HasSendCause};
ghost use Rattle.sg_overflow.specs.Opening.{IsOpened, HasReason};
ghost use Rattle.sg_overflow.specs.Finishing.{Finishes};

use crate::forwarder::Forwarder;
use crate::loading::open_held;
use crate::tally::OutletTally;
use crate::{Finished, Limits};
use sg_device::{Disk, Frames, NoMemory, Outlet, OutletFault, Reopened, SendRefusal};
use sg_stable::StoreRefusal;
use std::alloc::Global;
use std::marker::Model;

/// An outlet round another one. While that one can't take frames they are held, in memory and, beyond its
/// limit, in a store, and go out in order before any new one. What is in memory is lost by a crash.
pub struct Overflow<O: Outlet, D: Disk> {
    alloc: Global,
    line: Forwarder<O, D>,
    tally: OutletTally,
}

impl<O: Outlet, D: Disk> Model for Overflow<O, D> {
    ghost use Rattle.sg_overflow.specs.View.{OverflowView, IsOverflowSound};

    ghost Value = { OverflowView O D };

    ghost view = { λ v. record {
      inner = v.line.inner;
      held = v.line.held;
      reopens = v.line.reopens;
      tally = v.tally;
    } };

    ghost invariant = { λ v. IsOverflowSound O.state D.state (record {
      inner = v.line.inner;
      held = v.line.held;
      reopens = v.line.reopens;
      tally = v.tally;
    }) };
}

impl<O: Outlet, D: Disk> Overflow<O, D> {
    /// Over an outlet that took nothing yet, and a store. The frames that stand there are held. A payload
    /// that isn't the byte 3 and a frame is damage at its gate. A refusal gives both back.
    pub fn open(
        alloc: Global,
        inner: O,
        disk: D,
        limits: Limits,
    ) -> Result<Overflow<O, D>, (O, D, StoreRefusal)>
        requires fresh { IsUnusedOutlet (O.state inner) }
        requires capacity { limits.capacity ≤ 2 ^ 30 }
        ensures opened { IfOk result (IsOpened O.state D.state disk) }
        ensures limits { IfOk result (λ overflow. overflow.held.limits ≡ limits) }
        ensures inner { IfOk result (λ overflow. overflow.inner ≡ inner) }
        ensures back { IfErr result (λ e. e.0 ≡ inner) }
        ensures reason { IfErr result (λ e. HasReason (D.state disk) (D.state e.1) e.2) }
    {
        match open_held(alloc, disk, limits) {
            Err((disk, refusal)) => Err((inner, disk, refusal)),
            Ok(held) => {
                let loaded = held.count();
                let line = Forwarder {
                    inner,
                    held,
                    reopens: false,
                };
                Ok(Overflow {
                    alloc,
                    line,
                    tally: OutletTally::fresh(loaded),
                })
            }
        }
    }

    /// The number of frames that are held.
    pub fn held(&self) -> u64
        ensures count { result ≡ min (held_count self.now.held) (2 ^ 64 - 1) }
        ensures told { IsHeldTold D.state self.now.held }
        ensures memory { IsWithinMemory self.now.held }
    {
        self.line.held.count()
    }

    /// Whether the store has failed since the opening.
    pub fn failed(&self) -> bool
        ensures { result ≡ self.now.held.store.closed }
    {
        self.line.held.failed()
    }

    /// Forwards held frames where there are any, up to 10,000.
    pub fn forward(&mut self)
        ensures forwards { Forwards O.state D.state self.old self.new }
        ensures lasts { Lasts O.state D.state self.old self.new }
        ensures stays { outlet_of O.state D.state self.new ≡ outlet_of O.state D.state self.old }
    {
        self.line.forward_some(self.alloc);
    }

    /// Forwards all that is held, and puts what the outlet inside doesn't take into the store. Without
    /// memory it has done what it could.
    pub fn finish(&mut self) -> Result<Finished, NoMemory>
        ensures forwards { Forwards O.state D.state self.old self.new }
        ensures lasts { Lasts O.state D.state self.old self.new }
        ensures stays { outlet_of O.state D.state self.new ≡ outlet_of O.state D.state self.old }
        ensures finished { IfOk result (Finishes O.state D.state self.old self.new) }
    {
        self.line.finish(self.alloc)
    }

    /// Gives the outlet inside and the disk back, as they are.
    pub fn into_parts(self) -> (O, D)
        ensures inner { result.0 ≡ self.inner }
        ensures disk { result.1 ≡ self.held.store.disk }
    {
        let Overflow {
            alloc: _,
            line,
            tally: _,
        } = self;
        let Forwarder {
            inner,
            held,
            reopens: _,
        } = line;
        (inner, held.into_disk())
    }
}

impl<O: Outlet, D: Disk> Outlet for Overflow<O, D> {
    ghost use Rattle.sg_overflow.specs.View.{outlet_of};

    ghost state = { outlet_of O.state D.state };

    /// First the held frames go out, up to 10,000, and more while there is no room for all that come; where
    /// nothing is held then, those that come are sent. What the outlet inside doesn't take
    /// now is kept, in memory, and the oldest frames beyond its limit go to the store with one commit. The
    /// first frame for which there is no room ends it: as a fault where the outlet inside or the store
    /// failed, and as too early where that was too early.
    fn send(&mut self, frames: &Frames) -> Result<(), SendRefusal>
        requires { frames.now ≢ [] }
        ensures sends { Sends (outlet_of O.state D.state self.old)
            (outlet_of O.state D.state self.new) frames.now result }
        ensures accepts { Accepts O.state D.state frames.now self.old self.new }
        ensures lasts { Lasts O.state D.state self.old self.new }
        ensures cause { HasSendCause O.state D.state self.old self.new result }
        ensures refused { self.old.held.store.closed ≡ true → self.new.inner ≡ self.old.inner }
    {
        let _empty = self.line.held.is_empty();
        let number = frames.len();
        if !self.tally.can_count(number as u64) {
            return Err(SendRefusal::NoMemory);
        }
        if self.line.held.failed() {
            let failed = self.tally.after_send(0, Err(SendRefusal::Fault));
            self.tally = failed;
            return Err(SendRefusal::Fault);
        }
        let done = self.line.accept(self.alloc, frames);
        let taken = done.count as u64;
        if done.count < number {
            let refusal = done.stop.refusal();
            let partial = self.tally.after_send(taken, Err(refusal));
            self.tally = partial;
            return Err(refusal);
        }
        let whole = self.tally.after_send(taken, Ok(()));
        self.tally = whole;
        Ok(())
    }

    fn taken(&self) -> u64 {
        self.tally.count
    }

    fn reopen(&mut self) -> Result<Reopened, OutletFault> {
        let _empty = self.line.held.is_empty();
        if !self.tally.can_count(0) {
            return Ok(Reopened::Ready);
        }
        match self.line.inner.reopen() {
            Ok(Reopened::Ready) => {
                self.line.reopens = false;
                Ok(Reopened::Ready)
            }
            Ok(Reopened::Later) => {
                self.tally = self.tally.after_later();
                Ok(Reopened::Later)
            }
            Err(fault) => {
                self.line.reopens = true;
                self.tally = self.tally.after_fault();
                Err(fault)
            }
        }
    }

    fn flush(&mut self) {
        self.forward();
    }
}
