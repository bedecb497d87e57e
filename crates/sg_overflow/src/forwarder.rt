// The outlet inside, and the frames that are held for it.
ghost use Rattle.std.specs.Prelude.{◌≡◌, ◌≢◌, ◌≤◌, ◌<◌, ℕ, [], length, Err, IfOk};
ghost use Rattle.sg_overflow.specs.Finishing.{StopsAllOf, FinishesOf};
ghost use Rattle.sg_overflow.specs.Held.{StopCause};
ghost use Rattle.sg_overflow.specs.Line.{ForwardsBy, MovesLine, HasSendCauseOf};
ghost use Rattle.sg_overflow.specs.Stops.{refusal_of};
ghost use Rattle.sg_overflow.specs.View.{held_count, IsWithinMemory};
ghost use Rattle.sg_overflow.specs.declared.step.Stop.TheVariants.{Open};

use crate::forwarding::{MOST, SendProgress, forward_batch, forward_for, send};
use crate::held::Held;
use crate::keeping::keep_rest;
use crate::{Finished, Stop};
use sg_device::{Disk, Frames, NoMemory, Outlet, Reopened};
use std::alloc::{AllocError, Global};

/// An outlet, and the frames that are held for it.
pub(crate) struct Forwarder<O: Outlet, D: Disk> {
    pub(crate) inner: O,
    pub(crate) held: Held<D>,
    /// The last call of the outlet failed.
    pub(crate) reopens: bool,
}

impl<O: Outlet, D: Disk> Forwarder<O, D> {
    // Opens the outlet anew, where its last call failed.
    fn reopen_inner(&mut self) -> Stop
        ensures forwards { ForwardsBy D.state (O.state self.old.inner) (O.state self.new.inner)
            self.old.held self.new.held }
        ensures cause { StopCause (O.state self.old.inner) (O.state self.new.inner)
            self.new.held.store.closed result }
        ensures held { self.new.held ≡ self.old.held }
    {
        let _empty = self.held.is_empty();
        if !self.reopens {
            return Stop::Open;
        }
        match self.inner.reopen() {
            Ok(Reopened::Ready) => {
                self.reopens = false;
                Stop::Open
            }
            Ok(Reopened::Later) => Stop::Later,
            Err(_) => Stop::Outlet,
        }
    }

    // Forwards one batch, behind a reopening where the last call failed.
    fn forward_once(&mut self, alloc: Global) -> Stop
        ensures forwards { ForwardsBy D.state (O.state self.old.inner) (O.state self.new.inner)
            self.old.held self.new.held }
        ensures cause { StopCause (O.state self.old.inner) (O.state self.new.inner)
            self.new.held.store.closed result }
        ensures fewer { result ≡ Open → 1 ≤ held_count self.old.held
            → held_count self.new.held < held_count self.old.held }
    {
        let begun = self.reopen_inner();
        if !begun.is_open() {
            return begun;
        }
        let stop = forward_batch(alloc, &mut self.inner, &mut self.held);
        self.reopens = stop == Stop::Outlet;
        stop
    }

    /// Forwards held frames where there are any, up to 10,000.
    pub(crate) fn forward_some(&mut self, alloc: Global)
        ensures { ForwardsBy D.state (O.state self.old.inner) (O.state self.new.inner)
            self.old.held self.new.held }
    {
        let _empty = self.held.is_empty();
        for _turn in 0..MOST {
            if self.held.is_empty() {
                return;
            }
            let stop = self.forward_once(alloc);
            if !stop.is_open() {
                return;
            }
        }
    }

    // Forwards held frames until none is left, the outlet fails or waits three times with no send between that
    // took all it was given, the store has failed, or there is no memory.
    fn forward_all(&mut self, alloc: Global) -> Stop
        ensures forwards { ForwardsBy D.state (O.state self.old.inner) (O.state self.new.inner)
            self.old.held self.new.held }
        ensures cause { StopsAllOf (O.state self.old.inner) (O.state self.new.inner) self.new.held
            result }
    {
        let mut empty = self.held.is_empty();
        let mut refusals: u8 = 0;
        'turns: while !empty {
            let stop = self.forward_once(alloc);
            let left = self.held.is_empty();
            empty = left;
            if stop.is_open() {
                refusals = 0;
                continue;
            }
            if !stop.is_refused() {
                return stop;
            }
            refusals += 1;
            if refusals == 3 {
                return stop;
            }
        }
        Stop::Open
    }

    /// Forwards all that is held, and puts what the outlet doesn't take into the store. Without memory it has done
    /// what it could.
    pub(crate) fn finish(&mut self, alloc: Global) -> Result<Finished, NoMemory>
        ensures forwards { ForwardsBy D.state (O.state self.old.inner) (O.state self.new.inner)
            self.old.held self.new.held }
        ensures finished { IfOk result (FinishesOf D.state (O.state self.old.inner)
            (O.state self.new.inner) self.old.held self.new.held) }
    {
        let stop = self.forward_all(alloc);
        let moved = self.held.spill(alloc, 0);
        if self.held.is_empty() {
            return Ok(Finished::Empty);
        }
        if self.held.failed() {
            return Ok(Finished::Store);
        }
        if !moved.is_open() {
            return Err(AllocError);
        }
        if !stop.is_refused() {
            return Err(AllocError);
        }
        Ok(Finished::Outlet)
    }

    // Forwards held frames before new ones, up to 10,000, and more while there is no room for those; and then
    // sends the new ones, where nothing is held.
    fn forward_before(&mut self, alloc: Global, frames: &Frames) -> SendProgress
        requires { frames.now ≢ [] }
        ensures passes { (forwarded : ℕ) × MovesLine D.state frames.now result.count forwarded
            (O.state self.old.inner) (O.state self.new.inner) self.old.held self.new.held }
        ensures cause { StopCause (O.state self.old.inner) (O.state self.new.inner)
            self.new.held.store.closed result.stop }
        ensures few { result.count ≤ length frames.now }
        ensures memory { IsWithinMemory self.old.held → IsWithinMemory self.new.held }
    {
        let begun = self.reopen_inner();
        if !begun.is_open() {
            return SendProgress {
                count: 0,
                stop: begun,
            };
        }
        let number = frames.len() as u64;
        let size = number
            .saturating_mul(6)
            .saturating_add(frames.bytes().len() as u64);
        let stop = forward_for(alloc, &mut self.inner, &mut self.held, size);
        self.reopens = stop == Stop::Outlet;
        let goes = stop.is_open();
        if !goes {
            return SendProgress { count: 0, stop };
        }
        if !self.held.is_empty() {
            return SendProgress { count: 0, stop };
        }
        let sent = send(&mut self.inner, frames);
        self.reopens = sent.stop == Stop::Outlet;
        sent
    }

    /// Takes new frames: sends them where nothing is held then, and keeps the others. Tells how many are taken,
    /// and why no more.
    pub(crate) fn accept(&mut self, alloc: Global, frames: &Frames) -> SendProgress
        requires some { frames.now ≢ [] }
        requires memory { IsWithinMemory self.old.held }
        ensures passes { (forwarded : ℕ) × MovesLine D.state frames.now result.count forwarded
            (O.state self.old.inner) (O.state self.new.inner) self.old.held self.new.held }
        ensures cause { HasSendCauseOf D.state (O.state self.old.inner) (O.state self.new.inner)
            self.old.held self.new.held (Err (refusal_of result.stop)) }
        ensures few { result.count ≤ length frames.now }
        ensures memory { IsWithinMemory self.new.held }
    {
        let sent = self.forward_before(alloc, frames);
        keep_rest(alloc, &mut self.held, frames, sent)
    }
}
