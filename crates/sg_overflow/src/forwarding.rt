// Held frames that go to the outlet inside.
ghost use Rattle.std.specs.Prelude.{◌≡◌, ◌≢◌, ◌≤◌, ◌<◌, []};
ghost use Rattle.sg_overflow.specs.Held.{StopCause};
ghost use Rattle.sg_overflow.specs.Line.{ForwardsBy};
ghost use Rattle.sg_overflow.specs.Sending.{IsSent};
ghost use Rattle.sg_overflow.specs.View.{held_count};
ghost use Rattle.sg_overflow.specs.declared.step.Stop.TheVariants.{Open};

use crate::Stop;
use crate::held::Held;
use sg_device::{Disk, Frames, Outlet};
use std::alloc::Global;

/// How many batches are forwarded in one call, where there is room for new frames.
pub(crate) const MOST: u64 = 100;

/// How far a send came: the frames taken, and why no more.
#[derive(Clone, Copy, Drop)]
pub(crate) struct SendProgress {
    pub(crate) count: usize,
    pub(crate) stop: Stop,
}

/// Sends frames, and tells how many were taken.
pub(crate) fn send<O: Outlet>(inner: &mut O, frames: &Frames) -> SendProgress
    requires { frames.now ≢ [] }
    ensures { IsSent (O.state inner.old) (O.state inner.new) frames.now result.count result.stop }
{
    let before = inner.taken();
    let answer = inner.send(frames);
    let count = inner.taken() - before;
    SendProgress {
        count: count as usize,
        stop: Stop::of(answer),
    }
}

/// Forwards the first of the held frames, up to 100.
pub(crate) fn forward_batch<O: Outlet, D: Disk>(
    alloc: Global,
    inner: &mut O,
    held: &mut Held<D>,
) -> Stop
    ensures forwards { ForwardsBy D.state (O.state inner.old) (O.state inner.new) held.old
        held.new }
    ensures cause { StopCause (O.state inner.old) (O.state inner.new) held.new.store.closed
        result }
    ensures fewer { result ≡ Open → 1 ≤ held_count held.old
        → held_count held.new < held_count held.old }
{
    let frames = match held.first(alloc) {
        Ok(frames) => frames,
        Err(stop) => return stop,
    };
    if frames.is_empty() {
        return Stop::Open;
    }
    let sent = send(inner, &frames);
    if !held.remove_first(sent.count as u64) {
        return Stop::Store;
    }
    sent.stop
}

/// Forwards held frames: up to 10,000, and more while there is no room for new ones that take so many bytes.
pub(crate) fn forward_for<O: Outlet, D: Disk>(
    alloc: Global,
    inner: &mut O,
    held: &mut Held<D>,
    size: u64,
) -> Stop
    ensures forwards { ForwardsBy D.state (O.state inner.old) (O.state inner.new) held.old
        held.new }
    ensures cause { StopCause (O.state inner.old) (O.state inner.new) held.new.store.closed
        result }
{
    let mut empty = held.is_empty();
    let mut batches: u64 = 0;
    'batches: while !empty {
        if batches >= MOST && held.has_room(size) {
            return Stop::Open;
        }
        let stop = forward_batch(alloc, inner, held);
        if !stop.is_open() {
            return stop;
        }
        batches = batches.min(MOST) + 1;
        let left = held.is_empty();
        empty = left;
    }
    Stop::Open
}
