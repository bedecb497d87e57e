// New frames that are kept.
ghost use Rattle.std.specs.Prelude.{◌≡◌, ◌⊎◌, ◌≤◌, ◌-◌, [], ◌∷◌, ◌++◌, length, drop, OnOk, OnErr, IfErr};
ghost use Rattle.sg_device.specs.Outlet.{OutletState};
ghost use Rattle.sg_overflow.specs.Keeping.{PushesFrom, IsPushedAs, KeepCause};
ghost use Rattle.sg_overflow.specs.Line.{MovesLine};
ghost use Rattle.sg_overflow.specs.View.{IsWithinMemory};
ghost use Rattle.sg_overflow.specs.declared.step.Stop.TheVariants.{NoMemory};

use crate::Stop;
use crate::forwarding::SendProgress;
use crate::held::Held;
use sg_device::{Disk, Frames};
use std::alloc::Global;

// Puts a frame behind those in memory, where there is room; where there is none it goes on as the forwarding
// stopped.
fn push_one<D: Disk>(
    alloc: Global,
    held: &mut Held<D>,
    frame: &[u8],
    stop: Stop,
) -> Result<(), Stop>
    ensures ok { OnOk result (held.new
        ≡ record held.old { memory = held.old.memory ++ frame.now ∷ [] }) }
    ensures same { OnErr result (held.new ≡ held.old) }
    ensures cause { IfErr result (λ ended. (ended ≡ stop) ⊎ (ended ≡ NoMemory)) }
{
    if !held.has_room(frame.len() as u64 + 6) {
        return Err(stop);
    }
    match held.push(alloc, frame) {
        Ok(()) => Ok(()),
        Err(_) => Err(Stop::NoMemory),
    }
}

// Puts frames behind those in memory, from one of them on, up to the first for which there is no room, or no
// memory.
fn push_all<D: Disk>(
    alloc: Global,
    held: &mut Held<D>,
    frames: &Frames,
    first: usize,
    stop: Stop,
) -> SendProgress
    requires { first ≤ length frames.now }
    ensures pushes { PushesFrom D.state frames.now first held.old held.new result.count }
    ensures cause { IsPushedAs stop result.count (length frames.now) result.stop }
{
    let mut rest = frames.bytes();
    let mut place = 0;
    for size in frames.sizes() {
        let (frame, behind) = rest.split_at(*size);
        rest = behind;
        if place < first {
            place += 1;
            continue;
        }
        match push_one(alloc, held, frame, stop) {
            Ok(()) => {}
            Err(ended) => {
                return SendProgress {
                    count: place,
                    stop: ended,
                };
            }
        }
        place += 1;
    }
    SendProgress { count: place, stop }
}

/// Keeps the frames behind those that were sent, where the store works: in memory, and the oldest of all beyond
/// its limit in the store. Tells how many of the frames are sent or kept then, and why no more.
pub(crate) fn keep_rest<D: Disk>(
    alloc: Global,
    held: &mut Held<D>,
    frames: &Frames,
    sent: SendProgress,
) -> SendProgress
    requires first { sent.count ≤ length frames.now }
    requires memory { IsWithinMemory held.old }
    ensures moves { (inner : OutletState) → MovesLine D.state (drop sent.count frames.now)
        (result.count - sent.count) 0 inner inner held.old held.new }
    ensures from { (sent.count ≤ result.count) × (result.count ≤ length frames.now) }
    ensures memory { IsWithinMemory held.new }
    ensures cause { KeepCause sent.stop held.new.store.closed result.count (length frames.now)
        result.stop }
{
    let _empty = held.is_empty();
    if sent.count == frames.len() {
        return sent;
    }
    if held.failed() {
        return sent;
    }
    keep(alloc, held, frames, sent)
}

// The same of frames that are some.
fn keep<D: Disk>(
    alloc: Global,
    held: &mut Held<D>,
    frames: &Frames,
    sent: SendProgress,
) -> SendProgress
    requires first { sent.count ≤ length frames.now }
    requires memory { IsWithinMemory held.old }
    ensures moves { (inner : OutletState) → MovesLine D.state (drop sent.count frames.now)
        (result.count - sent.count) 0 inner inner held.old held.new }
    ensures from { (sent.count ≤ result.count) × (result.count ≤ length frames.now) }
    ensures memory { IsWithinMemory held.new }
    ensures cause { KeepCause sent.stop held.new.store.closed result.count (length frames.now)
        result.stop }
{
    let pushed = push_all(alloc, held, frames, sent.count, sent.stop);
    let (dropped, settled) = held.settle(alloc);
    if settled.is_open() {
        return pushed;
    }
    SendProgress {
        count: pushed.count - dropped,
        stop: settled,
    }
}
