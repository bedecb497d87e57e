// Entries of the core that go to an outlet.
ghost use Rattle.std.specs.Prelude.{◌≡◌, ◌≢◌, ◌≤◌, ◌<◌, ◌+◌, false, None, [], length, is_ok};
ghost use Rattle.sg_device.specs.Outlet.{count_of};
ghost use Rattle.sg_actor.specs.Rendering.{most_entries};
ghost use Rattle.sg_actor.specs.Outages.{HasFailures};
ghost use Rattle.sg_actor.specs.DestTurns.{HasDelivered, idle_in};
ghost use Rattle.sg_actor.specs.Delivering.{Settles, Refills, FrontTurnGives};

use crate::Turned;
use crate::outage::{Outage, send};
use crate::rendering::{DestSpec, ENOUGH, MOST, render};
use sg_counter::{CoreFront, Counter, Refill, Settled, Settler};
use sg_device::{Frames, NoMemory, Outlet, Taken};
use sg_msg::Message;
use std::alloc::{AllocError, Global};
use std::sync::Wait;

// How many entries a turn asks for, where fewer than that were sent last.
const FEW: usize = 100;

/// How many entries a turn asks for: where those that were sent last were bytes enough for a send,
/// some more than these, since others would be read in vain; else many more. One where it was too
/// early for all of those, since it may be again.
fn entries(last: &Frames, waits: bool) -> u32
    ensures some { 0 < result }
    ensures most { result ≤ most_entries }
{
    if waits {
        return 1;
    }
    let sent = last.len();
    let asked = if last.bytes().len() >= ENOUGH {
        sent.saturating_add(sent / 8).saturating_add(1)
    } else {
        sent.saturating_mul(2).saturating_add(FEW)
    };
    asked.min(MOST) as u32
}

/// Settles the entries whose frames were taken. Tells whether the destination may go on.
fn settle<T: Wait, O: Outlet, C: Settler<O>>(
    rt: &T,
    counter: &mut C,
    d: u32,
    place: u64,
    n: u32,
    taken: Taken<O>,
    outage: &mut Outage,
) -> bool
    requires left { 0 < C.left counter.old }
    requires dest { d < length (C.setup counter.old).dests }
    ensures settles { Settles C.step counter.old counter.new d place n (count_of taken)
        outage.old outage.new result }
    ensures setup { C.setup counter.new ≡ C.setup counter.old }
    ensures left { C.left counter.old ≤ C.left counter.new + 1 }
{
    if n == 0 {
        return true;
    }
    match counter.settle(rt, d, place, n, taken) {
        Settled::Done => true,
        Settled::NotFront => false,
        Settled::DiskFailed => {
            outage.break_store();
            false
        }
    }
}

/// Moves entries that wait into the disk-buffer.
fn refill<T: Wait, C: Counter>(rt: &T, counter: &mut C, d: u32, outage: &mut Outage)
    requires left { 0 < C.left counter.old }
    requires dest { d < length (C.setup counter.old).dests }
    ensures refills { Refills C.step counter.old counter.new d outage.old outage.new }
    ensures setup { C.setup counter.new ≡ C.setup counter.old }
    ensures left { C.left counter.old ≤ C.left counter.new + 1 }
{
    match counter.refill(rt, d) {
        Refill::Broken => outage.break_store(),
        Refill::Moved(_) => {}
        Refill::NoneWaits => {}
        Refill::NoRoom => {}
    }
}

/// Sends the frames of the first entries, the first of which has that place, settles those that
/// were taken, and refills. Tells whether it was too early for all of them.
fn deliver<T: Wait, O: Outlet, C: Settler<O>>(
    rt: &T,
    alloc: Global,
    counter: &mut C,
    spec: &DestSpec,
    outlet: &mut O,
    frames: &mut Frames,
    outage: &mut Outage,
    place: u64,
    messages: &[Message],
) -> Result<bool, NoMemory>
    requires left { 2 ≤ C.left counter.old }
    requires dest { spec.now.dest < length (C.setup counter.old).dests }
    requires some { messages.now ≢ [] }
    requires ready { outage.old.reopens ≡ false }
    requires kept { outage.old.given_up ≡ None }
    requires failures { HasFailures outage.old (O.state outlet.old) }
    ensures delivers { HasDelivered spec.now C.step counter.old counter.new place messages.now
        outage.new (O.state outlet.old) (O.state outlet.new) (is_ok result) (idle_in result) }
    ensures setup { C.setup counter.new ≡ C.setup counter.old }
    ensures left { C.left counter.old ≤ C.left counter.new + 2 }
{
    render(alloc, spec, messages, frames)?;
    let sent = send(outlet, frames, outage, spec.gives_up);
    let idle = sent.idle();
    let taken = Taken::of(outlet);
    let goes_on = settle(rt, counter, spec.dest, place, sent.taken, taken, outage);
    if sent.starved {
        return Err(AllocError);
    }
    if goes_on {
        refill(rt, counter, spec.dest, outage);
    }
    Ok(idle)
}

// No entry is left: what the outlet still holds of those before is sent on.
fn flush<O: Outlet>(outlet: &mut O) -> Turned
    ensures outlet { O.state outlet.new ≡ O.state outlet.old }
    ensures nothing { result ≡ record { did = false; idle = false } }
{
    outlet.flush();
    Turned {
        did: false,
        idle: false,
    }
}

/// Takes the first entries of the destination to its outlet. It did something where there were any,
/// unless it was too early for all of them: then it was idle, and waits. Where there are none, what
/// the outlet still holds of those before is sent on.
pub(crate) fn deliver_front<T: Wait, O: Outlet, C: Settler<O>>(
    rt: &T,
    alloc: Global,
    counter: &mut C,
    spec: &DestSpec,
    outlet: &mut O,
    frames: &mut Frames,
    waits: &mut bool,
    outage: &mut Outage,
) -> Result<Turned, NoMemory>
    requires left { 3 ≤ C.left counter.old }
    requires dest { spec.now.dest < length (C.setup counter.old).dests }
    requires ready { outage.old.reopens ≡ false }
    requires kept { outage.old.given_up ≡ None }
    requires failures { HasFailures outage.old (O.state outlet.old) }
    ensures gives { FrontTurnGives spec.now C.step counter.old counter.new outage.new
        (O.state outlet.old) (O.state outlet.new) result }
    ensures setup { C.setup counter.new ≡ C.setup counter.old }
    ensures left { C.left counter.old ≤ C.left counter.new + 3 }
{
    match counter.front(rt, alloc, spec.dest, entries(frames, *waits))? {
        CoreFront::Entries { place, messages } => {
            if messages.is_empty() {
                return Ok(flush(outlet));
            }
            let idle = deliver(
                rt,
                alloc,
                counter,
                spec,
                outlet,
                frames,
                outage,
                place,
                messages.as_slice(),
            )?;
            *waits = idle;
            Ok(Turned { did: !idle, idle })
        }
        CoreFront::Empty => Ok(flush(outlet)),
        CoreFront::Broken => {
            outage.break_store();
            Ok(Turned {
                did: false,
                idle: false,
            })
        }
    }
}
