// Turns of all workers, on threads that meet behind each round, or on this one.
ghost use Rattle.std.specs.Prelude.{◌≡◌, ◌≤◌, ◌<◌, [], length, vec_capacity, MatchOption};
ghost use denote.Param.Send.{IsSend, IsSync};
ghost use Rattle.sg_crew.specs.Crews.{AllChanged, Every};
ghost use Rattle.sg_crew.specs.Workers.{MayRead, MaySend, BeginsPhase, HasReadPhase, HasSent};
ghost use Rattle.sg_crew.specs.Pools.{ReadsOnKept, SendsOnKept, KeepsReads, KeepsSends};

use crate::hold::hold;
use crate::look::{Came, nothing};
use crate::meeting::Meeting;
use crate::pool::{Slot, WorkerInvariant, collect, share};
use crate::work::{read_each, read_held, send_each, send_held};
use crate::worker::Worker;
use sg_actor::{DestActor, SourceActor};
use sg_device::{Disk, Inlet, Outlet};
use sg_hub::Hub;
use sg_route::Router;
use std::alloc::Global;
use std::marker::Brand;
use std::sync::Wait;
use std::thread::{Threads, for_each_mut};

/// How many rounds were taken, as those who took them say, and whether threads took them, or couldn't be
/// had.
#[derive(Clone, Copy, Drop)]
pub(crate) struct RoundsTaken {
    pub(crate) rounds: u64,
    pub(crate) beside: bool,
    pub(crate) alone: bool,
}

/// Where a thread begins to look for turns in each round.
#[derive(Clone, Copy, Drop)]
struct Start {
    source: usize,
    dest: usize,
    // It takes turns of destinations first.
    sends: bool,
}

// The place that comes so many behind that one, in turn.
fn place_behind(from: usize, k: usize, count: usize) -> usize
    requires { 0 < count }
    ensures { result < count }
{
    from.wrapping_add(k) % count
}

// The turns of sources that no other thread has claimed in the round. What they came to joins what came before.
fn read_claimed<
    T: Wait,
    R: Router,
    I: Inlet,
    D: Disk,
    K: WorkerInvariant<Worker<SourceActor<R, I>, D>>,
>(
    rt: &T,
    alloc: Global,
    hub: &Hub<D>,
    slots: &[Slot<Worker<SourceActor<R, I>, D>, K>],
    round: u64,
    from: usize,
    came: Came,
) -> Came
    requires { ReadsOnKept I.state R.offers R.inlets R.dests hub.now K.kept }
{
    let mut came = came;
    for k in 0..slots.len() {
        let slot = &slots[place_behind(from, k, slots.len())];
        if slot.claim(round) {
            let mut held = slot.held.lock(rt);
            came = read_held(rt, alloc, hub, &mut *held, came);
        }
    }
    came
}

// The turns of destinations that no other thread has claimed in the round.
fn send_claimed<T: Wait, O: Outlet, D: Disk, K: WorkerInvariant<Worker<DestActor<O>, D>>>(
    rt: &T,
    alloc: Global,
    hub: &Hub<D>,
    slots: &[Slot<Worker<DestActor<O>, D>, K>],
    round: u64,
    from: usize,
    came: Came,
) -> Came
    requires { SendsOnKept O.state hub.now K.kept }
{
    let mut came = came;
    for k in 0..slots.len() {
        let slot = &slots[place_behind(from, k, slots.len())];
        if slot.claim(round) {
            let mut held = slot.held.lock(rt);
            came = send_held(rt, alloc, hub, &mut *held, came);
        }
    }
    came
}

// The rounds of a thread: in each it takes turns that no other thread has claimed, and meets the other threads. One of
// them begins with the destinations, which send what came in the round before while the other threads read. Where the
// threads don't all come, those that do take the turns of one round.
fn take_rounds<
    T: Wait,
    R: Router,
    I: Inlet,
    O: Outlet,
    D: Disk,
    K: WorkerInvariant<Worker<SourceActor<R, I>, D>>,
    L: WorkerInvariant<Worker<DestActor<O>, D>>,
>(
    rt: &T,
    alloc: Global,
    hub: &Hub<D>,
    meeting: &Meeting,
    most: u64,
    sources: &[Slot<Worker<SourceActor<R, I>, D>, K>],
    dests: &[Slot<Worker<DestActor<O>, D>, L>],
    start: Start,
)
    requires read { ReadsOnKept I.state R.offers R.inlets R.dests hub.now K.kept }
    requires send { SendsOnKept O.state hub.now L.kept }
{
    let together = meeting.register(rt);
    for round in 0..most {
        let came = if start.sends {
            let came = send_claimed(rt, alloc, hub, dests, round, start.dest, nothing());
            read_claimed(rt, alloc, hub, sources, round, start.source, came)
        } else {
            let came = read_claimed(rt, alloc, hub, sources, round, start.source, nothing());
            send_claimed(rt, alloc, hub, dests, round, start.dest, came)
        };
        if !together {
            return;
        }
        if !meeting.meet(rt, came) {
            return;
        }
    }
}

// The rounds of all threads.
fn take_all<
    T: Threads + Wait + Eprint + Sync,
    R: Router + Send,
    I: Inlet + Send,
    O: Outlet + Send,
    D: Disk + Send,
    K: WorkerInvariant<Worker<SourceActor<R, I>, D>> + Send,
    L: WorkerInvariant<Worker<DestActor<O>, D>> + Send,
>(
    rt: &T,
    alloc: Global,
    hub: &Hub<D>,
    meeting: &Meeting,
    most: u64,
    sources: &[Slot<Worker<SourceActor<R, I>, D>, K>],
    dests: &[Slot<Worker<DestActor<O>, D>, L>],
    starts: &mut [Start],
)
    requires read { ReadsOnKept I.state R.offers R.inlets R.dests hub.now K.kept }
    requires send { SendsOnKept O.state hub.now L.kept }
{
    let threads = starts.len().max(1);
    let take = |_place: usize, start: &mut Start|
        requires { IsSync T.row × IsSend R.row × IsSend I.row × IsSend O.row × IsSend D.row
            × IsSend K.row × IsSend L.row
            × ReadsOnKept I.state R.offers R.inlets R.dests hub.now K.kept
            × SendsOnKept O.state hub.now L.kept }
    { take_rounds(rt, alloc, hub, meeting, most, sources, dests, *start) };
    for_each_mut(rt, starts, threads, &take);
}

// Where so many threads begin, spread over the sources and over the destinations.
fn starts_of(alloc: Global, threads: usize, sources: usize, dests: usize) -> Option<Vec<Start>>
    requires { 0 < threads }
{
    let Ok(mut starts) = Vec::with_capacity(alloc, threads) else {
        return None;
    };
    for k in 0..threads {
        starts.push_reserved(Start {
            source: k.wrapping_mul(sources) / threads,
            dest: k.wrapping_mul(dests) / threads,
            sends: k == 0,
        });
    }
    Some(starts)
}

// Each has taken a turn, as is looked at behind the threads.
fn hold_to_turns<A, D: Disk, T: Wait + Eprint>(rt: &T, workers: &[Worker<A, D>])
    ensures { Every (λ w. 0 < w.turns) workers.now }
{
    for worker in workers {
        hold(rt, worker.turns > 0);
    }
}

// So many rounds at most on so many threads; None, and nothing is done, where there is no memory for that. What is kept
// of the workers from turn to turn is the caller's choice.
fn take_kept<
    T: Threads + Wait + Eprint + Sync,
    R: Router + Send,
    I: Inlet + Send,
    O: Outlet + Send,
    D: Disk + Send,
    K: WorkerInvariant<Worker<SourceActor<R, I>, D>> + Send,
    L: WorkerInvariant<Worker<DestActor<O>, D>> + Send,
>(
    rt: &T,
    alloc: Global,
    hub: &Hub<D>,
    threads: usize,
    most: u64,
    sources: &mut Vec<Worker<SourceActor<R, I>, D>>,
    dests: &mut Vec<Worker<DestActor<O>, D>>,
) -> Option<RoundsTaken>
    requires some { 0 < threads }
    requires read { KeepsReads I.state R.offers R.inlets R.dests hub.now sources.old.items K.kept }
    requires send { KeepsSends O.state hub.now dests.old.items L.kept }
    ensures read { MatchOption result (sources.new.items ≡ sources.old.items)
        (λ _. AllChanged (HasReadPhase I.state R.offers R.inlets R.dests hub.entry.now)
        sources.old.items sources.new.items) }
    ensures sent { MatchOption result (dests.new.items ≡ dests.old.items)
        (λ _. AllChanged (HasSent O.state hub.entry.now) dests.old.items dests.new.items) }
{
    let mut starts = starts_of(alloc, threads, sources.len(), dests.len())?;
    let Ok(reader_room) = Vec::with_capacity(alloc, sources.len()) else {
        return None;
    };
    let Ok(sender_room) = Vec::with_capacity(alloc, dests.len()) else {
        reader_room.destroy_empty();
        return None;
    };
    let readers: Vec<Slot<_, K>> = share(sources, reader_room);
    let senders: Vec<Slot<_, L>> = share(dests, sender_room);
    let meeting = Meeting::new(threads as u64, most);
    take_all(
        rt,
        alloc,
        hub,
        &meeting,
        most,
        &readers,
        &senders,
        &mut starts,
    );
    collect(rt, readers, sources);
    collect(rt, senders, dests);
    hold_to_turns(rt, sources);
    hold_to_turns(rt, dests);
    Some(RoundsTaken {
        rounds: meeting.rounds(),
        beside: !meeting.is_apart(),
        alone: meeting.is_apart(),
    })
}

// The same, for turns as the caller knows them.
fn take_beside<
    T: Threads + Wait + Eprint + Sync,
    R: Router + Send,
    I: Inlet + Send,
    O: Outlet + Send,
    D: Disk + Send,
>(
    rt: &T,
    alloc: Global,
    hub: &Hub<D>,
    threads: usize,
    most: u64,
    sources: &mut Vec<Worker<SourceActor<R, I>, D>>,
    dests: &mut Vec<Worker<DestActor<O>, D>>,
) -> Option<RoundsTaken>
    requires some { 0 < threads }
    requires read { Every (λ w. MayRead I.state R.inlets R.dests hub.now w × BeginsPhase w)
        sources.old.items }
    requires send { Every (λ w. MaySend O.state hub.now w × BeginsPhase w) dests.old.items }
    ensures read { MatchOption result (sources.new.items ≡ sources.old.items)
        (λ _. AllChanged (HasReadPhase I.state R.offers R.inlets R.dests hub.entry.now)
        sources.old.items sources.new.items) }
    ensures sent { MatchOption result (dests.new.items ≡ dests.old.items)
        (λ _. AllChanged (HasSent O.state hub.entry.now) dests.old.items dests.new.items) }
{
    take_kept::<T, R, I, O, D, Brand, Brand>(rt, alloc, hub, threads, most, sources, dests)
}

// Each source and each destination takes one turn, on this thread.
fn take_alone<T: Wait, R: Router, I: Inlet, O: Outlet, D: Disk>(
    rt: &T,
    alloc: Global,
    hub: &Hub<D>,
    sources: &mut Vec<Worker<SourceActor<R, I>, D>>,
    dests: &mut Vec<Worker<DestActor<O>, D>>,
) -> RoundsTaken
    requires read { Every (λ w. MayRead I.state R.inlets R.dests hub.now w × BeginsPhase w)
        sources.old.items }
    requires send { Every (λ w. MaySend O.state hub.now w × BeginsPhase w) dests.old.items }
    ensures read { AllChanged (HasReadPhase I.state R.offers R.inlets R.dests hub.entry.now)
        sources.old.items sources.new.items }
    ensures sent { AllChanged (HasSent O.state hub.entry.now) dests.old.items dests.new.items }
{
    read_each(rt, alloc, hub, sources);
    send_each(rt, alloc, hub, dests);
    RoundsTaken {
        rounds: 1,
        beside: false,
        alone: false,
    }
}

/// Each source and each destination takes so many turns at most, 1 or more, on so many threads; on this one where they
/// are fewer than two or there is no memory for them, and then one turn.
pub(crate) fn take_turns<
    T: Threads + Wait + Eprint + Sync,
    R: Router + Send,
    I: Inlet + Send,
    O: Outlet + Send,
    D: Disk + Send,
>(
    rt: &T,
    alloc: Global,
    hub: &Hub<D>,
    threads: usize,
    most: u64,
    sources: &mut Vec<Worker<SourceActor<R, I>, D>>,
    dests: &mut Vec<Worker<DestActor<O>, D>>,
) -> RoundsTaken
    requires read { Every (λ w. MayRead I.state R.inlets R.dests hub.now w × BeginsPhase w)
        sources.old.items }
    requires send { Every (λ w. MaySend O.state hub.now w × BeginsPhase w) dests.old.items }
    ensures read { AllChanged (HasReadPhase I.state R.offers R.inlets R.dests hub.entry.now)
        sources.old.items sources.new.items }
    ensures sent { AllChanged (HasSent O.state hub.entry.now) dests.old.items dests.new.items }
{
    if threads < 2 {
        return take_alone(rt, alloc, hub, sources, dests);
    }
    match take_beside(rt, alloc, hub, threads, most, sources, dests) {
        Some(taken) => taken,
        None => take_alone(rt, alloc, hub, sources, dests),
    }
}
