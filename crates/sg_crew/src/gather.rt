// The seats of a phase: each is split off the first seat, and joined into it.
ghost use Rattle.std.specs.Prelude.{◌≡◌, ◌≤◌, ◌<◌, ◌+◌, ◌-◌, ◌*◌, ◌^◌, ◌||◌, true, length, not, is_some};
ghost use Rattle.sg_booth.specs.Desks.{IsDeskOf, HasJoined};
ghost use Rattle.sg_crew.specs.Crews.{any, AllChanged, Every, HasGathered};
ghost use Rattle.sg_crew.specs.Workers.{seats_of, turns_of, busy_sum, IsSeatDealt, HasStayed, MayJoin};

use crate::worker::Worker;
use sg_device::Disk;
use sg_hub::{Hub, Seat};
use std::mem;

/// What the turns of a phase, or of a part of one, came to.
#[derive(Clone, Copy, Drop)]
pub(crate) struct PhaseSum {
    /// Each actor took as many turns as there were rounds.
    pub(crate) even: bool,
    /// How many turns did something, or were idle.
    pub(crate) busy: u64,
    /// A turn found no memory.
    pub(crate) starved: bool,
}

// With a worker more that took its turns in so many rounds.
fn with_one<A, D: Disk>(part: PhaseSum, worker: &Worker<A, D>, rounds: u64) -> PhaseSum
    requires { part.busy + worker.now.busy < 2 ^ 64 }
    ensures even { result.even ≡ true → (part.even ≡ true) × (worker.now.turns ≡ rounds) }
    ensures busy { result.busy ≡ part.busy + worker.now.busy }
    ensures starved { result.starved ≡ (part.starved || not (is_some worker.now.turn)) }
{
    PhaseSum {
        even: part.even && worker.turns == rounds,
        busy: part.busy + worker.busy,
        starved: part.starved || worker.turn.is_none(),
    }
}

/// How many records these brought in last, beside those of the one that brought most.
pub(crate) fn spread_of<A, D: Disk>(workers: &[Worker<A, D>]) -> u64 {
    let mut all = 0u64;
    let mut most = 0u64;
    for worker in workers {
        let records = worker.passed.brought as u64;
        all = all.saturating_add(records);
        most = most.max(records);
    }
    all.saturating_sub(most)
}

// The worker gets a seat with the turns of a phase, which has seen what the first seat has.
fn deal_one<A, D: Disk>(hub: &Hub<D>, first: &mut Seat<D>, worker: &mut Worker<A, D>)
    requires first { IsDeskOf hub.now first.old }
    requires left { 1024 < first.old.left }
    ensures first { first.new ≡ record first.old { left = first.old.left - 1024 } }
    ensures dealt { IsSeatDealt first.old worker.old worker.new }
{
    worker.seat = hub.split(first, 1024);
    worker.turns = 0;
    worker.busy = 0;
}

/// Each worker gets a seat with the turns of a phase.
pub(crate) fn deal<A, D: Disk>(hub: &Hub<D>, first: &mut Seat<D>, workers: &mut Vec<Worker<A, D>>)
    requires first { IsDeskOf hub.now first.old }
    requires left { 1024 * length workers.old.items < first.old.left }
    ensures first { first.new
        ≡ record first.old { left = first.old.left - 1024 * length workers.old.items } }
    ensures workers { AllChanged (IsSeatDealt first.old) workers.old.items workers.new.items }
{
    for i in 0..workers.len() {
        deal_one(hub, first, &mut workers[i]);
    }
}

// The worker's seat is joined into the first one.
fn gather_one<A, D: Disk>(
    hub: &Hub<D>,
    first: &mut Seat<D>,
    worker: &mut Worker<A, D>,
    part: PhaseSum,
    rounds: u64,
) -> PhaseSum
    requires first { IsDeskOf hub.now first.old }
    requires left { 0 < first.old.left }
    requires seat { IsDeskOf hub.now worker.old.seat }
    requires busy { part.busy + worker.old.busy < 2 ^ 64 }
    ensures joined { HasJoined first.old worker.old.seat first.new }
    ensures actor { worker.new.actor ≡ worker.old.actor }
    ensures even { result.even ≡ true → (part.even ≡ true) × (worker.old.turns ≡ rounds) }
    ensures busy { result.busy ≡ part.busy + worker.old.busy }
    ensures starved { result.starved ≡ (part.starved || not (is_some worker.old.turn)) }
{
    let part = with_one(part, worker, rounds);
    let spent = hub.split(first, 0);
    let seat = mem::replace(&mut worker.seat, spent);
    hub.join(first, seat);
    part
}

/// The seats of all workers are joined into the first one. They took their turns in so many rounds, if they are
/// even.
pub(crate) fn gather<A, D: Disk>(
    hub: &Hub<D>,
    first: &mut Seat<D>,
    workers: &mut Vec<Worker<A, D>>,
    rounds: u64,
) -> PhaseSum
    requires first { IsDeskOf hub.now first.old }
    requires left { 0 < first.old.left }
    requires few { length workers.old.items ≤ 128 }
    requires seats { Every (MayJoin hub.now) workers.old.items }
    ensures gathered { HasGathered first.old (seats_of workers.old.items) first.new }
    ensures actors { AllChanged HasStayed workers.old.items workers.new.items }
    ensures even { result.even ≡ true → Every (λ w. w.turns ≡ rounds) workers.old.items }
    ensures busy { result.busy ≡ busy_sum workers.old.items }
    ensures few { result.busy ≤ 256 * length workers.old.items }
    ensures starved { result.starved
        ≡ any (λ turn. not (is_some turn)) (turns_of workers.old.items) }
{
    let mut part = PhaseSum {
        even: true,
        busy: 0,
        starved: false,
    };
    for i in 0..workers.len() {
        part = gather_one(hub, first, &mut workers[i], part, rounds);
    }
    part
}
