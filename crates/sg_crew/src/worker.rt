// Actors at seats.
ghost use Rattle.std.specs.Prelude.{◌≡◌, ◌≤◌, ◌<◌, [], length, vec_capacity};
ghost use Rattle.sg_booth.specs.Desks.{IsDeskOf};
ghost use Rattle.sg_crew.specs.Workers.{actors_of};

use sg_actor::Turned;
use sg_device::Disk;
use sg_hub::{Hub, Seat, SeatCounts};
use std::alloc::Global;
use std::collections::VecDeque;

/// How many turns a worker takes in a phase at most.
pub(crate) const TURNS: u64 = 256;

/// An actor, its seat, and what its last turn came to: None where it found no memory, or there was none.
/// How many turns of the phase it has taken, and how many of them did something or were idle; and what has passed
/// the seat so far, with how many records a source brought in at its last turn.
pub(crate) struct Worker<A, D: Disk> {
    pub(crate) actor: A,
    pub(crate) seat: Seat<D>,
    pub(crate) turn: Option<Turned>,
    pub(crate) turns: u64,
    pub(crate) busy: u64,
    pub(crate) passed: SeatCounts,
}

/// Each actor gets a seat, which has no turns yet.
pub(crate) fn seat_all<A, D: Disk>(
    alloc: Global,
    hub: &Hub<D>,
    first: &mut Seat<D>,
    actors: Vec<A>,
    room: Vec<Worker<A, D>>,
) -> Vec<Worker<A, D>>
    requires first { IsDeskOf hub.now first.old }
    requires left { 0 < first.old.left }
    requires empty { room.items ≡ [] }
    requires fits { length actors.items ≤ vec_capacity room }
    ensures actors { actors_of result.items ≡ actors.items }
    ensures first { first.new ≡ first.old }
{
    let mut workers = room;
    let mut rest = VecDeque::from(actors);
    while let Some(actor) = rest.pop_front() {
        let seat = hub.split(first, 0);
        workers.push_reserved(Worker {
            actor,
            seat,
            turn: None,
            turns: 0,
            busy: 0,
            passed: SeatCounts::new(alloc),
        });
    }
    rest.destroy_empty();
    workers
}

/// The actors leave their seats.
pub(crate) fn free_all<A, D: Disk>(workers: Vec<Worker<A, D>>, room: Vec<A>) -> Vec<A>
    requires empty { room.items ≡ [] }
    requires fits { length workers.items ≤ vec_capacity room }
    ensures { result.items ≡ actors_of workers.items }
{
    let mut actors = room;
    let mut rest = VecDeque::from(workers);
    while let Some(worker) = rest.pop_front() {
        let Worker {
            actor,
            seat: _,
            turn: _,
            turns: _,
            busy: _,
            passed: _,
        } = worker;
        actors.push_reserved(actor);
    }
    rest.destroy_empty();
    actors
}
