// Turns at seats.
ghost use Rattle.std.specs.Prelude.{◌≡◌, ◌<◌, ◌+◌, ◌^◌, true};
ghost use Rattle.sg_actor.specs.Reading.{one_if};
ghost use Rattle.sg_turns.specs.Turns.{answer_of};
ghost use Rattle.sg_turns.specs.Serving.{is_busy_answer};
ghost use Rattle.sg_crew.specs.Crews.{AllChanged, Every};
ghost use Rattle.sg_crew.specs.Workers.{MayRead, MaySend, ReadsOnce, SendsOnce};
ghost use Rattle.sg_crew.specs.Pools.{MayGoOn, ReadsOnKept, SendsOnKept};

use crate::look::{Came, with_one};
use crate::pool::{PlacedWorker, WorkerInvariant};
use crate::worker::{TURNS, Worker};
use sg_actor::{DestActor, SourceActor, Turned};
use sg_device::{Disk, Inlet, NoMemory, Outlet};
use sg_hub::{Hub, HubSeat};
use sg_route::Router;
use std::alloc::Global;
use std::sync::Wait;

// What a turn came to, None where it found no memory.
fn answer(turn: Result<Turned, NoMemory>) -> Option<Turned>
    ensures { result ≡ answer_of turn }
{
    match turn {
        Ok(turned) => Some(turned),
        Err(_) => None,
    }
}

// How many turns did something or were idle, with one more.
fn with_turn(busy: u64, turn: Option<Turned>) -> u64
    requires { busy < 2 ^ 32 }
    ensures { result ≡ busy + one_if (is_busy_answer turn) }
{
    match turn {
        Some(turned) => {
            if turned.did {
                return busy + 1;
            }
            if turned.idle {
                return busy + 1;
            }
            busy
        }
        None => busy,
    }
}

// A source's turn at its seat.
fn read_one<T: Wait, R: Router, I: Inlet, D: Disk>(
    rt: &T,
    alloc: Global,
    hub: &Hub<D>,
    worker: &mut Worker<SourceActor<R, I>, D>,
)
    requires { MayRead I.state R.inlets R.dests hub.now worker.old }
    ensures { ReadsOnce I.state R.offers R.inlets R.dests hub.entry.now worker.old worker.new }
{
    let Worker {
        actor,
        seat,
        turn,
        turns,
        busy,
        passed,
    } = worker;
    passed.brought = 0;
    let mut counter = HubSeat { hub, seat, passed };
    let answered = answer(actor.turn(rt, alloc, &mut counter));
    *turn = answered;
    *turns += 1;
    *busy = with_turn(*busy, answered);
}

// A destination's turn at its seat.
fn send_one<T: Wait, O: Outlet, D: Disk>(
    rt: &T,
    alloc: Global,
    hub: &Hub<D>,
    worker: &mut Worker<DestActor<O>, D>,
)
    requires { MaySend O.state hub.now worker.old }
    ensures { SendsOnce O.state hub.entry.now worker.old worker.new }
{
    let Worker {
        actor,
        seat,
        turn,
        turns,
        busy,
        passed,
    } = worker;
    let mut counter = HubSeat { hub, seat, passed };
    let answered = answer(actor.turn(rt, alloc, &mut counter));
    *turn = answered;
    *turns += 1;
    *busy = with_turn(*busy, answered);
}

/// Each source takes a turn.
pub(crate) fn read_each<T: Wait, R: Router, I: Inlet, D: Disk>(
    rt: &T,
    alloc: Global,
    hub: &Hub<D>,
    workers: &mut Vec<Worker<SourceActor<R, I>, D>>,
)
    requires may { Every (MayRead I.state R.inlets R.dests hub.now) workers.old.items }
    ensures read { AllChanged (ReadsOnce I.state R.offers R.inlets R.dests hub.entry.now)
        workers.old.items workers.new.items }
{
    for i in 0..workers.len() {
        read_one(rt, alloc, hub, &mut workers[i]);
    }
}

/// Each destination takes a turn.
pub(crate) fn send_each<T: Wait, O: Outlet, D: Disk>(
    rt: &T,
    alloc: Global,
    hub: &Hub<D>,
    workers: &mut Vec<Worker<DestActor<O>, D>>,
)
    requires may { Every (MaySend O.state hub.now) workers.old.items }
    ensures sent { AllChanged (SendsOnce O.state hub.entry.now) workers.old.items
        workers.new.items }
{
    for i in 0..workers.len() {
        send_one(rt, alloc, hub, &mut workers[i]);
    }
}

// Whether the worker may take one more turn of a phase.
fn may_go_on<A, D: Disk>(worker: &Worker<A, D>) -> bool
    ensures { result ≡ true → MayGoOn worker.now }
{
    if worker.turns == 0 {
        return true;
    }
    worker.turns < TURNS && worker.turn.is_some()
}

/// A shared source takes a turn, if it may. What the turn came to joins what came before.
pub(crate) fn read_held<
    T: Wait,
    R: Router,
    I: Inlet,
    D: Disk,
    K: WorkerInvariant<Worker<SourceActor<R, I>, D>>,
>(
    rt: &T,
    alloc: Global,
    hub: &Hub<D>,
    held: &mut PlacedWorker<Worker<SourceActor<R, I>, D>, K>,
    came: Came,
) -> Came
    requires { ReadsOnKept I.state R.offers R.inlets R.dests hub.now K.kept }
{
    if !may_go_on(&held.worker) {
        return came;
    }
    read_one(rt, alloc, hub, &mut held.worker);
    with_one(came, &held.worker)
}

/// A shared destination takes a turn, if it may. What the turn came to joins what came before.
pub(crate) fn send_held<T: Wait, O: Outlet, D: Disk, K: WorkerInvariant<Worker<DestActor<O>, D>>>(
    rt: &T,
    alloc: Global,
    hub: &Hub<D>,
    held: &mut PlacedWorker<Worker<DestActor<O>, D>, K>,
    came: Came,
) -> Came
    requires { SendsOnKept O.state hub.now K.kept }
{
    if !may_go_on(&held.worker) {
        return came;
    }
    send_one(rt, alloc, hub, &mut held.worker);
    with_one(came, &held.worker)
}
