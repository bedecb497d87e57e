// Workers that threads share: in each round any thread may claim the turn of any worker.
ghost use Rattle.std.specs.Prelude.{◌≡◌, ◌≤◌, ℕ, [], length, vec_capacity};
ghost use Rattle.sg_crew.specs.Pools.{AllKept};

use crate::hold::hold;
use std::marker::{Brand, Model, PhantomData};
use std::sync::atomic::{AtomicU64, Ordering};
use std::sync::{Mutex, Wait};

/// What is known of a worker from turn to turn, whichever threads take them, by its place.
pub(crate) trait WorkerInvariant<W> {
    ghost kept: { ℕ → W → Type 0 };
}

impl<W> WorkerInvariant<W> for Brand {
    ghost kept = { λ place worker. ℕ };
}

/// A worker, and its place among those of its kind.
pub(crate) struct PlacedWorker<W, K: WorkerInvariant<W>> {
    place: usize,
    pub(crate) worker: W,
    by: PhantomData<K>,
}

impl<W, K: WorkerInvariant<W>> Model for PlacedWorker<W, K> {
    ghost use Rattle.sg_crew.specs.Pools.{WorkerAt};

    ghost Value = { WorkerAt W };

    ghost view = { λ held. record { place = held.place; worker = held.worker } };

    ghost invariant = { λ held. K.kept held.place held.worker };
}

impl<W, K: WorkerInvariant<W>> PlacedWorker<W, K> {
    fn new(place: usize, worker: W) -> PlacedWorker<W, K>
        requires { K.kept place worker }
    {
        PlacedWorker {
            place,
            worker,
            by: PhantomData,
        }
    }

    fn leave(self) -> (usize, W)
        ensures { K.kept result.0 result.1 }
    {
        let PlacedWorker {
            place,
            worker,
            by: _,
        } = self;
        (place, worker)
    }
}

/// A worker that threads share.
pub(crate) struct Slot<W, K: WorkerInvariant<W>> {
    // How many of its turns were claimed.
    claimed: AtomicU64,
    pub(crate) held: Mutex<PlacedWorker<W, K>>,
}

impl<W, K: WorkerInvariant<W>> Slot<W, K> {
    fn new(place: usize, worker: W) -> Slot<W, K>
        requires { K.kept place worker }
    {
        Slot {
            claimed: AtomicU64::new(0),
            held: Mutex::new(PlacedWorker::new(place, worker)),
        }
    }

    /// Claims the worker's turn of that round, from 0. One thread alone gets it.
    pub(crate) fn claim(&self, round: u64) -> bool {
        if self.claimed.load(Ordering::SeqCst) != round {
            return false;
        }
        self.claimed
            .compare_exchange(
                round,
                round.wrapping_add(1),
                Ordering::SeqCst,
                Ordering::SeqCst,
            )
            .is_ok()
    }
}

/// Puts the workers into slots, for which there is room.
pub(crate) fn share<W, K: WorkerInvariant<W>>(
    workers: &mut Vec<W>,
    room: Vec<Slot<W, K>>,
) -> Vec<Slot<W, K>>
    requires kept { AllKept K.kept workers.old.items }
    requires empty { room.items ≡ [] }
    requires fits { length workers.old.items ≤ vec_capacity room }
    ensures none { workers.new.items ≡ [] }
    ensures all { length result.items ≡ length workers.old.items }
    ensures capacity { vec_capacity workers.new ≡ vec_capacity workers.old }
{
    let mut slots = room;
    while let Some(worker) = workers.pop() {
        slots.push_reserved(Slot::new(workers.len(), worker));
    }
    slots
}

/// The workers leave their slots, each to its place.
pub(crate) fn collect<W, K: WorkerInvariant<W>, T: Wait + Eprint>(
    rt: &T,
    slots: Vec<Slot<W, K>>,
    workers: &mut Vec<W>,
)
    requires none { workers.old.items ≡ [] }
    requires fits { length slots.items ≤ vec_capacity workers.old }
    ensures all { length workers.new.items ≡ length slots.items }
    ensures kept { AllKept K.kept workers.new.items }
{
    let mut slots = slots;
    while let Some(slot) = slots.pop() {
        let Slot { claimed: _, held } = slot;
        let (place, worker) = held.into_inner().leave();
        hold(rt, place == workers.len());
        workers.push_reserved(worker);
    }
    slots.destroy_empty();
}
